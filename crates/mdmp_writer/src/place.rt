//! Where a stream is written.

/// Places of a stream in the file, from its start.
#[derive(Clone, Copy, Debug, PartialEq, Eq)]
pub(crate) struct StreamPlace {
    /// Where its block begins, or the names and parts behind its body.
    pub(crate) at: u64,
    /// Where its 64-bit memory begins.
    pub(crate) far: u64,
}
