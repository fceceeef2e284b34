//! Where a walker stands.

/// What a walker gives next.
#[derive(Clone, Copy)]
pub(crate) enum Position {
    /// The Stream item of this entry, which was sought.
    Sought(usize),
    /// What stands behind the Stream item that was given last.
    Begun,
    /// What is left of the walk.
    Within,
}
