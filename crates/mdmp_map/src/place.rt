//! Where an address stands.

/// Where the byte of an address stands.
#[derive(Clone, Copy, Debug, PartialEq, Eq)]
pub struct Place {
    /// Its offset from the start of the file.
    pub offset: u64,
    /// How many addresses from this one on have the same range as the first that holds them: their
    /// bytes follow each other in the file.
    pub left: u64,
}
