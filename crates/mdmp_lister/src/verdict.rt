//! Whether an entry is good.

use crate::fault::ListFault;

/// An entry of the directory, and the first fault of what it names.
#[derive(Clone, Copy, Debug, PartialEq, Eq)]
pub struct Verdict {
    /// The number of the entry in the directory, from 0.
    pub entry: u32,
    /// Its first fault, or none where it is good.
    pub fault: Option<ListFault>,
}
