//! The names that a summary tells.

use mdmp_lister::Name;

/// The names of a summary, as the file has them. The name of what is not told is not looked at.
#[derive(Drop)]
pub struct SummaryNames<'a> {
    /// Of the first module.
    pub program: Name<'a>,
    /// Of the module that holds the address that ran, or of the nearest one.
    pub owner: Name<'a>,
    /// Of the thread that crashed.
    pub thread: Name<'a>,
}
