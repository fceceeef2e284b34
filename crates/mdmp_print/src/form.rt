//! The form of the lines.

/// How lines are printed.
#[derive(Clone, Copy, Debug, PartialEq, Eq)]
pub enum LineForm {
    /// As words, for people.
    Text,
    /// As objects of JSON, for programs.
    Json,
}
