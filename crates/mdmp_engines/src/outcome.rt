//! What a call over a source comes to.

use mdmp_source::{Source, Store};

/// What a call over a source returns, and the source that it read.
#[derive(Drop)]
pub struct Outcome<T: Drop, S: Store + Drop> {
    /// What the call comes to: of a command its answer or its error, of a command that reports it the exit status.
    pub answer: T,
    /// The source, whose counts tell the cause of its errors.
    pub source: Source<S>,
}
