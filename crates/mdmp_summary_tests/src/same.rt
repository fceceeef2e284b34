//! The comparisons of the tests. Made by tests/comparisons.
//!
//! The text of `assert_eq!` is long for the prover in each function that has it, and a call is short. So it is in functions
//! without a contract.
use std::fmt::Debug;
use std::process::Abort;

/// Asserts that what was found at this row, word or size is what was expected.
pub fn assert_same_at<T: PartialEq + Debug + Drop>(
    rt: &impl Abort,
    at: &impl Debug,
    found: T,
    expected: T,
) {
    assert_eq!(rt; found, expected, "at {at:?}")
}
