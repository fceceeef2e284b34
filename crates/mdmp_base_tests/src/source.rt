//! Stores, sources, outputs and tests of place.
mod asked;
mod failing;
mod outputs;
mod places;
mod stores;
mod test_stores;
mod windows;

use crate::same::assert_same_at;
use mdmp_source::{Out, OutFailed, Source, SourceFault, Store, send, write_all};
use std::process::Abort;

/// What a fetch of four bytes ends with, and what it gave, with zeros behind it.
type Fetched = (Option<SourceFault>, [u8; 4]);

/// A fetch of the four bytes at 1.
fn four_at_one<S: Store>(rt: &impl Abort, source: &mut Source<S>) -> Fetched {
    assert!(rt; source.size() >= 5);
    let mut bytes = [0; 4];
    let fault = source.fetch(1, &mut bytes).err();
    (fault, bytes)
}

/// A call of an output with these bytes, and what it answers.
enum OutStep {
    /// One write.
    Write(&'static [u8], Result<usize, OutFailed>),
    /// A write of all bytes.
    WriteAll(&'static [u8], Result<(), OutFailed>),
    /// Writes up to a refusal, by which so many went out.
    Send(&'static [u8], usize),
}

/// Asserts that the output answers each call as its step says.
fn assert_out<O: Out>(rt: &impl Abort, out: &mut O, steps: &[OutStep]) {
    for step in steps {
        match step {
            OutStep::Write(bytes, answer) => {
                assert_same_at(rt, bytes, out.write(*bytes), *answer)
            }
            OutStep::WriteAll(bytes, answer) => {
                assert_same_at(rt, bytes, write_all(out, *bytes), *answer)
            }
            OutStep::Send(bytes, count) => assert_same_at(rt, bytes, send(out, *bytes), *count),
        }
    }
}

/// The bytes from one place up to another.
pub fn part<'a>(rt: &impl Abort, bytes: &'a [u8], from: usize, to: usize) -> &'a [u8] {
    bytes.get(from..to).expect(rt, "a part")
}
