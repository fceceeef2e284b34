//! Files that change while a view of them is opened or written.
use super::{Written, reads_of, two_faces, write_over};
use crate::files::{NAMED, SIX_FILE, file_of};
use crate::same::assert_same_at;
use mdmp_dump::ViewFault;
use mdmp_source::SourceFault;
use mdmp_writer::WriteFault;
use std::alloc::Global;
use std::process::Abort;

/// A byte of the file of six streams, another number in its place, and where the stream stands that is told as changed,
/// where that is asked of each write behind the opening.
type Change = (usize, u8, Option<u64>);

static CHANGES: [Change; 20] = [
    (8, 5, None), // the number of streams
    (32, 9, None), // the type of the first
    (36, 55, None), // its size
    (40, 107, None), // and its place
    (48, 100, None), // the size of the list of threads
    (68, 3, None), // and of the exception's place
    (104, 1, None), // a number of the system
    (128, 164, None), // the place of its name
    (160, 26, None), // the length of the name
    (160, 40, Some(104)),
    (164, 0x54, None), // a unit of it
    (196, 0, Some(196)), // the number of threads
    (232, 3, None), // the size of the thread's stack
    (232, 8, Some(196)),
    (236, 255, None), // its place
    (240, 5, None), // the size of its context
    (240, 12, Some(196)),
    (248, 0x55, None), // a byte of the stack
    (425, 0xff, Some(264)), // the size of the exception's context
    (440, 9, None), // a byte of the last stream
];

/// Asserts that what went out has the length that was told, or is shorter where the writing stopped; and where a place is
/// told, that it is a first part of the six streams, and the file was told as changed there.
fn assert_first_part(
    rt: &impl Abort,
    at: &(usize, u64),
    six: &[u8],
    written: &Written,
    place: Option<u64>,
) {
    let bytes = written.bytes.len() as u64;
    let told = written.told;
    let is_long = match written.outcome {
        Err(_) => bytes == 0,
        Ok(Ok(size)) => bytes == told && size == told,
        Ok(Err(_)) => bytes < told,
    };
    assert_same_at(rt, at, is_long, true);
    if let Some(rva) = place {
        let first = six.get(..written.bytes.len());
        assert_same_at(rt, at, first, Some(written.bytes.as_slice()));
        if let Ok(Err(fault)) = written.outcome {
            let changed = ViewFault::Source(SourceFault::Changed { at: rva });
            assert_same_at(rt, at, fault, WriteFault::View(changed));
        }
    }
}

/// Writes the six streams, a byte of which changes at each read in turn.
fn assert_change(rt: &impl Abort, alloc: Global, six: &[u8], change: &Change) {
    let (place, byte, rva) = *change;
    let mut other = file_of(rt, alloc, &SIX_FILE);
    *other.get_mut(place).expect(rt, "a byte of the file") = byte;
    let (opened, reads) = reads_of(rt, alloc, six, NAMED, 7);
    for turn in 0..reads {
        let at = (place, turn);
        let store = two_faces(rt, six, &other, turn);
        let written = write_over(rt, alloc, store, &[], NAMED, 7);
        let place = if turn >= opened { rva } else { None };
        assert_first_part(rt, &at, six, &written, place);
    }
}

#[test]
fn file_that_changes_leaves_a_first_part_and_is_never_written_with_another_length(rt: HostRuntime) {
    let six = file_of(&rt, rt.alloc(), &SIX_FILE);
    for change in &CHANGES {
        assert_change(&rt, rt.alloc(), &six, change);
    }
}
