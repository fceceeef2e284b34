//! Windows that slide over a stretch of a file.
use crate::same::assert_same_at;
use linked_list_allocator::LocalHeap;
use mdmp_source::{MemoryStore, PatchyStore, Source, SourceFault, Store, Window};
use std::alloc::Allocator;
use std::fmt::Debug;
use std::process::Abort;

/// The file of these tests.
const FILE: &[u8] = b"abcdef";

/// A step with a window over a source, and what it answers.
enum WindowStep {
    /// Begins the stretch from one place up to another.
    Start(u64, u64),
    /// The next fill fetches so many bytes.
    NextLen(usize),
    /// Fetches what comes next.
    Fill,
    /// Fetches what comes next, and fails at this byte.
    FailsAt(u64),
    /// Drops so many bytes at the front.
    Consume(usize),
    /// The window holds these bytes, from this place on.
    Holds(u64, &'static [u8]),
    /// The stretch ends here, and the window has that room.
    Bounds(u64, usize),
}

/// Takes steps one behind the other, each of which answers as it says.
fn assert_steps<A: Allocator, S: Store>(
    rt: &impl Abort,
    at: &impl Debug,
    window: &mut Window<A>,
    source: &mut Source<S>,
    steps: &[WindowStep],
) {
    for step in steps {
        match step {
            WindowStep::Start(from, to) => {
                assert!(rt; *from <= *to);
                window.start(*from, *to);
            }
            WindowStep::NextLen(len) => assert_same_at(rt, at, window.next_len(), *len),
            WindowStep::Fill => assert_same_at(rt, at, fill(rt, window, source), Ok(())),
            WindowStep::FailsAt(byte) => {
                let fault = SourceFault::Failed { at: *byte };
                assert_same_at(rt, at, fill(rt, window, source), Err(fault))
            }
            WindowStep::Consume(count) => {
                assert!(rt; *count <= window.bytes().len());
                window.consume(*count);
            }
            WindowStep::Holds(place, bytes) => {
                assert_same_at(rt, at, (window.place(), window.bytes()), (*place, *bytes))
            }
            WindowStep::Bounds(end, room) => {
                assert_same_at(rt, at, (window.end(), window.room()), (*end, *room))
            }
        }
    }
}

/// Fetches what comes next.
fn fill<A: Allocator, S: Store>(
    rt: &impl Abort,
    window: &mut Window<A>,
    source: &mut Source<S>,
) -> Result<(), SourceFault> {
    assert!(rt; window.end() <= source.size());
    window.fill(source)
}

/// Steps over the whole file.
const SLIDES: [WindowStep; 9] = [
    WindowStep::Start(0, 6),
    WindowStep::NextLen(4),
    WindowStep::Fill,
    WindowStep::Holds(0, b"abcd"),
    WindowStep::Consume(3),
    WindowStep::Holds(3, b"d"),
    WindowStep::NextLen(2),
    WindowStep::Fill,
    WindowStep::Holds(3, b"def"),
];

/// Steps over four stretches, one after another.
const BEGINS_ANEW: [WindowStep; 21] = [
    WindowStep::Holds(0, b""),
    WindowStep::Start(3, 6),
    WindowStep::Holds(3, b""),
    WindowStep::Fill,
    WindowStep::Holds(3, b"def"),
    WindowStep::Bounds(6, 4),
    WindowStep::Start(1, 3),
    WindowStep::Holds(1, b""),
    WindowStep::Fill,
    WindowStep::Holds(1, b"bc"),
    WindowStep::Bounds(3, 4),
    WindowStep::Start(0, 6),
    WindowStep::Holds(0, b""),
    WindowStep::Fill,
    WindowStep::Holds(0, b"abcd"),
    WindowStep::Bounds(6, 4),
    WindowStep::Start(5, 6),
    WindowStep::Holds(5, b""),
    WindowStep::Fill,
    WindowStep::Holds(5, b"f"),
    WindowStep::Bounds(6, 4),
];

/// Two fills of an empty stretch, at the start of the file.
const NO_STRETCH: [WindowStep; 4] = [
    WindowStep::Start(0, 0),
    WindowStep::Fill,
    WindowStep::NextLen(0),
    WindowStep::Fill,
];

/// Two fills of the whole file: the second has nothing to fetch, nor has the first where there is no room.
const WHOLE_FILE: [WindowStep; 4] = [
    WindowStep::Start(0, 6),
    WindowStep::Fill,
    WindowStep::NextLen(0),
    WindowStep::Fill,
];

/// Two fills of an empty stretch.
const EMPTY_STRETCH: [WindowStep; 4] = [
    WindowStep::Start(6, 6),
    WindowStep::Fill,
    WindowStep::NextLen(0),
    WindowStep::Fill,
];

/// The room of a window, its steps over the file, and how often is fetched then, and how many bytes.
static SLIDING: [(usize, &[WindowStep], u128, u128); 7] = [
    (4, &SLIDES, 2, 6),
    (4, &BEGINS_ANEW, 4, 10),
    // Without room or rest nothing is fetched.
    (4, &NO_STRETCH, 0, 0),
    (0, &WHOLE_FILE, 0, 0),
    (6, &WHOLE_FILE, 1, 6),
    (4, &EMPTY_STRETCH, 0, 0),
    // A large window has its memory too.
    (1 << 20, &FILLED, 1, 6),
];

#[test]
fn with_room_succeeds_and_the_window_slides(rt: HostRuntime) {
    for (room, steps, calls, fetched) in &SLIDING {
        let mut source = Source::new(MemoryStore::new(FILE));
        let mut window = Window::with_room(rt.alloc(), *room).expect(&rt, "a window");
        assert_steps(&rt, room, &mut window, &mut source, *steps);
        let found = (source.calls(), source.fetched());
        assert_same_at(&rt, room, found, (*calls, *fetched));
    }
}

/// Steps that hold the whole file.
const FILLED: [WindowStep; 3] = [
    WindowStep::Start(0, 6),
    WindowStep::Fill,
    WindowStep::Holds(0, FILE),
];

#[test]
fn window_takes_memory_once(rt: HostRuntime) {
    // A window takes the room of a heap of 16 bytes, and no more.
    let heap = LocalHeap::new(rt.alloc(), 16).expect(&rt, "a heap");
    let is_made = Window::with_room(&heap, 17).is_ok();
    assert_same_at(&rt, &17, is_made, false);
    let mut window = Window::with_room(&heap, 16).expect(&rt, "a window");
    let mut source = Source::new(PatchyStore::new(FILE, &[1], None));
    assert_steps(&rt, &16, &mut window, &mut source, &FILLED);
    assert_same_at(&rt, &16, (source.calls(), source.fetched()), (1, 6));
}

/// Steps whose first fill fails at this byte, and is tried again.
macro_rules! first_fails {
    ($at:expr) => {
        &[
            WindowStep::Start(0, 6),
            WindowStep::FailsAt($at),
            WindowStep::Holds(0, b""),
            WindowStep::Fill,
            WindowStep::Consume(3),
            WindowStep::Fill,
            WindowStep::Holds(3, b"def"),
        ]
    };
}

/// Steps whose second fill fails at this byte, and is tried again.
macro_rules! second_fails {
    ($at:expr) => {
        &[
            WindowStep::Start(0, 6),
            WindowStep::Fill,
            WindowStep::Consume(3),
            WindowStep::FailsAt($at),
            WindowStep::Holds(3, b"d"),
            WindowStep::Fill,
            WindowStep::Holds(3, b"def"),
        ]
    };
}

/// The steps over a store of which no call fails.
const NONE_FAILS: [WindowStep; 5] = [
    WindowStep::Start(0, 6),
    WindowStep::Fill,
    WindowStep::Consume(3),
    WindowStep::Fill,
    WindowStep::Holds(3, b"def"),
];

/// Which call of a store of one byte a call fails, in the first fill, the second or none, and the steps over that
/// store.
static FAULTS: [(u64, &[WindowStep]); 7] = [
    (0, first_fails!(0)),
    (1, first_fails!(1)),
    (2, first_fails!(2)),
    (3, first_fails!(3)),
    (4, second_fails!(4)),
    (5, second_fails!(5)),
    (6, &NONE_FAILS),
];

#[test]
fn window_is_as_it_was_behind_a_fault(rt: HostRuntime) {
    let mut window = Window::with_room(rt.alloc(), 4).expect(&rt, "a window");
    for (call, steps) in &FAULTS {
        let mut source = Source::new(PatchyStore::new(FILE, &[1], Some(*call)));
        assert_steps(&rt, call, &mut window, &mut source, *steps);
    }
}
