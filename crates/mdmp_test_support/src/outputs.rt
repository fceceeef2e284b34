//! How much an output of the tests takes.

/// How many bytes an output takes in all, and how many at most a call.
#[derive(Clone, Copy)]
pub struct Room {
    pub all: usize,
    pub call: usize,
}

/// An output that takes each text of these tests, by seven bytes a call.
pub const BY_SEVEN: Room = Room { all: 2000, call: 7 };

/// An output that takes each text of these tests by whole writes.
pub const BY_WHOLE: Room = Room {
    all: 2000,
    call: 2000,
};

/// An output that takes the longest text of these tests but those of memory.
pub const FOR_LONG_TEXT: Room = Room {
    all: 10_000,
    call: 10_000,
};
