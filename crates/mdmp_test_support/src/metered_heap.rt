//! A heap that counts what is asked of it, and refuses what it is told to.
use std::alloc::{AllocError, Allocator};
use std::cell::Cell;

/// Which growths a heap refuses, by their numbers from 0 on.
#[derive(Clone, Copy)]
pub enum Refusal {
    Never,
    /// This one alone.
    Only(u64),
    /// This one, and all behind it.
    From(u64),
}

/// What was asked of a heap.
#[derive(Clone, Copy, Debug, PartialEq, Eq)]
pub struct HeapCounts {
    /// How often a block was asked for, refused ones among them.
    pub growths: u64,
    /// How many bytes these had.
    pub bytes: u64,
    /// How many blocks were handed on and not given back.
    pub out: u64,
    /// How many bytes these have.
    pub held: u64,
    /// The most bytes that such blocks had at once.
    pub peak: u64,
}

impl HeapCounts {
    /// What is counted if at most `peak` bytes are out at once, of so many in all, by so many growths, and all are
    /// given back.
    pub fn given_back(peak: u64, bytes: u64, growths: u64) -> HeapCounts {
        HeapCounts {
            growths,
            bytes,
            out: 0,
            held: 0,
            peak,
        }
    }

    /// What is counted if each of so many bytes is taken once, by so many growths, and all are given back.
    pub fn once(bytes: u64, growths: u64) -> HeapCounts {
        HeapCounts::given_back(bytes, bytes, growths)
    }
}

#[derive(Clone, Copy)]
struct Metering {
    refusal: Refusal,
    counts: HeapCounts,
}

/// An allocator that hands on to another what it does not refuse. A `&` to it is an allocator that can be
/// copied.
///
/// The other one is taken to have memory enough: what that refuses counts as handed on.
pub struct MeteredHeap<B: Allocator> {
    inner: B,
    metering: Cell<Metering>,
}

impl<B: Allocator> MeteredHeap<B> {
    /// A heap of which nothing was asked.
    pub fn new(inner: B, refusal: Refusal) -> MeteredHeap<B> {
        let counts = HeapCounts {
            growths: 0,
            bytes: 0,
            out: 0,
            held: 0,
            peak: 0,
        };
        MeteredHeap {
            inner,
            metering: Cell::new(Metering { refusal, counts }),
        }
    }

    /// What was asked of it so far.
    pub fn counts(&self) -> HeapCounts {
        self.metering.get().counts
    }
}

impl<B: Allocator> Drop for MeteredHeap<B> {
    fn drop(self) {
        let Self {
            inner: _,
            metering: _,
        } = self;
    }
}

/// Counts a growth, and tells whether it is handed on.
fn admits(metering: &Cell<Metering>, size: usize) -> bool {
    let Metering { refusal, counts } = metering.get();
    let is_refused = match refusal {
        Refusal::Never => false,
        Refusal::Only(number) => counts.growths == number,
        Refusal::From(number) => counts.growths >= number,
    };
    let (out, more) = if is_refused { (0, 0) } else { (1, size as u64) };
    let held = counts.held.wrapping_add(more);
    metering.set(Metering {
        refusal,
        counts: HeapCounts {
            growths: counts.growths.wrapping_add(1),
            bytes: counts.bytes.wrapping_add(size as u64),
            out: counts.out.wrapping_add(out),
            held,
            peak: counts.peak.max(held),
        },
    });
    !is_refused
}

/// Counts a block of so many bytes that is given back.
fn takes_back(metering: &Cell<Metering>, size: usize) {
    let Metering { refusal, counts } = metering.get();
    metering.set(Metering {
        refusal,
        counts: HeapCounts {
            out: counts.out.wrapping_sub(1),
            held: counts.held.wrapping_sub(size as u64),
            ..counts
        },
    });
}

unsafe impl<B: Allocator> Allocator for MeteredHeap<B> {
    ghost dealloc_token = { λ heap ty ptr. B.dealloc_token heap.inner ty ptr };

    fn allocate(&self, size: usize, align: usize) -> Result<*mut u8, AllocError> {
        if admits(&self.metering, size) {
            return self.inner.allocate(size, align);
        }
        Err(AllocError)
    }

    unsafe fn deallocate(&self, ptr: *mut u8, size: usize, align: usize) {
        takes_back(&self.metering, size);
        self.inner.deallocate(ptr, size, align);
    }
}
