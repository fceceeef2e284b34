//! The windows through which each file is read.

use crate::pool::NAME_LIMIT;
use mdmp_lister::{Choice, Limits, Lister, OpenFault};
use mdmp_source::{MemoryStore, Source};
use std::alloc::Global;

/// Limits with two windows.
#[derive(Clone, Copy)]
pub struct TwoWindows {
    /// Those of one window.
    pub one: Limits,
    /// Those of the other.
    pub other: Limits,
}

impl TwoWindows {
    /// The least window, and the one that the command has.
    pub fn new() -> Option<Self> {
        Some(TwoWindows {
            one: Limits::new(Limits::LEAST_WINDOW, NAME_LIMIT)?,
            other: Limits::new(Limits::default().window, NAME_LIMIT)?,
        })
    }

    /// The other way about.
    pub fn swapped(self) -> Self {
        TwoWindows {
            one: self.other,
            other: self.one,
        }
    }
}

/// Why a file can't be listed, and how many bytes were fetched to tell.
#[derive(Clone, Copy)]
pub struct NotOpened {
    /// Why it can't.
    pub fault: OpenFault,
    /// How many bytes were fetched.
    pub fetched: u128,
}

/// A lister of all entries of a file.
pub fn open<'a>(
    alloc: Global,
    file: &'a [u8],
    limits: Limits,
) -> Result<Lister<MemoryStore<'a>, Global>, NotOpened> {
    let source = Source::new(MemoryStore::new(file));
    match Lister::open(alloc, source, limits, Choice::All) {
        Ok(lister) => Ok(lister),
        Err(refused) => Err(NotOpened {
            fault: refused.fault,
            fetched: refused.source.fetched(),
        }),
    }
}
