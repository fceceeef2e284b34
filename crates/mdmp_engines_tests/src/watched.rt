//! A store that tells how often it was read.
use mdmp_source::{MemoryStore, Store, StoreFailed};
use std::cell::Cell;

/// A file in memory that counts its reads in a cell of the test's, so that they are seen where the store
/// is dropped.
#[derive(Drop)]
pub struct Watched<'a> {
    pub store: MemoryStore<'a>,
    pub reads: &'a Cell<u64>,
}

impl<'a> Store for Watched<'a> {
    ghost state = { λ s. ⟦<MemoryStore<'a> as Store>⟧.state s.store };

    fn size(&self) -> u64 {
        self.store.size()
    }

    fn read_at(&mut self, at: u64, out: &mut [u8]) -> Result<usize, StoreFailed> {
        self.reads.set(self.reads.get().saturating_add(1));
        self.store.read_at(at, out)
    }
}
