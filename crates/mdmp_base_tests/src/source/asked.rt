//! How many bytes a store is asked for by one fetch: no contract says it if the store gives fewer.
use super::{Fetched, four_at_one};
use crate::same::assert_same_at;
use mdmp_source::{PatchyStore, Source, SourceFault, Store, StoreFailed};
use std::cell::Cell;

/// A store that adds up in a cell of the test's how many bytes it is asked for.
#[derive(Drop)]
struct Asked<'a> {
    store: PatchyStore<'a>,
    bytes: &'a Cell<u64>,
}

impl<'a> Store for Asked<'a> {
    ghost state = { λ s. ⟦<PatchyStore<'a> as Store>⟧.state s.store };

    fn size(&self) -> u64 {
        self.store.size()
    }

    fn read_at(&mut self, at: u64, out: &mut [u8]) -> Result<usize, StoreFailed> {
        self.bytes
            .set(self.bytes.get().saturating_add(out.len() as u64));
        self.store.read_at(at, out)
    }
}

/// How many bytes the calls of a store give, what a fetch of four gives then, and how many bytes it asks for: each
/// call for just those that were not given yet.
static ROWS: [(&[usize], Fetched, u64); 4] = [
    (&[6], (None, *b"bcde"), 4),
    (&[3], (None, *b"bcde"), 4 + 1),
    (&[1], (None, *b"bcde"), 4 + 3 + 2 + 1),
    (
        &[3, 0],
        (Some(SourceFault::ShortRead { at: 4 }), *b"bcd\0"),
        4 + 1,
    ),
];

#[test]
fn fetch_asks_for_just_what_was_not_given(rt: HostRuntime) {
    for (caps, fetched, asked) in &ROWS {
        assert!(rt; !caps.is_empty());
        let bytes = Cell::new(0);
        let store = Asked {
            store: PatchyStore::new(b"abcdef", *caps, None),
            bytes: &bytes,
        };
        let found = four_at_one(&rt, &mut Source::new(store));
        assert_same_at(&rt, caps, (found, bytes.get()), (*fetched, *asked));
    }
}
