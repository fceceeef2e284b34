//! Which entries of the directory are listed.
use std::marker::Model;

/// One to sixteen stream types, in the order that they were given in. A type may stand there twice,
/// and then counts twice against the sixteen.
// A bound on their number keeps a choice in an array, so that a test of one takes no memory.
#[derive(Drop)]
pub struct TypeSet {
    types: [u32; 16],
    count: usize,
}

impl Model for TypeSet {
    ghost use Rattle.std.specs.Prelude.{ℕ, List, take, ◌≤◌};

    ghost Value = { List ℕ };

    ghost view = { λ set. take set.count set.types };

    ghost invariant = { λ set. (1 ≤ set.count) × (set.count ≤ 16) };
}

impl TypeSet {
    ghost use Rattle.std.specs.Prelude.{length, ◌≤◌, ◌≡◌, ◌↔◌, IsSome, IfSome};

    /// These stream types, or none where there are none of them or more than 16.
    pub fn new(types: &[u32]) -> Option<TypeSet>
        ensures valid { IsSome result ↔ ((1 ≤ length types.now) × (length types.now ≤ 16)) }
        ensures value { IfSome result (λ set. set ≡ types.now) }
    {
        let count = types.len();
        if count < 1 || count > 16 {
            return None;
        }
        let mut kept = [0; 16];
        kept[..count].copy_from_slice(types);
        Some(TypeSet { types: kept, count })
    }

    /// The types as they were given.
    pub fn types(&self) -> &[u32]
        ensures { result.now ≡ self.now }
    {
        &self.types[..self.count]
    }
}

/// Which entries of the directory are listed, by their `StreamType`.
#[derive(Drop)]
pub enum Choice {
    /// Each entry.
    All,
    /// The entries of these types.
    Types(TypeSet),
}

impl Choice {
    ghost use Rattle.std.specs.Prelude.{◌≡◌};
    ghost use Rattle.mdmp_lister.specs.Format.Listing.{is_chosen, memory_lists};

    /// The entries that list memory of the dumped process: `MemoryListStream`, 5, and
    /// `Memory64ListStream`, 9.
    pub fn memory_lists() -> Choice
        ensures { result ≡ memory_lists }
    {
        let mut types = [0; 16];
        types[0] = 5;
        types[1] = 9;
        Choice::Types(TypeSet { types, count: 2 })
    }

    /// Whether entries of this `StreamType` are listed.
    pub fn has(&self, stream_type: u32) -> bool
        ensures { result ≡ is_chosen self.now stream_type }
    {
        match self {
            Choice::All => true,
            Choice::Types(set) => set.types().contains(&stream_type),
        }
    }
}
