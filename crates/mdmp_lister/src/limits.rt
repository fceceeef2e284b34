//! How long a lister's window and a name may be, and how much it may hold, fetch and read aside. The
//! directory takes 12 bytes for each entry on top, and the map 24 for each range.
ghost use Rattle.std.specs.Prelude.{◌≤◌};
ghost use Rattle.mdmp_lister.specs.Format.Kind.{greatest_record};
ghost use Rattle.mdmp_lister.specs.Limits.{most_bytes};

use mdmp_wire::{ExceptionRecord, Record};

/// How many bytes a lister holds for the file's records, and for a name, and how many it may fetch.
#[derive(Clone, Copy, Debug, PartialEq, Eq)]
pub struct Limits {
    /// The window through which the file is read, in bytes.
    pub window: u32,
    /// The longest name that is read, in bytes.
    pub name: u32,
    /// The most bytes that are fetched for the listing, where there is a most. What is fetched aside from
    /// it does not count.
    pub budget: Option<u64>,
    /// The most bytes that the lists of a lister may take together, if there is such a limit: its window,
    /// its directory, its map and a name.
    pub memory: Option<u64>,
    /// The most bytes of CodeView records that `list --pdb` may read, if there is such a limit.
    pub aside: Option<u64>,
    ghost window_least: { greatest_record ≤ window },
    ghost window_most: { window ≤ most_bytes },
    ghost name_most: { name ≤ most_bytes },
}

impl Limits {
    ghost use Rattle.std.specs.Prelude.{◌≡◌, ◌≤◌, ◌↔◌, IsSome, IfSome, None, Some};
    ghost use Rattle.mdmp_lister.specs.Format.Bounds.{held_bound};
    ghost use Rattle.mdmp_lister.specs.Memory.{is_within, leaving};

    /// The least window, in bytes: the greatest record, an exception, has 168.
    pub const LEAST_WINDOW: u32 = ExceptionRecord::SIZE as u32;

    /// The most bytes of a window, and of a name: 2^30.
    pub const MOST_BYTES: u32 = 1 << 30;

    /// Limits of a window of 168 to 2^30 bytes and a name of at most 2^30; none for other numbers. They
    /// have no other limit.
    pub fn new(window: u32, name: u32) -> Option<Self>
        ensures valid { IsSome result ↔ ((greatest_record ≤ window) × (window ≤ most_bytes) × (name ≤ most_bytes)) }
        ensures value { IfSome result (λ limits. (limits.window ≡ window) × (limits.name ≡ name) × (limits.budget ≡ None)) }
        ensures unlimited { IfSome result (λ limits. (limits.memory ≡ None) × (limits.aside ≡ None)) }
    {
        if window < Self::LEAST_WINDOW || window > Self::MOST_BYTES || name > Self::MOST_BYTES {
            return None;
        }
        Some(Limits {
            window,
            name,
            budget: None,
            memory: None,
            aside: None,
        })
    }

    /// The same, with a budget: no more bytes than these are fetched for a listing.
    pub fn with_budget(window: u32, name: u32, budget: u64) -> Option<Self>
        ensures valid { IsSome result ↔ ((greatest_record ≤ window) × (window ≤ most_bytes) × (name ≤ most_bytes)) }
        ensures value { IfSome result (λ limits. (limits.window ≡ window) × (limits.name ≡ name) × (limits.budget ≡ Some budget)) }
        ensures unlimited { IfSome result (λ limits. (limits.memory ≡ None) × (limits.aside ≡ None)) }
    {
        let limits = Self::new(window, name)?;
        Some(Limits {
            window: limits.window,
            name: limits.name,
            budget: Some(budget),
            memory: None,
            aside: None,
        })
    }

    /// The same limits, and at most so many bytes of memory for the lists of a lister.
    pub fn limit_memory(self, most: u64) -> Self
        ensures { result ≡ record self { memory = Some most } }
    {
        Limits {
            window: self.window,
            name: self.name,
            budget: self.budget,
            memory: Some(most),
            aside: self.aside,
        }
    }

    /// The same limits for a lister of a caller who holds so many bytes beside it: that much less memory is left.
    pub fn leave_memory(self, held: u64) -> Self
        ensures { result ≡ leaving held self }
    {
        Limits {
            window: self.window,
            name: self.name,
            budget: self.budget,
            memory: match self.memory {
                None => None,
                Some(most) => Some(most.saturating_sub(held)),
            },
            aside: self.aside,
        }
    }

    /// The same limits, and at most so many bytes of CodeView records for `list --pdb`.
    pub fn limit_aside(self, most: u64) -> Self
        ensures { result ≡ record self { aside = Some most } }
    {
        Limits {
            window: self.window,
            name: self.name,
            budget: self.budget,
            memory: self.memory,
            aside: Some(most),
        }
    }

    /// How many bytes the lists of a lister take, of a file with so many entries and ranges of memory.
    pub(crate) fn held(&self, entries: u32, ranges: u64) -> u128
        ensures { result ≡ held_bound self.now.window self.now.name entries ranges }
    {
        u128::from(self.window)
            + 12 * u128::from(entries)
            + 24 * u128::from(ranges)
            + u128::from(self.name)
    }

    /// Whether so many bytes of memory are within the limit.
    pub(crate) fn holds(&self, bytes: u128) -> bool
        ensures { result ≡ is_within self.now.memory bytes }
    {
        match self.memory {
            None => true,
            Some(most) => bytes <= u128::from(most),
        }
    }
}

impl Default for Limits {
    ghost use Rattle.std.specs.Prelude.{◌≡◌, None};

    ghost is_default = { λ limits. (limits.window ≡ 65536) × (limits.name ≡ 4096) × (limits.budget ≡ None) × (limits.memory ≡ None) × (limits.aside ≡ None) };

    /// A window of 65536 bytes, names of at most 4096, and no other limit.
    fn default() -> Self {
        Limits {
            window: 65536,
            name: 4096,
            budget: None,
            memory: None,
            aside: None,
        }
    }
}
