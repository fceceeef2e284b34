//! The calls that an opening makes of its allocator.
//!
//! No contract of std says when an allocator refuses memory, or how much it was asked for. The trait here has a relation for
//! that. An opening over the trait is proved whatever the relation is: so it tells want of memory only if the allocator
//! refused what the opening asked for, and asks only for what its limits allow. Each allocator of std has the trait.
ghost use Rattle.std.specs.Prelude.{◌≡◌, [], IfOk, OnErr, vec_capacity};
ghost use Rattle.mdmp_lister.specs.Calls.{AskedRoom, IsAllowed};

use crate::limits::Limits;
use crate::name_buffer::NameBuffer;
use mdmp_map::AddressMap;
use mdmp_source::Window;
use mdmp_wire::Entry;
use std::alloc::{AllocError, Allocator};

/// The lists of a walk, which hold nothing yet.
#[derive(Drop)]
pub(crate) struct WalkLists<A: Allocator> {
    pub(crate) entries: Vec<Entry, A>,
    pub(crate) window: Window<A>,
    pub(crate) name: NameBuffer<A>,
}

/// An allocator, of which each taking of memory for an opening is told apart.
pub(crate) trait AskedAllocator: Allocator + Copy {
    ghost use Rattle.mdmp_lister.specs.Calls.{AskedRoom};
    ghost use Rattle.mdmp_lister.specs.declared.limits.Limits.{Limits};

    /// Whether it may have no memory for what is asked for within these limits.
    ghost may_lack: { Self → Limits → AskedRoom → Type 0 };

    /// Takes the memory of a walk: for that many entries, a window and a name, and no more.
    fn ask_lists(self, limits: Limits, entries: u32) -> Result<WalkLists<Self>, AllocError>
        requires { IsAllowed limits (AskedRoom.ForWalk entries) }
        ensures entries { IfOk result (λ lists. (lists.entries.items ≡ []) × (vec_capacity lists.entries ≡ entries)) }
        ensures window { IfOk result (λ lists. lists.window ≡ record { place = 0; end = 0; room = limits.window; touched = 0; held = [] }) }
        ensures name { IfOk result (λ lists. lists.name ≡ record { items = []; limit = limits.name }) }
        ensures err { OnErr result (may_lack self limits (AskedRoom.ForWalk entries)) };

    /// Takes the memory of a map for that many ranges, and no more, beside the lists of a walk.
    fn ask_map(
        self,
        limits: Limits,
        entries: u32,
        ranges: u64,
    ) -> Result<AddressMap<Self>, AllocError>
        requires { IsAllowed limits (AskedRoom.ForMap entries ranges) }
        ensures taken { IfOk result (λ map. map ≡ record { ranges = []; room = ranges }) }
        ensures err { OnErr result (may_lack self limits (AskedRoom.ForMap entries ranges)) };
}

impl<A: Allocator + Copy> AskedAllocator for A {
    ghost may_lack = { λ _ _ _. Unit {0} };

    fn ask_lists(self, limits: Limits, entries: u32) -> Result<WalkLists<A>, AllocError> {
        Ok(WalkLists {
            entries: Vec::with_capacity(self, entries as usize)?,
            window: Window::with_room(self, limits.window as usize)?,
            name: NameBuffer::with_limit(self, limits.name as usize)?,
        })
    }

    fn ask_map(
        self,
        limits: Limits,
        entries: u32,
        ranges: u64,
    ) -> Result<AddressMap<A>, AllocError> {
        AddressMap::with_room(self, ranges as usize)
    }
}
