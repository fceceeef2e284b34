//! What is searched among all items: the modules at an address, and the name of a thread.
ghost use Rattle.std.specs.Prelude.{◌≡◌, Some};
ghost use Rattle.mdmp_summary.specs.Search.{higher, holds_address};

use crate::keeping::keep;
use crate::visiting::{VisitEnd, Visitor};
use mdmp_lister::{Item, Stopped, StreamKind, Walker};
use mdmp_source::Store;
use mdmp_wire::{ModuleRecord, ThreadNameRecord};
use std::alloc::Allocator;

/// What is searched, and what was found so far.
#[derive(Clone, Copy)]
pub(crate) struct CrashSearch {
    /// An address of the dumped process.
    pub(crate) address: u64,
    /// The id of a thread.
    pub(crate) thread: u32,
    /// The first module that holds the address.
    pub(crate) holder: Option<ModuleRecord>,
    /// The module with the greatest base at or below the address.
    pub(crate) nearest: Option<ModuleRecord>,
    /// The first name of the thread.
    pub(crate) name: Option<ThreadNameRecord>,
}

/// Whether a module holds an address.
fn holds_address(fields: &ModuleRecord, address: u64) -> bool
    ensures { result ≡ holds_address address fields.now }
{
    let end = u128::from(fields.base_of_image) + u128::from(fields.size_of_image);
    fields.base_of_image <= address && u128::from(address) < end
}

/// Keeps a module, unless the one that was kept before it has the same base or a greater one.
fn keep_higher(place: &mut Option<ModuleRecord>, fields: &ModuleRecord)
    ensures { place.new ≡ higher place.old (Some fields.now) }
{
    match place {
        Some(kept) => {
            if kept.base_of_image < fields.base_of_image {
                *place = Some(*fields);
            }
        }
        None => *place = Some(*fields),
    }
}

impl CrashSearch {
    ghost use Rattle.mdmp_summary.specs.Search.{found, module_found, name_found, nothing_found};

    /// Before the first item.
    pub(crate) fn new(address: u64, thread: u32) -> Self
        ensures { result ≡ nothing_found address thread }
    {
        CrashSearch {
            address,
            thread,
            holder: None,
            nearest: None,
            name: None,
        }
    }

    fn take_module(&mut self, fields: &ModuleRecord)
        ensures { self.new ≡ module_found self.old fields.now }
    {
        if fields.base_of_image <= self.address {
            keep_higher(&mut self.nearest, fields);
        }
        if holds_address(fields, self.address) {
            keep(&mut self.holder, *fields);
        }
    }

    fn take_name(&mut self, fields: &ThreadNameRecord)
        ensures { self.new ≡ name_found self.old fields.now }
    {
        if fields.thread_id == self.thread {
            keep(&mut self.name, *fields);
        }
    }

    /// Takes the next item.
    fn search(&mut self, item: &Item<'_>)
        ensures { self.new ≡ found self.old item.now }
    {
        match item {
            Item::Module(x) => self.take_module(&x.fields),
            Item::ThreadName(x) => self.take_name(&x.fields),
            Item::Stream(_)
            | Item::Thread(_)
            | Item::Exception(_)
            | Item::System(_)
            | Item::Range(_)
            | Item::Unloaded(_)
            | Item::MemoryInfo(_) => {}
        }
    }
}

impl Visitor for CrashSearch {
    ghost use Rattle.std.specs.Prelude.{◌≡◌};
    ghost use Rattle.mdmp_summary.specs.Search.{found};
    ghost use Rattle.mdmp_summary.specs.Visiting.{ReadsNothing, TakesBy, nothing_read};

    ghost taken = { TakesBy found };

    ghost looked = { ReadsNothing };

    ghost owed = { λ _. nothing_read };

    ghost span = { λ _. 0 };

    ghost room = { λ span item. nothing_read };

    #[tactic(auto, using(crate::proofs::Unused::finds_nothing))]
    fn wants(&self, kind: StreamKind) -> bool {
        matches!(kind, StreamKind::Modules | StreamKind::ThreadNames)
    }

    #[tactic(auto, using(crate::proofs::Folds::found_plain))]
    fn take(&mut self, item: &Item<'_>) -> Result<(), Stopped> {
        self.search(item);
        Ok(())
    }

    #[tactic(auto, using(crate::proofs::Visited::reads_nothing))]
    fn look<S: Store + Drop, A: Allocator + Copy>(
        &mut self,
        _walker: &mut Walker<S, A>,
    ) -> Result<(), VisitEnd> {
        Ok(())
    }
}
