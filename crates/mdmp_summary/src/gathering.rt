//! What the first pass gathers from all items.
ghost use Rattle.std.specs.Prelude.{◌≡◌};
ghost use Rattle.mdmp_summary.specs.Gathering.{inside_bytes};

use crate::crash::Exceptions;
use crate::keeping::{count, keep};
use crate::lost_parts::LostParts;
use crate::part::PartsOutside;
use crate::visiting::{VisitEnd, Visitor};
use mdmp_lister::{
    ExceptionItem, Item, ModuleItem, RangeItem, Stopped, StreamKind, ThreadItem, Walker,
};
use mdmp_source::{Extent, Store};
use mdmp_wire::{ModuleRecord, SystemRecord};
use std::alloc::Allocator;

/// How many items of each kind the entries have, each entry up to its own error.
#[derive(Clone, Copy, Debug, PartialEq, Eq)]
pub struct ItemCounts {
    /// Entries of the directory.
    pub streams: u128,
    pub threads: u128,
    pub modules: u128,
    pub exceptions: u128,
    /// Ranges of memory, of both kinds of memory list.
    pub ranges: u128,
    /// The bytes of the ranges that lie inside the file.
    pub memory: u128,
}

/// What was gathered so far: of each kind the first item that counts, and numbers.
#[derive(Clone, Copy)]
pub(crate) struct Gathering {
    pub(crate) system: Option<SystemRecord>,
    pub(crate) program: Option<ModuleRecord>,
    pub(crate) exceptions: Exceptions,
    pub(crate) counts: ItemCounts,
    pub(crate) outside: PartsOutside,
}

impl Gathering {
    ghost use Rattle.mdmp_lister.specs.declared.item.Item.TheVariants.{Exception, Module, Range, Thread};
    ghost use Rattle.mdmp_summary.specs.Gathering.{gathered_with, nothing_gathered};

    /// Before the first item.
    pub(crate) fn new() -> Self
        ensures { result ≡ nothing_gathered }
    {
        Gathering {
            system: None,
            program: None,
            exceptions: Exceptions::none(),
            counts: ItemCounts {
                streams: 0,
                threads: 0,
                modules: 0,
                exceptions: 0,
                ranges: 0,
                memory: 0,
            },
            outside: PartsOutside::none(),
        }
    }

    fn take_thread(&mut self, x: &ThreadItem)
        ensures { self.new ≡ gathered_with self.old (Thread x.now) }
    {
        count(&mut self.counts.threads, 1);
        self.outside.take(LostParts::of_thread(x));
    }

    fn take_module(&mut self, x: &ModuleItem<'_>)
        ensures { self.new ≡ gathered_with self.old (Module x.now) }
    {
        count(&mut self.counts.modules, 1);
        keep(&mut self.program, x.fields);
        self.outside.take(LostParts::of_module(x));
    }

    fn take_exception(&mut self, x: &ExceptionItem)
        ensures { self.new ≡ gathered_with self.old (Exception x.now) }
    {
        count(&mut self.counts.exceptions, 1);
        self.exceptions.take(x);
        self.outside.take(LostParts::of_exception(x));
    }

    fn take_range(&mut self, x: &RangeItem)
        ensures { self.new ≡ gathered_with self.old (Range x.now) }
    {
        count(&mut self.counts.ranges, 1);
        count(&mut self.counts.memory, inside_bytes(x));
        self.outside.take(LostParts::of_range(x));
    }

    /// Takes the next item.
    fn gather(&mut self, item: &Item<'_>)
        ensures { self.new ≡ gathered_with self.old item.now }
    {
        match item {
            Item::Stream(_) => count(&mut self.counts.streams, 1),
            Item::Thread(x) => self.take_thread(x),
            Item::Module(x) => self.take_module(x),
            Item::Exception(x) => self.take_exception(x),
            Item::System(x) => keep(&mut self.system, x.fields),
            Item::Range(x) => self.take_range(x),
            Item::Unloaded(_) | Item::MemoryInfo(_) | Item::ThreadName(_) => {}
        }
    }
}

/// How many bytes of a range lie inside the file: all or none.
fn inside_bytes(range: &RangeItem) -> u128
    ensures { result ≡ inside_bytes range.now.extent range.now.size }
{
    match range.extent {
        Extent::Inside => u128::from(range.size),
        Extent::Empty | Extent::Absent | Extent::Outside => 0,
    }
}

impl Visitor for Gathering {
    ghost use Rattle.std.specs.Prelude.{◌≡◌};
    ghost use Rattle.mdmp_summary.specs.Gathering.{gathered_with};
    ghost use Rattle.mdmp_summary.specs.Visiting.{ReadsNothing, TakesBy, nothing_read};

    ghost taken = { TakesBy gathered_with };

    ghost looked = { ReadsNothing };

    ghost owed = { λ _. nothing_read };

    ghost span = { λ _. 0 };

    ghost room = { λ span item. nothing_read };

    #[tactic(auto, using(crate::proofs::Unused::gathers_nothing))]
    fn wants(&self, kind: StreamKind) -> bool {
        !matches!(
            kind,
            StreamKind::Unloaded | StreamKind::MemoryInfo | StreamKind::ThreadNames
        )
    }

    #[tactic(auto, using(crate::proofs::Folds::gathered_plain))]
    fn take(&mut self, item: &Item<'_>) -> Result<(), Stopped> {
        self.gather(item);
        Ok(())
    }

    #[tactic(auto, using(crate::proofs::Visited::reads_nothing))]
    fn look<S: Store + Drop, A: Allocator + Copy>(
        &mut self,
        _walker: &mut Walker<S, A>,
    ) -> Result<(), VisitEnd> {
        Ok(())
    }
}
