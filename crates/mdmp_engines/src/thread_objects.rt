//! The threads in the object of a summary.
ghost use Rattle.std.specs.Prelude.{◌≡◌, ◌∷◌, [], if◌then◌else◌};
ghost use Rattle.mdmp_source.specs.Output.{Puts};
ghost use Rattle.mdmp_summary.specs.Keeping.{kept};
ghost use Rattle.mdmp_summary_lines.specs.JsonThreads.{thread_object_text};
ghost use Rattle.mdmp_engines.specs.SummaryObject.{is_id, name_if};

use mdmp_lister::{Item, Name, Stopped, StreamKind, Walker};
use mdmp_print::Printer;
use mdmp_source::{OutFailed, Store};
use mdmp_summary::{Registers, VisitEnd, Visitor, read_registers};
use mdmp_summary_lines::print_thread_object;
use mdmp_wire::{SystemRecord, ThreadRecord};
use std::alloc::Allocator;

/// A visitor that prints the object of each thread once the registers of its context are read, and finds the index of
/// the thread of the crash.
#[derive(Drop)]
pub(crate) struct ThreadObjects<'a, O: Printer> {
    pub(crate) out: &'a mut O,
    pub(crate) system: Option<SystemRecord>,
    /// The id of the thread of the crash.
    pub(crate) crashed: Option<u32>,
    /// Its name.
    pub(crate) name: &'a Name<'a>,
    /// The thread that is not printed yet.
    pub(crate) begun: Option<ThreadRecord>,
    /// How many threads were printed. The count stops at the greatest u64.
    pub(crate) count: u64,
    /// The index of the first thread with the id of the crash.
    pub(crate) found: Option<u64>,
}

/// Whether a thread is that of the crash.
fn is_crashed(crashed: Option<u32>, thread_id: u32) -> bool
    ensures { result ≡ is_id crashed thread_id }
{
    match crashed {
        Some(id) => id == thread_id,
        None => false,
    }
}

/// The index that is kept: the first of a thread of the crash.
fn found_at(found: Option<u64>, is_crashed: bool, index: u64) -> Option<u64>
    ensures { result ≡ if is_crashed then kept found (index ∷ []) else found }
{
    match (found, is_crashed) {
        (None, true) => Some(index),
        (Some(_), _) | (None, false) => found,
    }
}

/// Prints the object of a thread, with its name if it is that of the crash.
fn print_thread<O: Printer>(
    is_first: bool,
    thread_id: u32,
    is_crashed: bool,
    name: &Name<'_>,
    registers: Option<Registers>,
    out: &mut O,
) -> Result<(), OutFailed>
    ensures { Puts result (O.state out.old) (thread_object_text is_first thread_id (name_if is_crashed name.now) registers) (O.state out.new) }
{
    if is_crashed {
        return print_thread_object(is_first, thread_id, name, registers, out);
    }
    print_thread_object(is_first, thread_id, &Name::None, registers, out)
}

impl<'a, O: Printer> Visitor for ThreadObjects<'a, O> {
    ghost use Rattle.std.specs.Prelude.{◌≡◌};
    ghost use Rattle.mdmp_lister.specs.Format.Name.{plain_name};
    ghost use Rattle.mdmp_engines.specs.ObjectVisits.{LooksThread, TakesThread, thread_cost, thread_room};

    ghost taken = { λ old x result new. (new.out.ghost_name ≡ old.out.ghost_name) × TakesThread
        (record { out = O.state old.out.now; crashed = record { system = old.system; id = old.crashed; name = plain_name old.name.now }; begun = old.begun; count = old.count; found = old.found }) x result
        (record { out = O.state new.out.now; crashed = record { system = new.system; id = new.crashed; name = plain_name new.name.now }; begun = new.begun; count = new.count; found = new.found }) };

    ghost looked = { λ content limit old result new. (new.out.ghost_name ≡ old.out.ghost_name) × LooksThread content
        (record { out = O.state old.out.now; crashed = record { system = old.system; id = old.crashed; name = plain_name old.name.now }; begun = old.begun; count = old.count; found = old.found }) result
        (record { out = O.state new.out.now; crashed = record { system = new.system; id = new.crashed; name = plain_name new.name.now }; begun = new.begun; count = new.count; found = new.found }) };

    ghost owed = { λ k. thread_cost k.begun };

    ghost span = { λ _. 0 };

    ghost room = { thread_room };

    fn wants(&self, kind: StreamKind) -> bool {
        match self.begun {
            // Any item ends it. A pass asks where none is begun.
            Some(_) => true,
            None => matches!(kind, StreamKind::Threads),
        }
    }

    fn take(&mut self, item: &Item<'_>) -> Result<(), Stopped> {
        match item {
            Item::Thread(thread) => self.begun = Some(thread.fields),
            _ => self.begun = None,
        }
        Ok(())
    }

    fn look<S: Store + Drop, A: Allocator + Copy>(
        &mut self,
        walker: &mut Walker<S, A>,
    ) -> Result<(), VisitEnd> {
        let Some(fields) = self.begun else {
            return Ok(());
        };
        self.begun = None;
        let registers = match read_registers(walker, self.system, fields.thread_context) {
            Ok(registers) => registers,
            Err(fault) => return Err(VisitEnd::Source(fault)),
        };
        let index = self.count;
        let is_crashed = is_crashed(self.crashed, fields.thread_id);
        self.found = found_at(self.found, is_crashed, index);
        self.count = index.saturating_add(1);
        match print_thread(
            index == 0,
            fields.thread_id,
            is_crashed,
            self.name,
            registers,
            self.out,
        ) {
            Ok(()) => Ok(()),
            Err(OutFailed) => Err(VisitEnd::Stopped),
        }
    }
}
