//! The passes that print the modules and the threads of the object of `summary --json`.
ghost use Rattle.std.specs.Prelude.{◌≡◌, ℕ, List, Some, IfOk, false, true, length};
ghost use Rattle.mdmp_lister.specs.Format.Name.{plain_name};
ghost use Rattle.mdmp_lister.specs.Walker.{is_failed};
ghost use Rattle.mdmp_lister.specs.declared.choice.Choice.TheVariants.{All};
ghost use Rattle.mdmp_summary.specs.BadEntries.{all_items};
ghost use Rattle.mdmp_engines.specs.Causes.{HasOutCause};
ghost use Rattle.mdmp_engines.specs.ObjectRuns.{LeavesPasses, PrintsWhileRead, ReadsItems, ShowsAll, visit_told};
ghost use Rattle.mdmp_engines.specs.ObjectVisits.{module_room, thread_room};
ghost use Rattle.mdmp_engines.specs.SummaryObject.{crashed_id, found_among, modules_text, threads_and_end, threads_text};

use crate::fault::{ToolFault, told_list};
use crate::module_objects::ModuleObjects;
use crate::thread_objects::ThreadObjects;
use mdmp_lister::{Name, Walker};
use mdmp_print::Printer;
use mdmp_source::{OutFailed, Store};
use mdmp_summary::{Crash, FileSummary, VisitEnd, VisitFault, Visitor, visit_all};
use mdmp_summary_lines::print_summary_end;
use std::alloc::Allocator;

/// Prints the objects of all modules. The name of a symbol file is read into the buffer.
pub(crate) fn print_modules<S: Store + Drop, A: Allocator + Copy, O: Printer>(
    walker: &mut Walker<S, A>,
    buffer: &mut Vec<u8, A>,
    out: &mut O,
) -> Result<(), ToolFault>
    requires all { walker.old.list.choice ≡ All }
    requires going { is_failed walker.old.list.stop ≡ false }
    ensures prints { (file : List ℕ) → walker.old.list.source.store.content ≡ Some file
        → PrintsWhileRead (modules_text file (length buffer.old.items) true (all_items file walker.old.list.limit)) (O.state out.old) result (O.state out.new) }
    ensures leaves { LeavesPasses 1 walker.old result walker.new }
    ensures out_cause { HasOutCause (O.state out.old) result (O.state out.new) }
    ensures reads { ReadsItems (module_room (length buffer.old.items)) walker.old.list.limit walker.old.list.source.store.content result walker.old.list.counts.aside walker.new.list.counts.aside }
{
    let mut objects = ModuleObjects {
        out,
        buffer,
        begun: None,
        is_first: true,
    };
    show_modules(walker, &mut objects)
}

/// Shows all items to a visitor that prints modules.
#[inline(never)]
fn show_modules<S: Store + Drop, A: Allocator + Copy, O: Printer>(
    walker: &mut Walker<S, A>,
    objects: &mut ModuleObjects<'_, O, A>,
) -> Result<(), ToolFault>
    requires all { walker.old.list.choice ≡ All }
    requires going { is_failed walker.old.list.stop ≡ false }
    ensures same_output { objects.new.out.ghost_name ≡ objects.old.out.ghost_name }
    ensures prints { (file : List ℕ) → walker.old.list.source.store.content ≡ Some file
        → PrintsWhileRead (modules_text file (length objects.old.buffer.now.items) objects.old.is_first (all_items file walker.old.list.limit)) (O.state objects.old.out.now) result (O.state objects.new.out.now) }
    ensures leaves { LeavesPasses 1 walker.old result walker.new }
    ensures out_cause { HasOutCause (O.state objects.old.out.now) result (O.state objects.new.out.now) }
    ensures reads { ReadsItems (module_room (length objects.old.buffer.now.items)) walker.old.list.limit walker.old.list.source.store.content result walker.old.list.counts.aside walker.new.list.counts.aside }
{
    show_all(walker, objects)
}

/// Prints the objects of all threads, and the end of the object.
pub(crate) fn print_threads<S: Store + Drop, A: Allocator + Copy, O: Printer>(
    walker: &mut Walker<S, A>,
    summary: &FileSummary,
    thread: &Name<'_>,
    out: &mut O,
) -> Result<(), ToolFault>
    requires all { walker.old.list.choice ≡ All }
    requires going { is_failed walker.old.list.stop ≡ false }
    ensures prints { (file : List ℕ) → walker.old.list.source.store.content ≡ Some file
        → PrintsWhileRead (threads_and_end file summary.now (plain_name thread.now) (all_items file walker.old.list.limit)) (O.state out.old) result (O.state out.new) }
    ensures leaves { LeavesPasses 1 walker.old result walker.new }
    ensures out_cause { HasOutCause (O.state out.old) result (O.state out.new) }
    ensures reads { ReadsItems (thread_room 0) walker.old.list.limit walker.old.list.source.store.content result walker.old.list.counts.aside walker.new.list.counts.aside }
{
    let mut objects = ThreadObjects {
        out,
        system: summary.system,
        crashed: crashed_thread(&summary.crash),
        name: thread,
        begun: None,
        count: 0,
        found: None,
    };
    show_threads(walker, &mut objects)?;
    let found = objects.found;
    match print_summary_end(&summary.crash, &summary.system, found, out) {
        Ok(()) => Ok(()),
        Err(OutFailed) => Err(ToolFault::Out),
    }
}

/// Shows all items to a visitor that prints threads.
#[inline(never)]
fn show_threads<S: Store + Drop, A: Allocator + Copy, O: Printer>(
    walker: &mut Walker<S, A>,
    objects: &mut ThreadObjects<'_, O>,
) -> Result<(), ToolFault>
    requires all { walker.old.list.choice ≡ All }
    requires going { is_failed walker.old.list.stop ≡ false }
    ensures same_output { objects.new.out.ghost_name ≡ objects.old.out.ghost_name }
    ensures prints { (file : List ℕ) → walker.old.list.source.store.content ≡ Some file
        → PrintsWhileRead (threads_text file (record { system = objects.old.system; id = objects.old.crashed; name = plain_name objects.old.name.now }) objects.old.count (all_items file walker.old.list.limit))
        (O.state objects.old.out.now) result (O.state objects.new.out.now) }
    ensures found { (file : List ℕ) → walker.old.list.source.store.content ≡ Some file
        → IfOk result (λ _. objects.new.found ≡ found_among objects.old.crashed objects.old.count objects.old.found (all_items file walker.old.list.limit)) }
    ensures leaves { LeavesPasses 1 walker.old result walker.new }
    ensures out_cause { HasOutCause (O.state objects.old.out.now) result (O.state objects.new.out.now) }
    ensures reads { ReadsItems (thread_room 0) walker.old.list.limit walker.old.list.source.store.content result walker.old.list.counts.aside walker.new.list.counts.aside }
{
    show_all(walker, objects)
}

/// Shows all items to a visitor.
fn show_all<S: Store + Drop, A: Allocator + Copy, V: Visitor>(
    walker: &mut Walker<S, A>,
    visitor: &mut V,
) -> Result<(), ToolFault>
    requires all { walker.old.list.choice ≡ All }
    requires going { is_failed walker.old.list.stop ≡ false }
    ensures shows { ShowsAll V.taken V.looked (V.room (V.span visitor.old)) walker.old.list visitor.old result walker.new.list visitor.new }
    ensures leaves { LeavesPasses 1 walker.old result walker.new }
{
    match visit_all(walker, visitor) {
        Ok(_) => Ok(()),
        Err(fault) => Err(told_visit(fault)),
    }
}

/// The id of the thread of a crash.
fn crashed_thread(crash: &Option<Crash>) -> Option<u32>
    ensures { result ≡ crashed_id crash.now }
{
    match crash {
        Some(crash) => Some(crash.exception.fields.thread_id),
        None => None,
    }
}

/// The error of a pass, as a command tells it.
fn told_visit(fault: VisitFault) -> ToolFault
    ensures { result ≡ visit_told fault }
{
    match fault {
        VisitFault::List(fault) => told_list(fault),
        VisitFault::Ended(VisitEnd::Stopped) => ToolFault::Out,
        VisitFault::Ended(VisitEnd::Source(fault)) => ToolFault::Source(fault),
    }
}
