//! What is printed of a file, or of standard input.
ghost use Rattle.std.specs.Prelude.{◌≡◌};
ghost use Rattle.mdmp_engines.specs.Faults.{fault_text};
ghost use Rattle.mdmp_tool.specs.Commands.{HasCheckedSo, HasRunThrough};
ghost use Rattle.mdmp_tool.specs.Words.{EndsFile, EndsInput, EndsPrint, EndsSource};

use crate::running::{BLOCK, print_and_report};
use crate::standard_input::{input_fault, input_most, is_input};
use crate::words::refuse_name;
use mdmp_disk::Disk;
use mdmp_engines::{CheckEngine, Engine, EntryRows, PartRows, ToolFault, report};
use mdmp_lister::Limits;
use mdmp_print::{LineForm, LineOut};
use mdmp_source::{MemoryStore, Out, Source, Store};
use std::alloc::Allocator;

/// How a file is checked.
#[derive(Clone, Copy)]
pub(crate) struct CheckWay {
    /// How the lines are printed.
    pub(crate) form: LineForm,
    /// Whether parts of records that lie outside the file are printed too, and make their entry bad.
    pub(crate) parts: bool,
}

/// Checks the file of this name.
pub(crate) fn check_file<D: Disk, A: Allocator + Copy, O: Out, W: Out>(
    disk: &mut D,
    alloc: A,
    how: CheckWay,
    limits: Limits,
    file: &str,
    out: &mut O,
    err: &mut W,
) -> u8
    ensures { EndsPrint (HasCheckedSo how.parts how.form limits) fault_text limits
        file.now (record { old = D.state disk.old; new = D.state disk.new }) (record { out = O.state out.old; err = W.state err.old }) result (record { out = O.state out.new; err = W.state err.new }) }
{
    let form = how.form;
    if how.parts {
        let rows = PartRows;
        let engine = CheckEngine { form, rows };
        return print_file(disk, alloc, engine, limits, file, out, err);
    }
    let rows = EntryRows;
    let engine = CheckEngine { form, rows };
    print_file(disk, alloc, engine, limits, file, out, err)
}

/// Prints what an engine prints of the file of this name, or of standard input.
pub(crate) fn print_file<E: Engine, D: Disk, A: Allocator + Copy, O: Out, W: Out>(
    disk: &mut D,
    alloc: A,
    engine: E,
    limits: Limits,
    file: &str,
    out: &mut O,
    err: &mut W,
) -> u8
    requires { E.can_print engine }
    ensures { EndsPrint (HasRunThrough (record { limits = limits; choice = E.choice; pace = E.pace; held = E.held engine; aside = E.aside engine; beside = E.reads engine }) E.IsReported (E.Ends engine) (E.text engine)) fault_text limits
        file.now (record { old = D.state disk.old; new = D.state disk.new }) (record { out = O.state out.old; err = W.state err.old }) result (record { out = O.state out.new; err = W.state err.new }) }
{
    if is_input(file) {
        return print_input(disk, alloc, engine, limits, out, err);
    }
    print_named(disk, alloc, engine, limits, file, out, err)
}

/// Prints what an engine prints of the file of this name.
fn print_named<E: Engine, D: Disk, A: Allocator + Copy, O: Out, W: Out>(
    disk: &mut D,
    alloc: A,
    engine: E,
    limits: Limits,
    file: &str,
    out: &mut O,
    err: &mut W,
) -> u8
    requires { E.can_print engine }
    ensures { EndsFile (HasRunThrough (record { limits = limits; choice = E.choice; pace = E.pace; held = E.held engine; aside = E.aside engine; beside = E.reads engine }) E.IsReported (E.Ends engine) (E.text engine))
        file.now (record { old = D.state disk.old; new = D.state disk.new }) (record { out = O.state out.old; err = W.state err.old }) result (record { out = O.state out.new; err = W.state err.new }) }
{
    let Ok(store) = disk.open(file) else {
        return refuse_name(b"cannot open ", file, err);
    };
    print_source(alloc, engine, Source::new(store), limits, out, err)
}

/// Prints what an engine prints of standard input.
fn print_input<E: Engine, D: Disk, A: Allocator + Copy, O: Out, W: Out>(
    disk: &mut D,
    alloc: A,
    engine: E,
    limits: Limits,
    out: &mut O,
    err: &mut W,
) -> u8
    requires { E.can_print engine }
    ensures { EndsInput (HasRunThrough (record { limits = limits; choice = E.choice; pace = E.pace; held = E.held engine; aside = E.aside engine; beside = E.reads engine }) E.IsReported (E.Ends engine) (E.text engine)) fault_text limits
        (record { old = D.state disk.old; new = D.state disk.new }) (record { out = O.state out.old; err = W.state err.old }) result (record { out = O.state out.new; err = W.state err.new }) }
{
    let most = input_most(limits);
    match disk.read_input(alloc, most) {
        Ok(bytes) => {
            let source = Source::new(MemoryStore::new(&bytes));
            print_source(alloc, engine, source, limits, out, err)
        }
        Err(why) => report::<(), W>(Err(input_fault(most, why)), err),
    }
}

/// Prints what an engine prints of a source.
fn print_source<E: Engine, S: Store + Drop, A: Allocator + Copy, O: Out, W: Out>(
    alloc: A,
    engine: E,
    source: Source<S>,
    limits: Limits,
    out: &mut O,
    err: &mut W,
) -> u8
    requires { E.can_print engine }
    ensures { EndsSource (HasRunThrough (record { limits = limits; choice = E.choice; pace = E.pace; held = E.held engine; aside = E.aside engine; beside = E.reads engine }) E.IsReported (E.Ends engine) (E.text engine))
        source (record { out = O.state out.old; err = W.state err.old }) result (record { out = O.state out.new; err = W.state err.new }) }
{
    let Ok(mut buffer) = vec![in alloc; 0; BLOCK] else {
        return report::<(), W>(Err(ToolFault::Memory), err);
    };
    let mut blocks = LineOut::over(&mut buffer, out);
    let status = print_and_report(engine, alloc, source, limits, &mut blocks, err).answer;
    // The loan comes back for the prover alone: what was printed is what `out` took.
    let _out = blocks.into_inner();
    status
}
