//! The command `list`.
ghost use Rattle.std.specs.Prelude.{◌≡◌, ◌+◌, ℕ, List, MatchOption, None, Some, Ok, false, true, IfErr, IfSome};
ghost use Rattle.mdmp_source.specs.Range.{IsInside};
ghost use Rattle.mdmp_lister.specs.Format.Listing.{Run};
ghost use Rattle.mdmp_lister.specs.Memory.{is_within};
ghost use Rattle.mdmp_lister.specs.Requested.{OnlyReadsAside};
ghost use Rattle.mdmp_engines.specs.Causes.{EndsByBudget, IsWithinBudget, KeepsAside, MayReachLimits, symbols_cost};
ghost use Rattle.mdmp_engines.specs.Dropping.{DropsStore};
ghost use Rattle.mdmp_engines.specs.Engines.{Leaves, ReadsSource, Tells, directly, up_to_a_fault};
ghost use Rattle.mdmp_engines.specs.ReadThrough.{IsSameRun, IsReadThrough, WhereToldToFault, list_access};
ghost use Rattle.mdmp_engines.specs.Runs.{IsBehindNext, LeavesLines, Lists, ListsFile, ListsNext, ListsRun, NamesNext, PutsSymbols, ReadsRequested, ReadsSymbols};
ghost use Rattle.mdmp_engines.specs.Symbols.{symbols_of};
ghost use Rattle.mdmp_engines.specs.Text.{symbols_text};

use crate::engine::{Engine, run, run_source};
use crate::fault::{ToolFault, told_list};
use crate::outcome::Outcome;
use crate::reporting::report;
use mdmp_lister::{Choice, Item, Limits, Lister};
use mdmp_print::{LineForm, ModulePlace, Printer, print_dump, print_item, print_symbols};
use mdmp_source::{Extent, LetGo, Location, Out, OutFailed, Source, Store};
use std::alloc::Allocator;

/// Prints what a file holds: a line for its header, and one for each item of its listing, up to the
/// first fault, each in this form. With `pdb` what the CodeView record of a module tells is one more line behind the
/// module's, where that record lies inside the file; of its name at most as many bytes are read and
/// printed as the limit on names.
///
/// Where the file is refused nothing is written. After a fault of the store or the output, or where the
/// budget of the limits is reached, the first part of the text went out. Memory is taken before the first
/// byte of output.
pub fn run_list<S: Store + Drop, A: Allocator + Copy, O: Out>(
    alloc: A,
    store: S,
    limits: Limits,
    form: LineForm,
    pdb: bool,
    out: &mut O,
) -> Result<(), ToolFault>
where
    Source<S>: LetGo,
    ensures lists { (file : List ℕ) → (S.state store).content ≡ Some file → Lists form pdb file limits.name (O.state out.old) result (O.state out.new) }
    ensures tells { Tells directly up_to_a_fault (S.state store) (S.state store).size (O.state out.old) result (O.state out.new) }
    ensures limits { MayReachLimits limits.aside limits (S.state store).size result }
    ensures read { DropsStore ⟦<Source<S> as LetGo>⟧.may_go (list_access pdb limits) (S.state store) result }
{
    let aside = limits.aside;
    run(ListEngine { form, pdb, aside }, alloc, store, limits, out)
}

/// Does what `run_list` does, and hands the source back, whose counts tell the cause of its faults.
pub fn list_source<S: Store + Drop, A: Allocator + Copy, O: Printer>(
    alloc: A,
    source: Source<S>,
    limits: Limits,
    form: LineForm,
    pdb: bool,
    out: &mut O,
) -> Outcome<Result<(), ToolFault>, S>
    ensures lists { (file : List ℕ) → source.store.content ≡ Some file → Lists form pdb file limits.name (O.state out.old) result.answer (O.state out.new) }
    ensures tells { Tells directly up_to_a_fault source.store source.size (O.state out.old) result.answer (O.state out.new) }
    ensures reads { ReadsSource source result.answer result.source }
    ensures through { IsReadThrough (list_access pdb limits) source result.answer result.source }
{
    let aside = limits.aside;
    run_source(ListEngine { form, pdb, aside }, alloc, source, limits, out)
}

/// The engine of `list`, which prints each item as it is read.
#[derive(Clone, Copy)]
pub struct ListEngine {
    /// How the lines are printed.
    pub form: LineForm,
    /// Whether CodeView records are told.
    pub pdb: bool,
    /// The most bytes of them that may be read, if there is such a limit.
    pub aside: Option<u64>,
}

impl Engine for ListEngine {
    ghost use Rattle.std.specs.Prelude.{◌++◌};
    ghost use Rattle.mdmp_wire.specs.Header.{header_at};
    ghost use Rattle.mdmp_lister.specs.declared.choice.Choice.TheVariants.{All};
    ghost use Rattle.mdmp_lister.specs.Format.Listing.{listing};
    ghost use Rattle.mdmp_engines.specs.Engines.{up_to_a_fault};
    ghost use Rattle.mdmp_engines.specs.ReadThrough.{list_beside};
    ghost use Rattle.mdmp_print.specs.Forms.{dump_line_in};
    ghost use Rattle.mdmp_engines.specs.Reports.{IsEnd};
    ghost use Rattle.mdmp_engines.specs.Runs.{ListEnds};
    ghost use Rattle.mdmp_engines.specs.Text.{run_text};

    type Answer = ();

    ghost choice = { All };

    ghost pace = { up_to_a_fault };

    ghost can_print = { λ _. Unit {0} };

    ghost aside = { λ e. e.aside };

    ghost held = { λ _. 0 };

    ghost reads = { λ e. list_beside e.pdb };

    ghost Ends = { λ e file limit. ListEnds e.pdb limit (listing file All limit) };

    ghost text = { λ e file limit. dump_line_in e.form (header_at file 0) ++ run_text e.form e.pdb file limit (listing file All limit) };

    ghost IsReported = { IsEnd };

    fn chosen(&self) -> Choice {
        Choice::All
    }

    fn beside(&self) -> u64 {
        0
    }

    fn print<S: Store + Drop, A: Allocator + Copy, O: Printer>(
        &self,
        lister: &mut Lister<S, A>,
        out: &mut O,
    ) -> Result<(), ToolFault> {
        print_listing(lister, self.form, self.pdb, self.aside, out)
    }

    fn report<W: Out>(answer: Result<(), ToolFault>, err: &mut W) -> u8
        ensures { IsEnd answer result (W.state err.old) (W.state err.new) }
    {
        report(answer, err)
    }
}

/// Prints the line of the header, and those of the items that are left.
fn print_listing<S: Store + Drop, A: Allocator + Copy, O: Printer>(
    lister: &mut Lister<S, A>,
    form: LineForm,
    pdb: bool,
    aside: Option<u64>,
    out: &mut O,
) -> Result<(), ToolFault>
    requires going { lister.old.stop ≡ None }
    requires kept { is_within aside lister.old.counts.aside.bytes ≡ true }
    ensures lists { (file : List ℕ) → lister.old.source.store.content ≡ Some file → (left : Run) → lister.old.left ≡ Some left
        → ListsFile form pdb file lister.old.limit lister.old.header left (O.state out.old) result (O.state out.new) }
    ensures leaves { Leaves up_to_a_fault (O.state out.new ≡ O.state out.old) lister.old.source (O.state out.old) result lister.new.source (O.state out.new) }
    ensures lines { LeavesLines pdb aside lister.old result lister.new }
{
    if let Err(OutFailed) = print_dump(form, &lister.header(), out) {
        return Err(ToolFault::Out);
    }
    list_items(lister, form, pdb, aside, out)
}

/// Prints the lines of the items that are left.
fn list_items<S: Store + Drop, A: Allocator + Copy, O: Printer>(
    lister: &mut Lister<S, A>,
    form: LineForm,
    pdb: bool,
    aside: Option<u64>,
    out: &mut O,
) -> Result<(), ToolFault>
    requires going { lister.old.stop ≡ None }
    requires kept { is_within aside lister.old.counts.aside.bytes ≡ true }
    ensures lists { (file : List ℕ) → lister.old.source.store.content ≡ Some file → (left : Run) → lister.old.left ≡ Some left
        → ListsRun form pdb file lister.old.limit left (O.state out.old) result (O.state out.new) }
    ensures leaves { Leaves up_to_a_fault ⊥ lister.old.source (O.state out.old) result lister.new.source (O.state out.new) }
    ensures lines { LeavesLines pdb aside lister.old result lister.new }
{
    while list_next(lister, form, pdb, aside, out)? {}
    Ok(())
}

/// Prints the lines of the next item that is left, and tells whether there was one. Behind the line of a
/// module stands with `pdb` that of its CodeView record.
///
/// A fault of the listing or of the budget ends it with nothing printed, one of the store or the output may
/// stand behind a first part of the lines.
#[inline(always)]
pub fn list_next<S: Store + Drop, A: Allocator + Copy, O: Printer>(
    lister: &mut Lister<S, A>,
    form: LineForm,
    pdb: bool,
    aside: Option<u64>,
    out: &mut O,
) -> Result<bool, ToolFault>
    requires { lister.old.stop ≡ None }
    ensures lists { (file : List ℕ) → lister.old.source.store.content ≡ Some file → (left : Run) → lister.old.left ≡ Some left
        → ListsNext form pdb file lister.old.limit left (O.state out.old) result (O.state out.new) }
    ensures rest { result ≡ Ok true → IsBehindNext lister.old lister.new }
    ensures leaves { Leaves up_to_a_fault ⊥ lister.old.source (O.state out.old) result lister.new.source (O.state out.new) }
    ensures same { IsSameRun lister.old lister.new }
    ensures over { EndsByBudget lister.old result lister.new }
    ensures aside { is_within aside lister.old.counts.aside.bytes ≡ true → KeepsAside aside result lister.new }
    ensures read { ReadsRequested pdb lister.old result lister.new }
    ensures names { (left : Run) → lister.old.left ≡ Some left → NamesNext left result lister.old.counts.names lister.new.counts.names }
{
    let symbols = match lister.next_inlined() {
        Ok(None) => return Ok(false),
        Ok(Some(item)) => {
            let symbols = symbols_of(pdb, &item);
            match print_item(form, item, out) {
                Ok(()) => symbols,
                Err(OutFailed) => return Err(ToolFault::Out),
            }
        }
        Err(fault) => return Err(told_list(fault)),
    };
    list_symbols(lister, form, symbols, aside, out)?;
    Ok(true)
}

/// Where the CodeView record of a module stands.
#[derive(Clone, Copy)]
pub(crate) struct ModuleSymbols {
    /// Which module it is.
    pub place: ModulePlace,
    /// Where the record stands.
    pub location: Location,
}

/// Where the CodeView record of an item stands that is told: a module's, if it lies inside the file
/// and such are asked for.
#[inline(always)]
fn symbols_of(pdb: bool, item: &Item<'_>) -> Option<ModuleSymbols>
    ensures { result ≡ symbols_of pdb item.now }
{
    if !pdb {
        return None;
    }
    match item {
        Item::Module(module) => match module.codeview {
            Extent::Inside => Some(ModuleSymbols {
                place: ModulePlace {
                    entry: module.entry,
                    index: module.index,
                },
                location: module.fields.cv_record,
            }),
            Extent::Empty | Extent::Absent | Extent::Outside => None,
        },
        _ => None,
    }
}

/// Prints the line of the CodeView record at a location, if there is one.
fn list_symbols<S: Store + Drop, A: Allocator + Copy, O: Printer>(
    lister: &mut Lister<S, A>,
    form: LineForm,
    symbols: Option<ModuleSymbols>,
    aside: Option<u64>,
    out: &mut O,
) -> Result<(), ToolFault>
    requires { IfSome symbols (λ of. IsInside of.location.rva of.location.size lister.old.source.size) }
    ensures puts { (file : List ℕ) → lister.old.source.store.content ≡ Some file
        → PutsSymbols lister.old.limit symbols (symbols_text form file lister.old.limit symbols) (O.state out.old) result (O.state out.new) }
    ensures stays { OnlyReadsAside lister.old lister.new }
    ensures leaves { Leaves up_to_a_fault ⊥ lister.old.source (O.state out.old) result lister.new.source (O.state out.new) }
    ensures same { IsSameRun lister.old lister.new }
    ensures over { IsWithinBudget result }
    ensures aside { is_within aside lister.old.counts.aside.bytes ≡ true → KeepsAside aside result lister.new }
    ensures read { ReadsSymbols lister.old.limit symbols lister.old result lister.new }
    ensures names { lister.new.counts.names ≡ lister.old.counts.names }
    ensures only { IfErr result (λ fault. WhereToldToFault fault ⊥) }
{
    let Some(ModuleSymbols { place, location }) = symbols else {
        return Ok(());
    };
    if let Some(size) = over_aside(lister, location.size, aside) {
        return Err(ToolFault::AsideLimit {
            offset: u64::from(location.rva),
            size,
        });
    }
    match lister.codeview(location) {
        Ok(bytes) => match print_symbols(form, place, &bytes, out) {
            Ok(()) => Ok(()),
            Err(OutFailed) => Err(ToolFault::Out),
        },
        Err(fault) => Err(ToolFault::Source(fault)),
    }
}

/// How many bytes of a CodeView record of so many would be read, if with them more than the limit would have been read aside.
fn over_aside<S: Store + Drop, A: Allocator + Copy>(
    lister: &Lister<S, A>,
    size: u32,
    aside: Option<u64>,
) -> Option<u64>
    ensures { MatchOption result
        (is_within aside (lister.now.counts.aside.bytes + symbols_cost lister.now.limit size) ≡ true)
        (λ cost. (cost ≡ symbols_cost lister.now.limit size) × (is_within aside (lister.now.counts.aside.bytes + cost) ≡ false)) }
{
    let most = aside?;
    let cost = u64::from(size).min((lister.name_limit() as u64).saturating_add(24));
    let read = lister.counts().aside;
    if read.saturating_add(u128::from(cost)) > u128::from(most) {
        return Some(cost);
    }
    None
}
