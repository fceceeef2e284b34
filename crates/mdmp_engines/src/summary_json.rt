//! The object of `summary --json`.
ghost use Rattle.std.specs.Prelude.{◌≡◌, ◌≤◌, ℕ, List, [], Some, false, length};
ghost use Rattle.mdmp_source.specs.Store.{IsGood};
ghost use Rattle.mdmp_lister.specs.Format.Name.{plain_name};
ghost use Rattle.mdmp_lister.specs.Walker.{is_failed};
ghost use Rattle.mdmp_lister.specs.declared.choice.Choice.TheVariants.{All};
ghost use Rattle.mdmp_summary.specs.BadEntries.{all_items};
ghost use Rattle.mdmp_summary.specs.Walking.{IsSameListing};
ghost use Rattle.mdmp_engines.specs.Causes.{HasOutCause, HasSourceCause, IsNoSourceFault};
ghost use Rattle.mdmp_engines.specs.Engines.{IsFlushed, ReadsSource};
ghost use Rattle.mdmp_engines.specs.KeptNames.{kept_names, told_names};
ghost use Rattle.mdmp_engines.specs.ObjectRuns.{IsObjectThrough, IsQuietObject, LeavesPasses, PrintsAnswer, PrintsObject, PrintsThrough, PrintsWhileRead, ReadsLists, ReadsObject};
ghost use Rattle.mdmp_engines.specs.ObjectVisits.{HasSymbolsRoom};
ghost use Rattle.mdmp_engines.specs.SummaryObject.{lists_text, named_object, symbols_most, told_object};

use crate::engine::flush_after;
use crate::fault::ToolFault;
use crate::kept_name::{KeptNames, read_names};
use crate::object_passes::{print_modules, print_threads};
use crate::outcome::Outcome;
use crate::summary::{Summed, sum_source};
use mdmp_lister::{Limits, Name, Walker};
use mdmp_print::{LineOut, Printer};
use mdmp_source::{Out, OutFailed, Source, Store};
use mdmp_summary::FileSummary;
use mdmp_summary_lines::{print_summary_head, print_threads_front};
use std::alloc::Allocator;

/// Prints the summary of a file as one object of JSON on a line, with all its modules and threads, and hands the source
/// back. `file` is the file's name. The answer is how many entries are bad. The object reaches the inner output in
/// blocks, and what is pending at the end, or before an error, is flushed.
///
/// After the passes of a summary, one pass prints the modules and one the threads, each as it is read: no list is
/// kept. All passes count against the read limit. Outside the listing are read three names, of each module at most
/// 24 bytes and a name of its CodeView record, and of each thread at most 272 bytes of its context.
///
/// Beside the window, the directory and a name it holds four names. Nothing is printed before the summary is made, its
/// names are read and all memory is taken. If the store fails or the read limit is reached after that, a first part of
/// the object went out.
pub fn summary_json_source<S: Store + Drop, A: Allocator + Copy, O: Out>(
    alloc: A,
    source: Source<S>,
    limits: Limits,
    file: &[u8],
    blocks: &mut LineOut<'_, O>,
) -> Outcome<Result<u64, ToolFault>, S>
    requires { blocks.old.pending ≡ [] }
    ensures prints { (bytes : List ℕ) → source.store.content ≡ Some bytes → PrintsObject file.now bytes limits blocks.old.inner result.answer blocks.new.inner }
    ensures good { (bytes : List ℕ) → IsGood source.store bytes → IsNoSourceFault result.answer }
    ensures through { IsObjectThrough limits source blocks.old.inner result.answer result.source blocks.new.inner }
    ensures reads { ReadsSource source result.answer result.source }
    ensures quiet { IsQuietObject result.answer (blocks.new.inner ≡ blocks.old.inner) }
    ensures out_cause { HasOutCause blocks.old.inner result.answer blocks.new.inner }
    ensures flushed { IsFlushed result.answer blocks.new.pending }
{
    let beside = 4 * u64::from(limits.name);
    let Summed {
        mut walker,
        summary,
    } = match sum_source(alloc, source, limits, beside) {
        Ok(summed) => summed,
        Err(ended) => return ended,
    };
    let symbols = symbols_most(limits, summary.counts.modules);
    let answer = print_object(
        alloc,
        &mut walker,
        limits.name,
        symbols,
        file,
        &summary,
        blocks,
    );
    // The proof learns here that the walker kept to its read limit.
    let _counts = walker.counts();
    Outcome {
        answer,
        source: walker.into_source(),
    }
}

/// Reads the names that a summary tells, takes the memory for the name of a symbol file, and prints the object.
fn print_object<S: Store + Drop, A: Allocator + Copy, O: Out>(
    alloc: A,
    walker: &mut Walker<S, A>,
    limit: u32,
    symbols: u32,
    file: &[u8],
    summary: &FileSummary,
    blocks: &mut LineOut<'_, O>,
) -> Result<u64, ToolFault>
    requires all { walker.old.list.choice ≡ All }
    requires going { is_failed walker.old.list.stop ≡ false }
    requires limit { limit ≡ walker.old.list.limit }
    requires symbols { symbols ≤ walker.old.list.limit }
    requires none { blocks.old.pending ≡ [] }
    ensures prints { (bytes : List ℕ) → walker.old.list.source.store.content ≡ Some bytes
        → PrintsThrough (told_object file.now bytes limit symbols summary.now) summary.now.bad.count blocks.old.inner result blocks.new.inner }
    ensures reads { ReadsObject (λ bytes. told_names bytes limit summary.now) walker.old blocks.old.inner result walker.new blocks.new.inner }
    ensures same { IsSameListing walker.old.list walker.new.list }
    ensures good { (bytes : List ℕ) → IsGood walker.old.list.source.store bytes → IsNoSourceFault result }
    ensures cause { HasSourceCause walker.old.list.source result walker.new.list.source }
    ensures quiet { IsQuietObject result (blocks.new.inner ≡ blocks.old.inner) }
    ensures out_cause { HasOutCause blocks.old.inner result blocks.new.inner }
    ensures flushed { IsFlushed result blocks.new.pending }
{
    let names = read_names(alloc, walker, summary, limit)?;
    let room = symbols_room(walker, symbols);
    let Ok(buffer) = vec![in alloc; 0; room] else {
        return Err(ToolFault::Memory);
    };
    print_gathered(walker, file, summary, &names, symbols, buffer, blocks)
}

/// How many bytes of the name of a symbol file are printed at most, of a file with so many modules: as many as the limit
/// of names says, and no more than the share of each module in the limit of what is read aside. A record begins with
/// 24 bytes, which are read in any case.
fn symbols_most(limits: Limits, modules: u128) -> u32
    ensures value { result ≡ symbols_most limits modules }
    ensures within { result ≤ limits.name }
{
    let Some(aside) = limits.aside else {
        return limits.name;
    };
    let share = u128::from(aside) / modules.max(1);
    share.saturating_sub(24).min(u128::from(limits.name)) as u32
}

/// How many bytes the name of a symbol file has at most: as many as the limit, and no more than the file.
fn symbols_room<S: Store + Drop, A: Allocator + Copy>(walker: &Walker<S, A>, limit: u32) -> usize
    ensures { HasSymbolsRoom walker.now.list.source.store.content limit result }
{
    u64::from(limit).min(walker.size()) as usize
}

/// Prints the object of a summary with these names by few writes: what is pending at the end, or before an error, is
/// flushed.
fn print_gathered<S: Store + Drop, A: Allocator + Copy, O: Out>(
    walker: &mut Walker<S, A>,
    file: &[u8],
    summary: &FileSummary,
    names: &KeptNames<A>,
    symbols: u32,
    buffer: Vec<u8, A>,
    blocks: &mut LineOut<'_, O>,
) -> Result<u64, ToolFault>
    requires all { walker.old.list.choice ≡ All }
    requires going { is_failed walker.old.list.stop ≡ false }
    requires symbols { symbols ≤ walker.old.list.limit }
    requires room { HasSymbolsRoom walker.old.list.source.store.content symbols (length buffer.items) }
    requires none { blocks.old.pending ≡ [] }
    ensures prints { (bytes : List ℕ) → walker.old.list.source.store.content ≡ Some bytes
        → PrintsThrough (named_object file.now bytes walker.old.list.limit symbols summary.now (kept_names names.now)) summary.now.bad.count blocks.old.inner result blocks.new.inner }
    ensures leaves { LeavesPasses 2 walker.old result walker.new }
    ensures out_cause { HasOutCause blocks.old.inner result blocks.new.inner }
    ensures reads { ReadsLists walker.old.list.limit walker.old.list.source.store.content result walker.old.list.counts.aside walker.new.list.counts.aside }
    ensures flushed { IsFlushed result blocks.new.pending }
{
    let answer = print_named(walker, file, summary, names, symbols, buffer, blocks);
    flush_after(answer, blocks)
}

/// Prints the object of a summary with these names.
fn print_named<S: Store + Drop, A: Allocator + Copy, O: Printer>(
    walker: &mut Walker<S, A>,
    file: &[u8],
    summary: &FileSummary,
    names: &KeptNames<A>,
    symbols: u32,
    buffer: Vec<u8, A>,
    out: &mut O,
) -> Result<u64, ToolFault>
    requires all { walker.old.list.choice ≡ All }
    requires going { is_failed walker.old.list.stop ≡ false }
    requires symbols { symbols ≤ walker.old.list.limit }
    requires room { HasSymbolsRoom walker.old.list.source.store.content symbols (length buffer.items) }
    ensures prints { (bytes : List ℕ) → walker.old.list.source.store.content ≡ Some bytes
        → PrintsAnswer (named_object file.now bytes walker.old.list.limit symbols summary.now (kept_names names.now)) summary.now.bad.count (O.state out.old) result (O.state out.new) }
    ensures leaves { LeavesPasses 2 walker.old result walker.new }
    ensures out_cause { HasOutCause (O.state out.old) result (O.state out.new) }
    ensures reads { ReadsLists walker.old.list.limit walker.old.list.source.store.content result walker.old.list.counts.aside walker.new.list.counts.aside }
{
    let told = names.lend();
    match print_summary_head(file, summary, &told, out) {
        Ok(()) => {}
        Err(OutFailed) => return Err(ToolFault::Out),
    }
    let thread = names.thread.lend();
    match print_lists(walker, summary, &thread, symbols, buffer, out) {
        Ok(()) => Ok(summary.bad.count),
        Err(fault) => Err(fault),
    }
}

/// Prints the modules, the threads and the end of the object.
fn print_lists<S: Store + Drop, A: Allocator + Copy, O: Printer>(
    walker: &mut Walker<S, A>,
    summary: &FileSummary,
    thread: &Name<'_>,
    symbols: u32,
    buffer: Vec<u8, A>,
    out: &mut O,
) -> Result<(), ToolFault>
    requires all { walker.old.list.choice ≡ All }
    requires going { is_failed walker.old.list.stop ≡ false }
    requires symbols { symbols ≤ walker.old.list.limit }
    requires room { HasSymbolsRoom walker.old.list.source.store.content symbols (length buffer.items) }
    ensures prints { (file : List ℕ) → walker.old.list.source.store.content ≡ Some file
        → PrintsWhileRead (lists_text file symbols summary.now (plain_name thread.now) (all_items file walker.old.list.limit)) (O.state out.old) result (O.state out.new) }
    ensures leaves { LeavesPasses 2 walker.old result walker.new }
    ensures out_cause { HasOutCause (O.state out.old) result (O.state out.new) }
    ensures reads { ReadsLists walker.old.list.limit walker.old.list.source.store.content result walker.old.list.counts.aside walker.new.list.counts.aside }
{
    let mut buffer = buffer;
    print_modules(walker, &mut buffer, out)?;
    match print_threads_front(out) {
        Ok(()) => {}
        Err(OutFailed) => return Err(ToolFault::Out),
    }
    print_threads(walker, summary, thread, out)
}
