//! The commands, by what they are asked for and by which calls they read and write.
//!
//! A function that calls a command has no contract, or a short one, and makes one such call, so that
//! nobody above it knows what the command did, and each proof stays short.
ghost use Rattle.std.specs.Prelude.{◌+◌, ◌^◌, ◌≤◌, ◌≡◌, [], None};

use mdmp_engines::{
    CheckEngine, EntryRows, HexEngine, LINE_ROOM, Limits, LineForm, LineOut, ListEngine, OpenFault,
    Outcome, PartRows, ToolFault, check_parts_source, check_source, copy_source, hex_source,
    list_next, list_source, print_dump, run_check, run_check_parts, run_copy, run_hex,
    run_in_blocks, run_list, summary_json_source, summary_source,
};
use mdmp_lister::{Choice, Lister, TypeSet};
use mdmp_source::{Out, PatchyOut, Source, Store, write_all};
use mdmp_test_support::Room;
use std::alloc::{Allocator, Global};
use std::process::Abort;

/// Addresses that follow each other.
#[derive(Clone, Copy)]
pub struct AddressSpan {
    pub address: u64,
    pub length: u32,
}

/// What a command is asked for.
#[derive(Clone, Copy)]
pub enum Task<'a> {
    Check,
    /// A check with a line in this form for each part outside the file.
    CheckParts(LineForm),
    /// The summary of a file of the name `a.dmp`, in this form.
    Summary(LineForm),
    List,
    /// A list with a line for each CodeView record of a module.
    Symbols,
    /// The memory at these addresses.
    Hex(AddressSpan),
    /// A copy of the streams of these types.
    Copy(&'a [u32]),
}

/// By which calls it reads and writes.
#[derive(Clone, Copy, Debug)]
pub enum CallWay {
    /// Over a store.
    Store,
    /// Over a source.
    Source,
    /// Over a source, to an output that gathers blocks of so many bytes.
    Blocks(usize),
    /// Over a source, by a call for each item of a list.
    Items,
    /// The same, with a bar before each of these calls.
    BarredItems,
}

/// What a store is.
#[derive(Clone, Copy)]
pub enum StoreWay<'a> {
    /// A file in memory.
    Whole,
    /// A file whose reads give as many bytes as these numbers say, in turn, and whose read of this number fails.
    Patchy(&'a [usize], Option<u64>),
    /// A file whose content is not known.
    Unknown,
}

/// A run of a command.
#[derive(Clone, Copy)]
pub struct CommandRun<'a> {
    pub task: Task<'a>,
    pub way: CallWay,
    pub reads: StoreWay<'a>,
    pub limits: Limits,
    /// Which growth of its memory is refused.
    pub growth: Option<u64>,
    /// The room of its output.
    pub room: Room,
    /// Which call of its output fails.
    pub out_fail_at: Option<u64>,
}

/// How a run ended: with how many bad entries or copied bytes, or why; and by how many calls it read how
/// many bytes of a source, or 0 and 0 where that is not asked: of a store, and of a list by its items.
#[derive(Clone, Copy)]
pub struct End {
    pub answer: Result<u64, ToolFault>,
    pub calls: u128,
    pub fetched: u128,
}

/// The answer of a command that counts nothing.
fn uncounted(answer: Result<(), ToolFault>) -> Result<u64, ToolFault> {
    match answer {
        Ok(()) => Ok(0),
        Err(fault) => Err(fault),
    }
}

fn end_of<S: Store + Drop>(answered: Outcome<Result<u64, ToolFault>, S>) -> End {
    let Outcome { answer, source } = answered;
    End {
        answer,
        calls: source.calls(),
        fetched: source.fetched(),
    }
}

fn end_of_uncounted<S: Store + Drop>(answered: Outcome<Result<(), ToolFault>, S>) -> End {
    let Outcome { answer, source } = answered;
    let answer = uncounted(answer);
    end_of(Outcome { answer, source })
}

/// The addresses, where a command may be asked for them.
fn limited(rt: &impl Abort, span: AddressSpan) -> AddressSpan
    ensures within { result.address + result.length ≤ 2 ^ 64 }
    ensures limited { result.length ≤ 2 ^ 20 }
{
    let end = u128::from(span.address) + u128::from(span.length);
    if end > 1 << 64 || span.length > 1 << 20 {
        rt.panic("no such addresses");
    }
    span
}

fn types_of(rt: &impl Abort, types: &[u32]) -> TypeSet {
    TypeSet::new(types).expect(rt, "types")
}

/// Whether a list has a line for each CodeView record.
fn has_symbols(task: Task<'_>) -> bool {
    matches!(task, Task::Symbols)
}

/// What a command over a store answers.
fn answer_over_store<S: Store + Drop, A: Allocator + Copy>(
    rt: &impl Abort,
    heap: A,
    store: S,
    run: &CommandRun<'_>,
    out: &mut PatchyOut<Global>,
) -> Result<u64, ToolFault> {
    let limits = run.limits;
    let text = LineForm::Text;
    match run.task {
        Task::Check => run_check(heap, store, limits, text, out),
        Task::CheckParts(form) => run_check_parts(heap, store, limits, form, out),
        Task::Summary(form) => summarized(form, heap, Source::new(store), limits, out).answer,
        Task::List | Task::Symbols => {
            uncounted(run_list(heap, store, limits, text, has_symbols(run.task), out))
        }
        Task::Hex(span) => {
            let AddressSpan { address, length } = limited(rt, span);
            uncounted(run_hex(heap, store, limits, address, length, out))
        }
        Task::Copy(types) => run_copy(heap, store, limits, types_of(rt, types), out),
    }
}

/// A summary in this form.
fn summarized<S: Store + Drop, A: Allocator + Copy>(
    form: LineForm,
    heap: A,
    source: Source<S>,
    limits: Limits,
    out: &mut PatchyOut<Global>,
) -> Outcome<Result<u64, ToolFault>, S> {
    match form {
        LineForm::Text => summary_source(heap, source, limits, b"a.dmp", out),
        LineForm::Json => {
            let mut buffer = [0; LINE_ROOM];
            let mut blocks = LineOut::over(&mut buffer, out);
            summary_json_source(heap, source, limits, b"a.dmp", &mut blocks)
        }
    }
}

/// How a command over a source ends.
fn end_by_source<S: Store + Drop, A: Allocator + Copy>(
    rt: &impl Abort,
    heap: A,
    source: Source<S>,
    run: &CommandRun<'_>,
    out: &mut PatchyOut<Global>,
) -> End {
    let limits = run.limits;
    let text = LineForm::Text;
    match run.task {
        Task::Check => end_of(check_source(heap, source, limits, text, out)),
        Task::CheckParts(form) => end_of(check_parts_source(heap, source, limits, form, out)),
        Task::Summary(form) => end_of(summarized(form, heap, source, limits, out)),
        Task::List | Task::Symbols => end_of_uncounted(list_source(
            heap,
            source,
            limits,
            text,
            has_symbols(run.task),
            out,
        )),
        Task::Hex(span) => {
            let AddressSpan { address, length } = limited(rt, span);
            end_of_uncounted(hex_source(heap, source, limits, address, length, out))
        }
        Task::Copy(types) => { end_of(copy_source(heap, source, limits, types_of(rt, types), out)) }
    }
}

/// How a command through blocks ends.
fn end_by_blocks<S: Store + Drop, A: Allocator + Copy, O: Out>(
    rt: &impl Abort,
    heap: A,
    source: Source<S>,
    run: &CommandRun<'_>,
    blocks: &mut LineOut<'_, O>,
) -> End
    requires { blocks.old.pending ≡ [] }
{
    let limits = run.limits;
    let text = LineForm::Text;
    match run.task {
        Task::Check => {
            let engine = CheckEngine {
                form: text,
                rows: EntryRows,
            };
            end_of(run_in_blocks(engine, heap, source, limits, blocks))
        }
        Task::CheckParts(form) => {
            let rows = PartRows;
            let engine = CheckEngine { form, rows };
            end_of(run_in_blocks(engine, heap, source, limits, blocks))
        }
        Task::List | Task::Symbols => {
            let engine = ListEngine {
                form: text,
                pdb: has_symbols(run.task),
                aside: limits.aside,
            };
            end_of_uncounted(run_in_blocks(engine, heap, source, limits, blocks))
        }
        Task::Hex(span) => {
            let AddressSpan { address, length } = limited(rt, span);
            let engine = HexEngine {
                alloc: heap,
                address,
                length,
            };
            end_of_uncounted(run_in_blocks(engine, heap, source, limits, blocks))
        }
        Task::Summary(LineForm::Json) => {
            end_of(summary_json_source(heap, source, limits, b"a.dmp", blocks))
        }
        Task::Copy(_) | Task::Summary(LineForm::Text) => {
            rt.panic("no copy or lines of a summary in blocks")
        }
    }
}

/// How a run through blocks of this many bytes ends.
fn end_by_blocks_of<S: Store + Drop, A: Allocator + Copy>(
    rt: &impl Abort,
    alloc: Global,
    heap: A,
    source: Source<S>,
    run: &CommandRun<'_>,
    size: usize,
    out: &mut PatchyOut<Global>,
) -> End {
    if size < LINE_ROOM {
        rt.panic("small blocks");
    }
    let mut buffer = vec![in alloc; 0; size].expect(rt, "room");
    let mut blocks = LineOut::over(&mut buffer, out);
    end_by_blocks(rt, heap, source, run, &mut blocks)
}

/// A fault of the opening, as a command has it.
fn opening_fault(fault: OpenFault) -> ToolFault {
    match fault {
        OpenFault::Source(fault) => ToolFault::Source(fault),
        OpenFault::Memory => ToolFault::Memory,
        OpenFault::MemoryLimit { held } => ToolFault::MemoryLimit { held },
        fault => ToolFault::Opening(fault),
    }
}

/// Writes a bar where one is wanted, and tells whether the output took it.
fn write_bar(is_barred: bool, out: &mut PatchyOut<Global>) -> bool {
    !is_barred || write_all(out, b"|").is_ok()
}

/// What a list answers of which each item that is left is printed by a call of its own.
fn answer_by_items<S: Store + Drop, A: Allocator + Copy>(
    lister: &mut Lister<S, A>,
    run: &CommandRun<'_>,
    out: &mut PatchyOut<Global>,
) -> Result<u64, ToolFault>
    requires { lister.old.stop ≡ None }
{
    let pdb = matches!(run.task, Task::Symbols);
    let is_barred = matches!(run.way, CallWay::BarredItems);
    loop {
        if !write_bar(is_barred, out) {
            return Err(ToolFault::Out);
        }
        match list_next(lister, LineForm::Text, pdb, run.limits.aside, out) {
            Ok(true) => {}
            Ok(false) => return Ok(0),
            Err(fault) => return Err(fault),
        }
    }
}

/// What such a list answers from the line of the header on.
fn answer_by_header<S: Store + Drop, A: Allocator + Copy>(
    heap: A,
    source: Source<S>,
    run: &CommandRun<'_>,
    out: &mut PatchyOut<Global>,
) -> Result<u64, ToolFault> {
    let mut lister = match Lister::open(heap, source, run.limits, Choice::All) {
        Ok(lister) => lister,
        Err(refused) => return Err(opening_fault(refused.fault)),
    };
    if !is_header_put(&lister, out) {
        return Err(ToolFault::Out);
    }
    answer_by_items(&mut lister, run, out)
}

/// Prints the line of the header, and tells whether the output took it.
fn is_header_put<S: Store + Drop, A: Allocator + Copy>(
    lister: &Lister<S, A>,
    out: &mut PatchyOut<Global>,
) -> bool {
    print_dump(LineForm::Text, &lister.header(), out).is_ok()
}

fn end_of_answer(answer: Result<u64, ToolFault>) -> End {
    End {
        answer,
        calls: 0,
        fetched: 0,
    }
}

/// How a run over this store ends, with memory of this heap.
pub fn end_over<S: Store + Drop, A: Allocator + Copy>(
    rt: &impl Abort,
    alloc: Global,
    heap: A,
    store: S,
    run: &CommandRun<'_>,
    out: &mut PatchyOut<Global>,
) -> End {
    match run.way {
        CallWay::Store => end_of_answer(answer_over_store(rt, heap, store, run, out)),
        CallWay::Source => end_by_source(rt, heap, Source::new(store), run, out),
        CallWay::Blocks(size) => {
            end_by_blocks_of(rt, alloc, heap, Source::new(store), run, size, out)
        }
        CallWay::Items | CallWay::BarredItems => {
            end_of_answer(answer_by_header(heap, Source::new(store), run, out))
        }
    }
}
