//! The command `copy`.
ghost use Rattle.std.specs.Prelude.{◌≡◌, ◌<◌, ◌≤◌, ◌+◌, ◌*◌, ℕ, List, None, Some, IfErr, IfOk, MatchResult, length};
ghost use Rattle.mdmp_source.specs.Store.{IsGood};
ghost use Rattle.mdmp_lister.specs.declared.choice.Choice.TheVariants.{Types};
ghost use Rattle.mdmp_lister.specs.declared.fault.OpenFault.TheVariants.{TooShort};
ghost use Rattle.mdmp_dump.specs.declared.dump.Dump.{Dump};
ghost use Rattle.mdmp_dump.specs.declared.fault.ReadFault.TheVariants.{Opening};
ghost use Rattle.mdmp_dump.specs.FileRefusal.{view_refusal};
ghost use Rattle.mdmp_source.specs.Count.{raised};
ghost use Rattle.mdmp_lister.specs.Meter.{is_passed};
ghost use Rattle.mdmp_dump.specs.Opened.{CostsOpening, HandsSourceBack, RefusesView, ShowsFile};
ghost use Rattle.mdmp_dump.specs.Opening.{IsNewView, entries_in, held_by};
ghost use Rattle.mdmp_dump.specs.Reading.{IsWanting};
ghost use Rattle.mdmp_dump.specs.Shape.{IsViewOf};
ghost use Rattle.mdmp_writer.specs.Passes.{all_asks, all_costs};
ghost use Rattle.mdmp_writer.specs.Writing.{GoesOut};
ghost use Rattle.mdmp_engines.specs.Causes.{IsNoSourceFault};
ghost use Rattle.mdmp_engines.specs.Copying.{Copies, IsDumpCopied, IsShapeCopied, IsToldByView, SpendsCopy, SpendsWithin, TellsCopyBudget, TellsCopyMemory, first_not_copied, is_copied};
ghost use Rattle.mdmp_engines.specs.Dropping.{DropsCopied};
ghost use Rattle.mdmp_engines.specs.Engines.{ReadsSource};

use crate::fault::{ToolFault, told_reading};
use crate::outcome::Outcome;
use mdmp_dump::{DumpView, FileView, ReadFault, ViewFault, ViewRefused};
use mdmp_lister::{Choice, Limits, StreamKind, TypeSet};
use mdmp_source::{LetGo, Out, Source, Store};
use mdmp_writer::{WriteFault, write_dump};
use std::alloc::Allocator;

/// Whether streams of this type, the `StreamType` of a file's directory, are copied: `UnusedStream`, 0,
/// those whose records are known, the comments `CommentStreamA`, 10, and `CommentStreamW`, 11,
/// `MiscInfoStream`, 15, and those of users, above 0xffff. Others may hold offsets into the file,
/// which a copy does not move.
pub fn copied(stream_type: u32) -> bool
    ensures { result ≡ is_copied stream_type }
{
    stream_type == 0
        || StreamKind::of_type(stream_type).is_some()
        || matches!(stream_type, 10 | 11 | 15)
        || stream_type > 0xffff
}

/// The first of some types whose streams are not copied.
pub fn first_not_copied(types: &[u32]) -> Option<u32>
    ensures { result ≡ first_not_copied types.now }
{
    for stream_type in types {
        if !copied(*stream_type) {
            return Some(*stream_type);
        }
    }
    None
}

/// Copies the streams of these types: they are written to `out` as a file of its own, through a view of
/// the store and a buffer of the window's size, so that what is held does not grow with them. The answer
/// is how many bytes the copy has.
///
/// A type whose streams are not copied is refused before the store is touched. Where the file gives no
/// dump, or one that can't be written, and where memory is wanting, nothing is written. If the limits have a
/// budget, opening the file keeps to it, and a copy that may fetch more is refused before its first byte. If
/// they have a limit of memory, what a copy holds keeps to it: twice the window, and 24 bytes for each entry
/// of the directory. After a fault of
/// the output, or of the store while parts are read, a first part of the copy went out. The bytes of a
/// stream whose records are not known are written as they are: offsets in them are not moved.
pub fn run_copy<S: Store + Drop, A: Allocator + Copy, O: Out>(
    alloc: A,
    store: S,
    limits: Limits,
    types: TypeSet,
    out: &mut O,
) -> Result<u64, ToolFault>
where
    Source<S>: LetGo,
    ensures copies { Copies A (S.state store).content (S.state store).size types limits.name (O.state out.old) result (O.state out.new) }
    ensures good { (file : List ℕ) → IsGood (S.state store) file → IsNoSourceFault result }
    ensures budget { TellsCopyBudget A types limits.budget limits.window (S.state store).content result }
    ensures memory { TellsCopyMemory limits (S.state store).content result }
    // The source over the store is dropped as `copy_source` hands it back.
    ensures dropped { DropsCopied ⟦<Source<S> as LetGo>⟧.may_go A types limits (S.state store) result }
{
    let Outcome { answer, source } = copy_source(alloc, Source::new(store), limits, types, out);
    source.let_go();
    answer
}

/// Does what `run_copy` does, and hands the source back, whose counts tell the cause of its faults. It
/// is as it was where a type is refused.
pub fn copy_source<S: Store + Drop, A: Allocator + Copy, O: Out>(
    alloc: A,
    source: Source<S>,
    limits: Limits,
    types: TypeSet,
    out: &mut O,
) -> Outcome<Result<u64, ToolFault>, S>
    ensures copies { Copies A source.store.content source.size types limits.name (O.state out.old) result.answer (O.state out.new) }
    ensures good { (file : List ℕ) → IsGood source.store file → IsNoSourceFault result.answer }
    ensures reads { ReadsSource source result.answer result.source }
    ensures unread { (t : ℕ) → first_not_copied types ≡ Some t → result.source ≡ source }
    ensures spends { SpendsCopy A types limits.window source result.answer result.source }
    ensures budget { TellsCopyBudget A types limits.budget limits.window source.store.content result.answer }
    ensures within { SpendsWithin limits.budget source result.answer result.source }
    ensures memory { TellsCopyMemory limits source.store.content result.answer }
{
    if let Some(stream_type) = first_not_copied(types.types()) {
        return Outcome {
            answer: Err(ToolFault::NotCopied(stream_type)),
            source,
        };
    }
    match open_copy(alloc, source, limits, types) {
        Ok(
            Copying {
                mut view,
                mut buffer,
            },
        ) => {
            let needed = view.needed();
            if is_over(limits.budget, needed) {
                return Outcome {
                    answer: Err(ToolFault::CopyBudget { needed }),
                    source: view.into_source(),
                };
            }
            Outcome {
                answer: write_copy(&mut view, out, &mut buffer),
                source: view.into_source(),
            }
        },
        Err(ViewRefused { fault, source }) => Outcome {
            answer: Err(told_reading(fault)),
            source,
        },
    }
}

/// Whether a copy that may fetch so many bytes could pass a budget.
fn is_over(budget: Option<u64>, needed: u128) -> bool
    ensures value { result ≡ is_passed budget needed }
    ensures bound { (all : ℕ) → needed ≡ raised 0 all → result ≡ is_passed budget all }
{
    match budget {
        Some(most) => needed > u128::from(most),
        None => false,
    }
}

/// All that a copy holds while it is written.
struct Copying<S: Store + Drop, A: Allocator + Copy> {
    view: FileView<S, A>,
    buffer: Vec<u8, A>,
}

/// Takes all memory of a copy: that of a view of these streams, and a buffer of the window's size.
fn open_copy<S: Store + Drop, A: Allocator + Copy>(
    alloc: A,
    source: Source<S>,
    limits: Limits,
    types: TypeSet,
) -> Result<Copying<S, A>, ViewRefused<S>>
    ensures views { IfOk result (λ copying. ShowsFile A source (Types types) (⟦<FileView<S, A> as DumpView>⟧.shape copying.view)) }
    ensures refuses { (file : List ℕ) → source.store.content ≡ Some file
        → MatchResult result (λ _. view_refusal file (Types types) limits.name ≡ None) (λ refused. (IsWanting refused.fault → ⊥) → view_refusal file (Types types) limits.name ≡ Some refused.fault) }
    ensures short { source.size < 32 → MatchResult result (λ _. ⊥) (λ refused. refused.fault ≡ Opening (TooShort source.size)) }
    ensures new { IfOk result (λ copying. IsNewView source limits.window limits.memory (Types types) copying.view) }
    ensures buffer { IfOk result (λ copying. length copying.buffer.items ≡ limits.window) }
    ensures held { IfOk result (λ copying. held_by copying.view + length copying.buffer.items ≡ 2 * limits.window + 24 * entries_in copying.view) }
    ensures costs { IfOk result (λ copying. CostsOpening source limits (Types types) copying.view) }
    ensures refused { IfErr result (λ refused. RefusesView limits (Types types) source refused.fault) }
    ensures handed_back { IfErr result (λ refused. HandsSourceBack limits (Types types) source refused.fault refused.source) }
{
    let choice = Choice::Types(types);
    let view = FileView::open_source(alloc, source, limits, choice)?;
    let Ok(buffer) = vec![in alloc; 0; limits.window as usize] else {
        return Err(ViewRefused {
            fault: ReadFault::Memory,
            source: view.into_source(),
        });
    };
    Ok(Copying { view, buffer })
}

/// Writes the dump that a view gives through a buffer, and takes no memory.
fn write_copy<V: DumpView, O: Out>(
    view: &mut V,
    out: &mut O,
    buffer: &mut [u8],
) -> Result<u64, ToolFault>
    requires { 0 < length buffer.old }
    ensures shape { V.shape view.new ≡ V.shape view.old }
    ensures passed { (V.spent view.new).passed ≤ (V.spent view.old).passed + 2 * all_costs (V.shape view.old) }
    ensures asked { (V.spent view.new).asked ≤ (V.spent view.old).asked + all_asks (V.shape view.old) }
    ensures ends { IsShapeCopied (V.shape view.old) (O.state out.old) result (O.state out.new) }
    ensures copies { (d : Dump V.Memory) → IsViewOf d (V.shape view.old) → IsDumpCopied d (O.state out.old) result (O.state out.new) }
    ensures out { IfOk result (λ size. GoesOut (V.shape view.old) size (O.state out.old) (O.state out.new)) }
    ensures told { IsToldByView result (V.spent view.new).fault }
    ensures moves { V.Moves view.old view.new }
{
    match write_dump(view, out, buffer) {
        Ok(size) => Ok(size),
        Err(WriteFault::Layout(fault)) => Err(ToolFault::Layout(fault)),
        Err(WriteFault::Out) => Err(ToolFault::Out),
        Err(WriteFault::View(ViewFault::Source(fault))) => Err(ToolFault::Source(fault)),
    }
}
