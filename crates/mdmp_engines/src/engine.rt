//! What is the same for each command over the listing of a file.
ghost use Rattle.std.specs.Prelude.{◌≡◌, ◌<◌, ℕ, List, [], Some, Err};
ghost use Rattle.mdmp_print.specs.Blocks.{MovesFront};
ghost use Rattle.mdmp_lister.specs.Format.Refusal.{opening_fault};
ghost use Rattle.mdmp_engines.specs.Causes.{MayReachLimits};
ghost use Rattle.mdmp_engines.specs.Telling.{opening_beside};
ghost use Rattle.mdmp_engines.specs.Dropping.{DropsStore};
ghost use Rattle.mdmp_engines.specs.Engines.{EndsFlushed, IsFlushed, ReadsSource, Runs, RunsThrough, Tells, directly, in_blocks, unless_refused};
ghost use Rattle.mdmp_engines.specs.ReadThrough.{IsReadThrough};

use crate::fault::{ToolFault, told_opening};
use crate::outcome::Outcome;
use mdmp_lister::{Choice, Limits, Lister, OpenFault};
use mdmp_print::{LineOut, Printer};
use mdmp_source::{LetGo, Out, OutFailed, Source, Store};
use std::alloc::Allocator;

/// A command over the listing of a file: which streams it lists, and what it prints of them.
pub trait Engine: Copy {
    ghost use Rattle.std.specs.Prelude.{◌≡◌, ℕ, List, Option, Some, Result};
    ghost use Rattle.mdmp_source.specs.Output.{OutState};
    ghost use Rattle.mdmp_lister.specs.declared.choice.Choice.{Choice};
    ghost use Rattle.mdmp_engines.specs.declared.fault.ToolFault.{ToolFault};
    ghost use Rattle.mdmp_engines.specs.Causes.{EndsByBudget, IsWithinMemory, KeepsAside};
    ghost use Rattle.mdmp_engines.specs.Engines.{IsOpened, Leaves, Pace, WritesText};
    ghost use Rattle.mdmp_engines.specs.ReadThrough.{Beside, IsSameRun, ReadsByRequests};

    /// What it answers where all was printed.
    type Answer: Copy;

    // The streams that are listed.
    ghost choice: { Choice };

    // When it prints: while it reads, or once all is read; and whether a fault of the listing ends it.
    ghost pace: { Pace };

    // What may be asked.
    ghost can_print: { Self → Type 0 };

    // What may end it over a file that can be opened, with names up to a limit.
    ghost Ends: { Self → List ℕ → ℕ → Result Self.Answer ToolFault → Type 0 };

    // The most bytes of CodeView records that it may read, if there is such a limit. What it reads of memory does not count.
    ghost aside: { Self → Option ℕ };

    // How many bytes it holds beside its lister.
    ghost held: { Self → ℕ };

    // What it reads beside the listing.
    ghost reads: { Self → Beside };

    // All that it prints of such a file.
    ghost text: { Self → List ℕ → ℕ → List ℕ };

    // How its answer is reported.
    ghost IsReported: { Result Self.Answer ToolFault → ℕ → OutState → OutState → Type 0 };

    /// The streams that are listed.
    fn chosen(&self) -> Choice
        ensures { result ≡ choice };

    /// How many bytes it holds beside its lister.
    fn beside(&self) -> u64
        ensures { result ≡ held self.now };

    /// Prints what there is to print of a file that was opened.
    fn print<S: Store + Drop, A: Allocator + Copy, O: Printer>(
        &self,
        lister: &mut Lister<S, A>,
        out: &mut O,
    ) -> Result<Self::Answer, ToolFault>
        requires can { can_print self.now }
        requires opened { IsOpened choice lister.old }
        ensures ends { (file : List ℕ) → lister.old.source.store.content ≡ Some file → Ends self.now file lister.old.limit result }
        ensures writes { (file : List ℕ) → lister.old.source.store.content ≡ Some file
            → WritesText pace (text self.now file lister.old.limit) (O.state out.old) result (O.state out.new) }
        ensures leaves { Leaves pace (O.state out.new ≡ O.state out.old) lister.old.source (O.state out.old) result lister.new.source (O.state out.new) }
        ensures same { IsSameRun lister.old lister.new }
        ensures over { EndsByBudget lister.old result lister.new }
        ensures aside { KeepsAside (aside self.now) result lister.new }
        ensures read { ReadsByRequests (reads self.now) pace lister.old result lister.new }
        ensures within { IsWithinMemory result };

    /// Reports its answer to `err`, and returns the exit status. If `err` refuses, the status is the same.
    fn report<W: Out>(answer: Result<Self::Answer, ToolFault>, err: &mut W) -> u8
        ensures { IsReported answer result (W.state err.old) (W.state err.new) };
}

/// Runs a command over a store.
pub(crate) fn run<E: Engine, S: Store + Drop, A: Allocator + Copy, O: Printer>(
    engine: E,
    alloc: A,
    store: S,
    limits: Limits,
    out: &mut O,
) -> Result<E::Answer, ToolFault>
where
    Source<S>: LetGo,
    requires { E.can_print engine }
    ensures runs { (file : List ℕ) → (S.state store).content ≡ Some file
        → Runs file E.choice (E.Ends engine file limits.name) E.pace (unless_refused (opening_fault file E.choice) (E.text engine file limits.name))
        (O.state out.old) result (O.state out.new) }
    ensures tells { Tells directly E.pace (S.state store) (S.state store).size (O.state out.old) result (O.state out.new) }
    ensures limits { MayReachLimits (E.aside engine) limits (S.state store).size result }
    ensures read { DropsStore ⟦<Source<S> as LetGo>⟧.may_go (record { limits = limits; choice = E.choice; pace = E.pace; held = E.held engine; aside = E.aside engine; beside = E.reads engine }) (S.state store) result }
{
    let Outcome { answer, source } = run_source(engine, alloc, Source::new(store), limits, out);
    source.let_go();
    answer
}

/// Runs a command over a source, and hands it back.
///
/// The file is opened before the first touch of the output.
pub(crate) fn run_source<E: Engine, S: Store + Drop, A: Allocator + Copy, O: Printer>(
    engine: E,
    alloc: A,
    source: Source<S>,
    limits: Limits,
    out: &mut O,
) -> Outcome<Result<E::Answer, ToolFault>, S>
    requires { E.can_print engine }
    ensures runs { (file : List ℕ) → source.store.content ≡ Some file
        → Runs file E.choice (E.Ends engine file limits.name) E.pace (unless_refused (opening_fault file E.choice) (E.text engine file limits.name))
        (O.state out.old) result.answer (O.state out.new) }
    ensures tells { Tells directly E.pace source.store source.size (O.state out.old) result.answer (O.state out.new) }
    ensures reads { ReadsSource source result.answer result.source }
    ensures through { IsReadThrough (record { limits = limits; choice = E.choice; pace = E.pace; held = E.held engine; aside = E.aside engine; beside = E.reads engine }) source result.answer result.source }
{
    let beside = engine.beside();
    // The proof learns here that the size has 64 bits.
    let _size = source.size();
    let mut lister = match Lister::open(
        alloc,
        source,
        limits.leave_memory(beside),
        engine.chosen(),
    ) {
        Ok(lister) => lister,
        Err(refused) => {
            return Outcome {
                answer: Err(refused_beside(refused.fault, beside)),
                source: refused.source,
            };
        }
    };
    let answer = engine.print(&mut lister, out);
    // The proof learns here within which bounds the lister stayed.
    let _counts = lister.counts();
    Outcome {
        answer,
        source: lister.into_source(),
    }
}

/// A fault of the opening, as a command tells it that holds so many bytes beside its lister.
pub(crate) fn refused_beside(fault: OpenFault, beside: u64) -> ToolFault
    ensures { result ≡ opening_beside beside fault }
{
    match fault {
        OpenFault::MemoryLimit { held } => ToolFault::MemoryLimit {
            held: held.saturating_add(u128::from(beside)),
        },
        fault => told_opening(fault),
    }
}

/// Runs a command over a source, by few writes: the lines reach the inner output in blocks, and what is
/// pending at the end, or before a fault, is flushed. Where the inner output refuses a block, the last one
/// too, the answer is the output's fault.
pub fn run_in_blocks<E: Engine, S: Store + Drop, A: Allocator + Copy, O: Out>(
    engine: E,
    alloc: A,
    source: Source<S>,
    limits: Limits,
    blocks: &mut LineOut<'_, O>,
) -> Outcome<Result<E::Answer, ToolFault>, S>
    requires can { E.can_print engine }
    requires none { blocks.old.pending ≡ [] }
    ensures runs { (file : List ℕ) → source.store.content ≡ Some file
        → RunsThrough file E.choice (E.Ends engine file limits.name) E.pace (unless_refused (opening_fault file E.choice) (E.text engine file limits.name))
        blocks.old.inner result.answer blocks.new.inner }
    ensures flushed { IsFlushed result.answer blocks.new.pending }
    ensures tells { Tells in_blocks E.pace source.store source.size blocks.old.inner result.answer blocks.new.inner }
    ensures reads { ReadsSource source result.answer result.source }
    ensures through { IsReadThrough (record { limits = limits; choice = E.choice; pace = E.pace; held = E.held engine; aside = E.aside engine; beside = E.reads engine }) source result.answer result.source }
{
    let answered = run_source(engine, alloc, source, limits, blocks);
    flushed(answered, blocks)
}

/// Writes what is pending after a run, and answers what the run did, or the output's fault where the
/// inner output refuses.
fn flushed<T: Copy, S: Store + Drop, O: Out>(
    answered: Outcome<Result<T, ToolFault>, S>,
    blocks: &mut LineOut<'_, O>,
) -> Outcome<Result<T, ToolFault>, S>
    ensures ends { EndsFlushed answered.answer result.answer blocks.old.inner blocks.new.inner }
    ensures moved { MovesFront blocks.old.inner blocks.old.pending blocks.new.inner blocks.new.pending }
    ensures flushed { IsFlushed result.answer blocks.new.pending }
    ensures source { result.source ≡ answered.source }
{
    let Outcome { answer, source } = answered;
    Outcome {
        answer: flush_after(answer, blocks),
        source,
    }
}

/// Writes what is pending after a run that answered this, and answers the same, or the output's fault where the inner
/// output refuses.
pub(crate) fn flush_after<T: Copy, O: Out>(
    answer: Result<T, ToolFault>,
    blocks: &mut LineOut<'_, O>,
) -> Result<T, ToolFault>
    ensures ends { EndsFlushed answer result blocks.old.inner blocks.new.inner }
    ensures moved { MovesFront blocks.old.inner blocks.old.pending blocks.new.inner blocks.new.pending }
    ensures flushed { IsFlushed result blocks.new.pending }
{
    if let Err(ToolFault::Out) = answer {
        return answer;
    }
    match blocks.flush() {
        Ok(()) => answer,
        Err(OutFailed) => Err(ToolFault::Out),
    }
}
