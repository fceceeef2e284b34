//! The command `hex`.
ghost use Rattle.std.specs.Prelude.{◌≡◌, ◌≤◌, ◌<◌, ◌+◌, ℕ, List, [], Some, None, length};
ghost use Rattle.mdmp_map.specs.Ranges.{address_end};
ghost use Rattle.mdmp_lister.specs.Format.Listing.{Run};
ghost use Rattle.mdmp_lister.specs.Requested.{OnlyReadsAside};
ghost use Rattle.mdmp_engines.specs.Causes.{EndsByBudget, IsWithinBudget, KeepsAside, MayReachLimits};
ghost use Rattle.mdmp_engines.specs.Dropping.{DropsStore};
ghost use Rattle.mdmp_engines.specs.Engines.{Leaves, ReadsSource, Tells, at_the_end, directly};
ghost use Rattle.mdmp_engines.specs.ReadThrough.{HasRequested, IsSameRun, IsReadThrough, hex_access};
ghost use Rattle.mdmp_engines.specs.HexRuns.{Hexes, HexesMemory, HexesRun};
ghost use Rattle.mdmp_print.specs.HexText.{length_limit};

use crate::engine::{Engine, run, run_source};
use crate::fault::{ToolFault, told_list};
use crate::outcome::Outcome;
use crate::reporting::report;
use mdmp_lister::{Choice, Limits, Lister};
use mdmp_print::{Printer, print_hex_lines};
use mdmp_source::{LetGo, Out, OutFailed, Source, Store};
use std::alloc::Allocator;

/// Prints memory of the dumped process: `length` bytes from the address `address` on, sixteen on a
/// line, and `??` for each that no range of the file's memory lists holds.
///
/// Where the file is refused, or one of its memory lists has a fault, nothing is written, nor is after a
/// fault of the store or want of memory, or where the budget of the limits is reached. After a fault of
/// the output the first part of the text went out. Memory is taken before the first byte of output.
pub fn run_hex<S: Store + Drop, A: Allocator + Copy, O: Out>(
    alloc: A,
    store: S,
    limits: Limits,
    address: u64,
    length: u32,
    out: &mut O,
) -> Result<(), ToolFault>
where
    Source<S>: LetGo,
    requires within { address + length ≤ address_end }
    requires limited { length ≤ length_limit }
    ensures hexes { (file : List ℕ) → (S.state store).content ≡ Some file → Hexes file limits.name address length (O.state out.old) result (O.state out.new) }
    ensures tells { Tells directly at_the_end (S.state store) (S.state store).size (O.state out.old) result (O.state out.new) }
    ensures limits { MayReachLimits None limits (S.state store).size result }
    ensures read { DropsStore ⟦<Source<S> as LetGo>⟧.may_go (hex_access length limits) (S.state store) result }
{
    let engine = HexEngine {
        alloc,
        address,
        length,
    };
    run(engine, alloc, store, limits, out)
}

/// Does what `run_hex` does, and hands the source back, whose counts tell the cause of its faults.
pub fn hex_source<S: Store + Drop, A: Allocator + Copy, O: Printer>(
    alloc: A,
    source: Source<S>,
    limits: Limits,
    address: u64,
    length: u32,
    out: &mut O,
) -> Outcome<Result<(), ToolFault>, S>
    requires within { address + length ≤ address_end }
    requires limited { length ≤ length_limit }
    ensures hexes { (file : List ℕ) → source.store.content ≡ Some file → Hexes file limits.name address length (O.state out.old) result.answer (O.state out.new) }
    ensures tells { Tells directly at_the_end source.store source.size (O.state out.old) result.answer (O.state out.new) }
    ensures reads { ReadsSource source result.answer result.source }
    ensures through { IsReadThrough (hex_access length limits) source result.answer result.source }
{
    let engine = HexEngine {
        alloc,
        address,
        length,
    };
    run_source(engine, alloc, source, limits, out)
}

/// The engine of `hex`, which reads all before it prints.
#[derive(Clone, Copy)]
pub struct HexEngine<A: Allocator + Copy> {
    /// Where it takes the memory of what it reads.
    pub alloc: A,
    /// The first address.
    pub address: u64,
    /// How many bytes it prints.
    pub length: u32,
}

impl<A: Allocator + Copy> Engine for HexEngine<A> {
    ghost use Rattle.std.specs.Prelude.{◌≤◌, ◌+◌, ◌*◌};
    ghost use Rattle.mdmp_map.specs.Ranges.{address_end};
    ghost use Rattle.mdmp_lister.specs.Format.Listing.{listing, memory_lists};
    ghost use Rattle.mdmp_engines.specs.Engines.{at_the_end};
    ghost use Rattle.mdmp_engines.specs.ReadThrough.{at_most};
    ghost use Rattle.mdmp_engines.specs.HexRuns.{HexEnds, run_hex_text};
    ghost use Rattle.mdmp_engines.specs.Reports.{IsEnd};

    type Answer = ();

    ghost choice = { memory_lists };

    ghost pace = { at_the_end };

    ghost can_print = { λ hex. hex.address + hex.length ≤ address_end };

    ghost aside = { λ _. None };

    ghost held = { λ hex. 2 * hex.length };

    ghost reads = { λ hex. at_most hex.length };

    ghost Ends = { λ _ file limit. HexEnds (listing file memory_lists limit) };

    ghost text = { λ hex file limit. run_hex_text file (listing file memory_lists limit) hex.address hex.length };

    ghost IsReported = { IsEnd };

    fn chosen(&self) -> Choice {
        Choice::memory_lists()
    }

    fn beside(&self) -> u64 {
        2 * u64::from(self.length)
    }

    fn print<S: Store + Drop, B: Allocator + Copy, O: Printer>(
        &self,
        lister: &mut Lister<S, B>,
        out: &mut O,
    ) -> Result<(), ToolFault> {
        hex_listed(self.alloc, lister, self.address, self.length, out)
    }

    fn report<W: Out>(answer: Result<(), ToolFault>, err: &mut W) -> u8
        ensures { IsEnd answer result (W.state err.old) (W.state err.new) }
    {
        report(answer, err)
    }
}

/// Lists the ranges that are left, and prints the bytes of some addresses by them.
fn hex_listed<S: Store + Drop, A: Allocator + Copy, B: Allocator + Copy, O: Printer>(
    alloc: A,
    lister: &mut Lister<S, B>,
    address: u64,
    length: u32,
    out: &mut O,
) -> Result<(), ToolFault>
    requires going { lister.old.stop ≡ None }
    requires none { lister.old.ranges ≡ [] }
    requires within { address + length ≤ address_end }
    ensures hexes { (file : List ℕ) → lister.old.source.store.content ≡ Some file → (left : Run) → lister.old.left ≡ Some left
        → HexesRun file left address length (O.state out.old) result (O.state out.new) }
    ensures leaves { Leaves at_the_end (O.state out.new ≡ O.state out.old) lister.old.source (O.state out.old) result lister.new.source (O.state out.new) }
    ensures same { IsSameRun lister.old lister.new }
    ensures over { EndsByBudget lister.old result lister.new }
    ensures aside { KeepsAside None result lister.new }
    ensures beside { lister.new.counts.aside.bytes ≤ lister.old.counts.aside.bytes + length }
    ensures requests { HasRequested lister.old result lister.new }
{
    match lister.list_ranges() {
        Ok(()) => {}
        Err(fault) => return Err(told_list(fault)),
    }
    let Ok(mut bytes) = vec![in alloc; 0; length as usize] else {
        return Err(ToolFault::Memory);
    };
    let Ok(mut known) = vec![in alloc; false; length as usize] else {
        return Err(ToolFault::Memory);
    };
    print_memory(lister, address, &mut bytes, &mut known, out)
}

/// Reads memory by the ranges that were listed into two buffers, and prints it.
fn print_memory<S: Store + Drop, A: Allocator + Copy, O: Printer>(
    lister: &mut Lister<S, A>,
    address: u64,
    bytes: &mut [u8],
    known: &mut [bool],
    out: &mut O,
) -> Result<(), ToolFault>
    requires same { length bytes.old ≡ length known.old }
    requires within { address + length bytes.old ≤ address_end }
    ensures hexes { (file : List ℕ) → lister.old.source.store.content ≡ Some file
        → HexesMemory file lister.old.ranges address (length bytes.new) (O.state out.old) result (O.state out.new) }
    ensures leaves { Leaves at_the_end (O.state out.new ≡ O.state out.old) lister.old.source (O.state out.old) result lister.new.source (O.state out.new) }
    ensures same { IsSameRun lister.old lister.new }
    ensures over { IsWithinBudget result }
    ensures aside { KeepsAside None result lister.new }
    ensures beside { lister.new.counts.aside.bytes ≤ lister.old.counts.aside.bytes + length bytes.new }
    ensures stays { OnlyReadsAside lister.old lister.new }
{
    match lister.read_address(address, bytes, known) {
        Ok(()) => {}
        Err(fault) => return Err(ToolFault::Source(fault)),
    }
    match print_hex_lines(out, address, bytes, known) {
        Ok(()) => Ok(()),
        Err(OutFailed) => Err(ToolFault::Out),
    }
}
