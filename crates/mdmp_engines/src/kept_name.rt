//! Names that are read from a file and kept.
ghost use Rattle.std.specs.Prelude.{◌≡◌, ◌≤◌, ◌+◌, ◌*◌, ◌%◌, ℕ, List, Some, IfErr, IfOk, length};
ghost use Rattle.mdmp_source.specs.Store.{IsGood};
ghost use Rattle.mdmp_lister.specs.Format.Name.{plain_name};
ghost use Rattle.mdmp_summary.specs.Spending.{ReadsOutside};
ghost use Rattle.mdmp_engines.specs.Causes.{IsNoSourceFault};
ghost use Rattle.mdmp_engines.specs.KeptNames.{EndsNames, IsNameFault, crash_rva, kept_name, kept_names, module_rva, kept_name_cost, name_bytes, plain_names, thread_rva, told_name, told_names};

use crate::fault::ToolFault;
use crate::kept_units::KeptUnits;
use mdmp_lister::{Name, Walker};
use mdmp_source::{Store, inside};
use mdmp_summary::{Crash, FileSummary};
use mdmp_summary_lines::SummaryNames;
use mdmp_wire::{ModuleRecord, UnitsRef, get_at};
use std::alloc::Allocator;

/// A name, in memory of its own.
#[derive(Drop)]
pub(crate) enum KeptName<A: Allocator> {
    /// There is none, or the file has no good one there.
    None,
    /// Its units.
    Units(KeptUnits<A>),
    /// How many bytes it has, if those are more than the limit.
    Long(u32),
}

impl<A: Allocator> KeptName<A> {
    /// The name, lent.
    pub(crate) fn lend(&self) -> Name<'_>
        ensures { plain_name result ≡ kept_name self.now }
    {
        match self {
            KeptName::None => Name::None,
            KeptName::Units(kept) => Name::Units(UnitsRef::over(&kept.bytes)),
            KeptName::Long(length) => Name::Long(*length),
        }
    }
}

/// The names of a summary.
#[derive(Drop)]
pub(crate) struct KeptNames<A: Allocator> {
    program: KeptName<A>,
    owner: KeptName<A>,
    pub(crate) thread: KeptName<A>,
}

impl<A: Allocator> KeptNames<A> {
    /// The names, lent.
    pub(crate) fn lend(&self) -> SummaryNames<'_>
        ensures { plain_names result ≡ kept_names self.now }
    {
        SummaryNames {
            program: self.program.lend(),
            owner: self.owner.lend(),
            thread: self.thread.lend(),
        }
    }
}

/// Reads the name at an RVA, outside the listing. A name of more than `limit` bytes is told by its length.
fn read_name<S: Store + Drop, A: Allocator + Copy>(
    alloc: A,
    walker: &mut Walker<S, A>,
    rva: u64,
    limit: u32,
) -> Result<KeptName<A>, ToolFault>
    ensures name { (file : List ℕ) → walker.old.list.source.store.content ≡ Some file → IfOk result (λ kept. kept_name kept ≡ told_name file limit rva) }
    ensures reads { ReadsOutside (kept_name_cost limit result) walker.old walker.new }
    ensures few { IfOk result (λ kept. name_bytes (kept_name kept) ≤ 4 + limit) }
    ensures fault { IfErr result (IsNameFault walker.old.list.source walker.new.list.source) }
    ensures good { (file : List ℕ) → IsGood walker.old.list.source.store file → IsNoSourceFault result }
{
    let size = walker.size();
    if rva == 0 {
        return Ok(KeptName::None);
    }
    if !inside(rva, 4, size) {
        return Ok(KeptName::None);
    }
    let mut head = [0; 4];
    if let Err(fault) = walker.read_part(rva, &mut head) {
        return Err(ToolFault::Source(fault));
    }
    let length: u32 = get_at(&head, 0);
    if length % 2 == 1 {
        return Ok(KeptName::None);
    }
    if !inside(rva + 4, u64::from(length), size) {
        return Ok(KeptName::None);
    }
    if limit < length {
        return Ok(KeptName::Long(length));
    }
    let Ok(mut bytes) = vec![in alloc; 0; length as usize] else {
        return Err(ToolFault::Memory);
    };
    match walker.read_part(rva + 4, &mut bytes) {
        Ok(()) => Ok(KeptName::Units(KeptUnits { bytes })),
        Err(fault) => Err(ToolFault::Source(fault)),
    }
}

/// The RVA of a module's name, or 0.
fn module_rva(program: &Option<ModuleRecord>) -> u64
    ensures { result ≡ module_rva program.now }
{
    match program {
        Some(module) => u64::from(module.module_name_rva),
        None => 0,
    }
}

/// The RVA of the name of the module of a crash, or 0.
fn crash_rva(crash: &Option<Crash>) -> u64
    ensures { result ≡ crash_rva crash.now }
{
    match crash {
        Some(crash) => match (&crash.holder, &crash.near) {
            (Some(place), _) | (None, Some(place)) => u64::from(place.fields.module_name_rva),
            (None, None) => 0,
        },
        None => 0,
    }
}

/// The RVA of the name of the thread of a crash, or 0.
fn thread_rva(crash: &Option<Crash>) -> u64
    ensures { result ≡ thread_rva crash.now }
{
    match crash {
        Some(crash) => match &crash.thread_name {
            Some(name) => name.rva_of_thread_name,
            None => 0,
        },
        None => 0,
    }
}

/// Reads the names that a summary tells.
pub(crate) fn read_names<S: Store + Drop, A: Allocator + Copy>(
    alloc: A,
    walker: &mut Walker<S, A>,
    summary: &FileSummary,
    limit: u32,
) -> Result<KeptNames<A>, ToolFault>
    ensures names { (file : List ℕ) → walker.old.list.source.store.content ≡ Some file → IfOk result (λ kept. kept_names kept ≡ told_names file limit summary.now) }
    ensures reads { EndsNames limit (λ file. told_names file limit summary.now) result walker.old walker.new }
    ensures fault { IfErr result (IsNameFault walker.old.list.source walker.new.list.source) }
    ensures good { (file : List ℕ) → IsGood walker.old.list.source.store file → IsNoSourceFault result }
{
    let program = read_name(alloc, walker, module_rva(&summary.program), limit)?;
    let owner = read_name(alloc, walker, crash_rva(&summary.crash), limit)?;
    let thread = read_name(alloc, walker, thread_rva(&summary.crash), limit)?;
    Ok(KeptNames {
        program,
        owner,
        thread,
    })
}
