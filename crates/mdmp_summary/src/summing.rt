//! A summary, made by two passes over a file.
ghost use Rattle.std.specs.Prelude.{◌≡◌, ℕ, List, None, Some, false, IfErr, IfOk, MatchResult};
ghost use Rattle.std.specs.Option.{option_map};
ghost use Rattle.mdmp_source.specs.Store.{IsGood};
ghost use Rattle.mdmp_lister.specs.Memory.{walk_fault};
ghost use Rattle.mdmp_lister.specs.Walker.{is_failed};
ghost use Rattle.mdmp_lister.specs.declared.choice.Choice.TheVariants.{All};
ghost use Rattle.mdmp_summary.specs.BadEntries.{all_items};
ghost use Rattle.mdmp_summary.specs.Summary.{address_ran, crash_told, near_of, place_in_module, platform_in, file_summary};
ghost use Rattle.mdmp_summary.specs.Summing.{IsCallFault, IsFileFault, IsSummarizedThrough, IsSummaryFault, IsUnreadIn, SpendsCrash, SpendsSummary, passes_for};
ghost use Rattle.mdmp_lister.specs.NamesFetched.{FetchesNames};
ghost use Rattle.mdmp_summary.specs.Walking.{KeepsItsBudget};

use crate::context::Registers;
use crate::context_reading::read_registers;
use crate::crash::Platform;
use crate::passes::{gather_all, search_all};
use crate::reach::reached_on;
use crate::summary::{Crash, FileSummary, PlaceInModule, SummaryFault};
use mdmp_lister::{Choice, ExceptionItem, Limits, OpenRefused, Walker};
use mdmp_source::{LetGo, Source, Store};
use mdmp_wire::{ModuleRecord, SystemRecord};
use std::alloc::Allocator;

/// The platform that a system record names.
fn platform_in(system: &Option<SystemRecord>) -> Platform
    ensures { result ≡ platform_in system.now }
{
    match system {
        Some(system) => Platform::of_id(system.platform_id),
        None => Platform::Other,
    }
}

/// The address that ran.
fn address_ran(platform: Platform, address: u64, registers: Option<Registers>) -> u64
    ensures { result ≡ address_ran platform address registers }
{
    match (platform, registers) {
        (Platform::Windows, _) | (_, None) => address,
        (Platform::Linux | Platform::Apple | Platform::Other, Some(registers)) =>
            registers.instruction,
    }
}

/// A module, and how far an address is above its base.
fn place_in_module(address: u64, fields: Option<ModuleRecord>) -> Option<PlaceInModule>
    ensures { result ≡ option_map (place_in_module address) fields }
{
    match fields {
        Some(fields) => Some(PlaceInModule {
            fields,
            offset: address.saturating_sub(fields.base_of_image),
        }),
        None => None,
    }
}

/// The nearest module, if no module holds the address.
fn near_of(holder: Option<ModuleRecord>, nearest: Option<ModuleRecord>) -> Option<ModuleRecord>
    ensures { result ≡ near_of holder nearest }
{
    match holder {
        Some(_) => None,
        None => nearest,
    }
}

/// Tells the crash that an exception is, by the system of the dump.
fn tell_crash<S: Store + Drop, A: Allocator + Copy>(
    walker: &mut Walker<S, A>,
    system: Option<SystemRecord>,
    exception: ExceptionItem,
) -> Result<Crash, SummaryFault>
    requires all { walker.old.list.choice ≡ All }
    requires going { is_failed walker.old.list.stop ≡ false }
    ensures tells { (file : List ℕ) → walker.old.list.source.store.content ≡ Some file
        → IfOk result (λ crash. crash ≡ crash_told file (all_items file walker.old.list.limit) system exception) }
    ensures fault { IfErr result (IsCallFault walker.old.list walker.new.list) }
    ensures good { (file : List ℕ) → IsGood walker.old.list.source.store file → IfErr result (λ fault. IsUnreadIn fault → ⊥) }
    ensures spends { SpendsCrash result walker.old walker.new }
    ensures keeps { KeepsItsBudget walker.old.list walker.new.list }
    ensures going { IfOk result (λ told. is_failed walker.new.list.stop ≡ false) }
    ensures named { (file : List ℕ) → walker.old.list.source.store.content ≡ Some file
        → IfOk result (λ _. FetchesNames 1 (all_items file walker.old.list.limit) walker.old.list.counts.fetched walker.new.list.counts.fetched) }
{
    let registers = match read_registers(walker, system, exception.fields.thread_context) {
        Ok(registers) => registers,
        Err(fault) => {
            // The proof learns here that the walker kept to its read limit.
            let _counts = walker.counts();
            return Err(SummaryFault::Source(fault));
        }
    };
    let platform = platform_in(&system);
    let address = address_ran(platform, exception.fields.exception_address, registers);
    match search_all(walker, address, exception.fields.thread_id) {
        Ok(search) => Ok(Crash {
            exception,
            registers,
            address,
            reached: reached_on(platform, &exception.fields),
            holder: place_in_module(address, search.holder),
            near: place_in_module(address, near_of(search.holder, search.nearest)),
            thread_name: search.name,
        }),
        Err(fault) => Err(SummaryFault::List(fault)),
    }
}

/// Makes the summary of the file that a walker has open: by one pass over all entries and, if there is a
/// crash, a second one. It begins at the first entry, whatever the walker gave before. It takes no memory.
///
/// Both passes count against the walker's read limit. Of a context at most 272 bytes are read outside the
/// listing, so they do not count.
///
/// It returns an error only if the store failed or the read limit was reached. After an error nothing more
/// is read.
pub fn summarize_listing<S: Store + Drop, A: Allocator + Copy>(
    walker: &mut Walker<S, A>,
) -> Result<FileSummary, SummaryFault>
    requires all { walker.old.list.choice ≡ All }
    requires going { is_failed walker.old.list.stop ≡ false }
    ensures sums { (file : List ℕ) → walker.old.list.source.store.content ≡ Some file
        → IfOk result (λ summary. summary ≡ file_summary file walker.old.list.limit) }
    ensures fault { IfErr result (IsCallFault walker.old.list walker.new.list) }
    ensures good { (file : List ℕ) → IsGood walker.old.list.source.store file → IfErr result (λ fault. IsUnreadIn fault → ⊥) }
    ensures spends { SpendsSummary result walker.old walker.new }
    ensures keeps { KeepsItsBudget walker.old.list walker.new.list }
    ensures going { IfOk result (λ told. is_failed walker.new.list.stop ≡ false) }
    // A walker that has fetched no less kept to its read limit only if the names of each pass are within that.
    ensures named { (file : List ℕ) → walker.old.list.source.store.content ≡ Some file
        → IfOk result (λ summary. FetchesNames (passes_for summary.crash) (all_items file walker.old.list.limit) walker.old.list.counts.fetched walker.new.list.counts.fetched) }
{
    let header = walker.header();
    let told = match gather_all(walker) {
        Ok(told) => told,
        Err(fault) => return Err(SummaryFault::List(fault)),
    };
    let system = told.gathering.system;
    let Some(exception) = told.gathering.exceptions.crash(platform_in(&system)) else {
        return Ok(told.summary(header, None));
    };
    let crash = tell_crash(walker, system, exception)?;
    Ok(told.summary(header, Some(crash)))
}

/// Opens a file and makes its summary. Memory is taken while the file is opened: the window, the directory
/// and a name, whose sum the limits bound. No memory is taken after that.
///
/// The read limit holds for the opening and both passes together.
pub fn summarize<S: Store + Drop, A: Allocator + Copy>(
    alloc: A,
    source: Source<S>,
    limits: Limits,
) -> Result<FileSummary, SummaryFault>
where
    Source<S>: LetGo,
    ensures sums { (file : List ℕ) → source.store.content ≡ Some file
        → MatchResult result (λ summary. (walk_fault limits file ≡ None) × (summary ≡ file_summary file limits.name)) (IsSummaryFault limits file) }
    // If each read succeeds and there is no read limit, only the file itself or too little memory is an error.
    ensures succeeds { (file : List ℕ) → IsGood source.store file → limits.budget ≡ None → IfErr result (IsFileFault limits file) }
    // The source is dropped as the last of these reads left it.
    ensures through { IsSummarizedThrough ⟦<Source<S> as LetGo>⟧.may_go limits source result }
{
    match Walker::open(alloc, source, limits, Choice::All) {
        Ok(mut walker) => {
            let answer = summarize_listing(&mut walker);
            walker.into_source().let_go();
            answer
        }
        Err(
            OpenRefused {
                fault,
                source: left,
            },
        ) => {
            left.let_go();
            Err(SummaryFault::Opening(fault))
        }
    }
}
