//! A summary as a plain structure.
ghost use Rattle.std.specs.Prelude.{◌≡◌};
ghost use Rattle.mdmp_c.specs.Giving.{told_count};
ghost use Rattle.mdmp_c.specs.SummaryRows.{access_told, address_reached, counts_row, crash_found, crash_row, flag_of, outside_fault, first_outside_fault, registers_row, summary_row, thread_name_place};

use crate::fault::{NO_FAULT, PlainFault, of_kind};
use crate::header_rows::{HeaderRow, header_row};
use crate::kinds;
use crate::parts::{NamePlace, PartPlace};
use crate::rows::{ExceptionRow, exception_fields};
use crate::summary_modules::{
    NO_NAME, PlaceInModuleRow, SummaryModuleRow, SummarySystemRow, name_place_at,
    place_in_module_row, program_row, summary_system_row,
};
use crate::table::list_end;
use crate::tool_fault::part_number;
use mdmp_summary::{AccessKind, Crash, FileSummary, ItemCounts, PartOutside, Reached, Registers};
use mdmp_wire::ThreadNameRecord;
use std::mem::size_of;

/// The registers of a thread, or zeros.
#[repr(C)]
#[derive(Clone, Copy)]
pub struct RegistersRow {
    /// The instruction pointer.
    pub instruction: u64,
    /// The stack pointer.
    pub stack: u64,
    /// The frame pointer.
    pub frame: u64,
}

const _: () = prove!(size_of::<RegistersRow>() == 24);

/// How many items of each kind there are.
#[repr(C)]
#[derive(Clone, Copy)]
pub struct CountsRow {
    pub streams: u64,
    pub threads: u64,
    pub modules: u64,
    pub exceptions: u64,
    /// Ranges of memory, of both kinds of memory list.
    pub ranges: u64,
    /// The bytes of the ranges that lie inside the file: the low 64 bits.
    pub memory: u64,
    /// The high 64 bits.
    pub memory_high: u64,
}

const _: () = prove!(size_of::<CountsRow>() == 56);

/// The crash of a dump.
#[repr(C)]
#[derive(Clone, Copy)]
pub struct CrashRow {
    /// The record.
    pub exception: ExceptionRow,
    /// The first name of the thread.
    pub thread_name: NamePlace,
    /// The address that ran.
    pub address: u64,
    /// The registers, if `has_registers` is 1.
    pub registers: RegistersRow,
    /// The first module that holds the address, if `has_module` is 1.
    pub module: PlaceInModuleRow,
    /// If no module holds it, the one with the greatest base at or below it, if `has_near` is 1.
    pub near: PlaceInModuleRow,
    /// The address that the thread tried to reach, if `access` is not 0.
    pub reached: u64,
    /// What the thread tried to do there: 1 to read, 2 to write, 3 to execute, 4 not known; 0 if there is no such address.
    pub access: u32,
    pub has_registers: u32,
    pub has_module: u32,
    pub has_near: u32,
}

const _: () = prove!(size_of::<CrashRow>() == 424);

/// What a dump tells of a crash and of itself.
#[repr(C)]
#[derive(Clone, Copy)]
pub struct SummaryRow {
    /// The header of the file.
    pub header: HeaderRow,
    /// How many items of each kind there are.
    pub counts: CountsRow,
    /// How many entries have an error.
    pub bad_entries: u64,
    /// The first of these errors.
    pub first_error: PlainFault,
    /// How many parts of records lie outside the file.
    pub parts_outside: u64,
    /// The first of these parts.
    pub first_outside: PlainFault,
    /// The crash, if `has_crash` is 1.
    pub crash: CrashRow,
    /// The first module, if `has_program` is 1.
    pub program: SummaryModuleRow,
    /// The first system, if `has_system` is 1.
    pub system: SummarySystemRow,
    pub has_crash: u32,
    pub has_program: u32,
    pub has_system: u32,
    /// 0.
    pub reserved: u32,
}

const _: () = prove!(size_of::<SummaryRow>() == 840);

const NO_EXCEPTION: ExceptionRow = ExceptionRow {
    index: 0,
    exception_record: 0,
    exception_address: 0,
    information: [0; 15],
    entry: 0,
    thread_id: 0,
    exception_code: 0,
    exception_flags: 0,
    number_parameters: 0,
    context: PartPlace {
        size: 0,
        rva: 0,
        extent: 0,
        reserved: 0,
    },
    reserved: [0; 3],
};

/// 1 for true, 0 for false.
fn flag_of(holds: bool) -> u32
    ensures { result ≡ flag_of holds }
{
    if holds { 1 } else { 0 }
}

/// A count as 64 bits have it: the greatest, if it is greater.
fn capped(count: u128) -> u64
    ensures { result ≡ told_count count }
{
    if count < 1 << 64 {
        count as u64
    } else {
        u64::MAX
    }
}

/// The counts as a plain structure.
fn counts_row(counts: &ItemCounts) -> CountsRow
    ensures { result ≡ counts_row counts.now }
{
    CountsRow {
        streams: capped(counts.streams),
        threads: capped(counts.threads),
        modules: capped(counts.modules),
        exceptions: capped(counts.exceptions),
        ranges: capped(counts.ranges),
        memory: (counts.memory % (1 << 64)) as u64,
        memory_high: (counts.memory / (1 << 64)) as u64,
    }
}

/// The registers, or zeros.
fn registers_row(registers: Option<Registers>) -> RegistersRow
    ensures { result ≡ registers_row registers }
{
    match registers {
        Some(x) => RegistersRow {
            instruction: x.instruction,
            stack: x.stack,
            frame: x.frame,
        },
        None => RegistersRow {
            instruction: 0,
            stack: 0,
            frame: 0,
        },
    }
}

/// The number of an access.
fn access_told(reached: Option<Reached>) -> u32
    ensures { result ≡ access_told reached }
{
    match reached {
        None => 0,
        Some(reached) => match reached.access {
            AccessKind::Read => 1,
            AccessKind::Write => 2,
            AccessKind::Execute => 3,
            AccessKind::Unknown => 4,
        },
    }
}

/// The address that was to be reached, or 0.
fn address_reached(reached: Option<Reached>) -> u64
    ensures { result ≡ address_reached reached }
{
    match reached {
        Some(reached) => reached.address,
        None => 0,
    }
}

/// A part outside the file as a plain fault.
pub(crate) fn outside_fault(part: PartOutside) -> PlainFault
    ensures { result ≡ outside_fault part }
{
    PlainFault {
        entry: part.entry,
        index: part.index,
        offset: (part.offset % (1 << 64)) as u64,
        size: part.size,
        high: (part.offset / (1 << 64)) as u64,
        part: part_number(part.part),
        has_index: 1,
        ..of_kind(kinds::PART_OUTSIDE)
    }
}

/// The first part outside the file, or none.
fn first_outside_fault(part: Option<PartOutside>) -> PlainFault
    ensures { result ≡ first_outside_fault part }
{
    match part {
        Some(part) => outside_fault(part),
        None => NO_FAULT,
    }
}

/// The place of a thread's name.
fn thread_name_place(file: &[u8], limit: u32, name: &Option<ThreadNameRecord>) -> NamePlace
    ensures { result ≡ thread_name_place file.now limit name.now }
{
    match name {
        Some(name) => name_place_at(file, name.rva_of_thread_name, limit),
        None => NO_NAME,
    }
}

/// The crash of a file as a plain structure.
fn crash_found(file: &[u8], limit: u32, crash: &Crash) -> CrashRow
    ensures { result ≡ crash_found file.now limit crash.now }
{
    CrashRow {
        exception: exception_fields(&crash.exception),
        thread_name: thread_name_place(file, limit, &crash.thread_name),
        address: crash.address,
        registers: registers_row(crash.registers),
        module: place_in_module_row(file, limit, &crash.holder),
        near: place_in_module_row(file, limit, &crash.near),
        reached: address_reached(crash.reached),
        access: access_told(crash.reached),
        has_registers: flag_of(crash.registers.is_some()),
        has_module: flag_of(crash.holder.is_some()),
        has_near: flag_of(crash.near.is_some()),
    }
}

/// The crash, or zeros if there is none.
fn crash_row(file: &[u8], limit: u32, crash: &Option<Crash>) -> CrashRow
    ensures { result ≡ crash_row file.now limit crash.now }
{
    match crash {
        Some(crash) => crash_found(file, limit, crash),
        None => CrashRow {
            exception: NO_EXCEPTION,
            thread_name: NO_NAME,
            address: 0,
            registers: registers_row(None),
            module: place_in_module_row(file, limit, &None),
            near: place_in_module_row(file, limit, &None),
            reached: 0,
            access: 0,
            has_registers: 0,
            has_module: 0,
            has_near: 0,
        },
    }
}

/// The summary of a file as a plain structure. Of a name at most `limit` bytes are read.
pub(crate) fn summary_row(file: &[u8], limit: u32, summary: &FileSummary) -> SummaryRow
    ensures { result ≡ summary_row file.now limit summary.now }
{
    SummaryRow {
        header: header_row(&summary.header),
        counts: counts_row(&summary.counts),
        bad_entries: summary.bad.count,
        first_error: list_end(summary.bad.first),
        parts_outside: capped(summary.outside.count),
        first_outside: first_outside_fault(summary.outside.first),
        crash: crash_row(file, limit, &summary.crash),
        program: program_row(file, limit, &summary.program),
        system: summary_system_row(file, limit, &summary.system),
        has_crash: flag_of(summary.crash.is_some()),
        has_program: flag_of(summary.program.is_some()),
        has_system: flag_of(summary.system.is_some()),
        reserved: 0,
    }
}
