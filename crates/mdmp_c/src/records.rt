//! Calls that give an array of records. Made by bindings/generate from bindings/interface.toml.
ghost use Rattle.std.specs.Prelude.{◌∷◌, []};
ghost use Rattle.mdmp_c.specs.Giving.{Ends, bad_limits};
ghost use Rattle.mdmp_c.specs.Limits.{AreLimits, EndsListing, KeepsListing};
ghost use Rattle.mdmp_c.specs.Rows.{exception_row, module_row, range_row, region_row, system_row, thread_name_row, thread_row, unloaded_row};
ghost use Rattle.mdmp_c.specs.Table.{IsTable};
ghost use Rattle.mdmp_lister.specs.declared.choice.Choice.TheVariants.{Types};
ghost use Rattle.mdmp_lister.specs.Format.Listing.{memory_lists};

use crate::fault::PlainFault;
use crate::limits::PlainLimits;
use crate::rows::{
    ExceptionRow, ModuleRow, RangeRow, RegionRow, SystemRow, ThreadNameRow, ThreadRow, UnloadedRow,
};
use crate::table::{give_rows, only};
use mdmp_lister::Choice;
use std::alloc::Global;

/// Gives the threads, `ThreadListStream`: as many as `out` has room for, and in `count` how many there are, up to the first error.
#[unsafe(no_mangle)]
pub extern "C" fn mdmp_threads_(
    alloc: Global,
    file: &[u8],
    limits: &PlainLimits,
    out: &mut [ThreadRow],
    count: &mut u64,
    fault: &mut PlainFault,
) -> u32
    ensures { Ends (IsTable thread_row file.now (Types (3 ∷ [])) limits.now.name) (AreLimits limits.now) (KeepsListing limits.now file.now (Types (3 ∷ []))) (EndsListing limits.now file.now (Types (3 ∷ []))) bad_limits result count.new fault.new out.old out.new }
{
    give_rows(alloc, file, limits, only(3), out, count, fault)
}

/// Gives the modules, `ModuleListStream`: as many as `out` has room for, and in `count` how many there are, up to the first error.
#[unsafe(no_mangle)]
pub extern "C" fn mdmp_modules_(
    alloc: Global,
    file: &[u8],
    limits: &PlainLimits,
    out: &mut [ModuleRow],
    count: &mut u64,
    fault: &mut PlainFault,
) -> u32
    ensures { Ends (IsTable module_row file.now (Types (4 ∷ [])) limits.now.name) (AreLimits limits.now) (KeepsListing limits.now file.now (Types (4 ∷ []))) (EndsListing limits.now file.now (Types (4 ∷ []))) bad_limits result count.new fault.new out.old out.new }
{
    give_rows(alloc, file, limits, only(4), out, count, fault)
}

/// Gives the exceptions, `ExceptionStream`: as many as `out` has room for, and in `count` how many there are, up to the first error.
/// Most files have at most one.
#[unsafe(no_mangle)]
pub extern "C" fn mdmp_exceptions_(
    alloc: Global,
    file: &[u8],
    limits: &PlainLimits,
    out: &mut [ExceptionRow],
    count: &mut u64,
    fault: &mut PlainFault,
) -> u32
    ensures { Ends (IsTable exception_row file.now (Types (6 ∷ [])) limits.now.name) (AreLimits limits.now) (KeepsListing limits.now file.now (Types (6 ∷ []))) (EndsListing limits.now file.now (Types (6 ∷ []))) bad_limits result count.new fault.new out.old out.new }
{
    give_rows(alloc, file, limits, only(6), out, count, fault)
}

/// Gives the system, `SystemInfoStream`: as many as `out` has room for, and in `count` how many there are, up to the first error.
/// Most files have at most one.
#[unsafe(no_mangle)]
pub extern "C" fn mdmp_systems_(
    alloc: Global,
    file: &[u8],
    limits: &PlainLimits,
    out: &mut [SystemRow],
    count: &mut u64,
    fault: &mut PlainFault,
) -> u32
    ensures { Ends (IsTable system_row file.now (Types (7 ∷ [])) limits.now.name) (AreLimits limits.now) (KeepsListing limits.now file.now (Types (7 ∷ []))) (EndsListing limits.now file.now (Types (7 ∷ []))) bad_limits result count.new fault.new out.old out.new }
{
    give_rows(alloc, file, limits, only(7), out, count, fault)
}

/// Gives the unloaded modules, `UnloadedModuleListStream`: as many as `out` has room for, and in `count` how many there are, up to the first error.
#[unsafe(no_mangle)]
pub extern "C" fn mdmp_unloaded_(
    alloc: Global,
    file: &[u8],
    limits: &PlainLimits,
    out: &mut [UnloadedRow],
    count: &mut u64,
    fault: &mut PlainFault,
) -> u32
    ensures { Ends (IsTable unloaded_row file.now (Types (14 ∷ [])) limits.now.name) (AreLimits limits.now) (KeepsListing limits.now file.now (Types (14 ∷ []))) (EndsListing limits.now file.now (Types (14 ∷ []))) bad_limits result count.new fault.new out.old out.new }
{
    give_rows(alloc, file, limits, only(14), out, count, fault)
}

/// Gives the regions of memory, `MemoryInfoListStream`: as many as `out` has room for, and in `count` how many there are, up to the first error.
#[unsafe(no_mangle)]
pub extern "C" fn mdmp_regions_(
    alloc: Global,
    file: &[u8],
    limits: &PlainLimits,
    out: &mut [RegionRow],
    count: &mut u64,
    fault: &mut PlainFault,
) -> u32
    ensures { Ends (IsTable region_row file.now (Types (16 ∷ [])) limits.now.name) (AreLimits limits.now) (KeepsListing limits.now file.now (Types (16 ∷ []))) (EndsListing limits.now file.now (Types (16 ∷ []))) bad_limits result count.new fault.new out.old out.new }
{
    give_rows(alloc, file, limits, only(16), out, count, fault)
}

/// Gives the names of threads, `ThreadNamesStream`: as many as `out` has room for, and in `count` how many there are, up to the first error.
#[unsafe(no_mangle)]
pub extern "C" fn mdmp_thread_names_(
    alloc: Global,
    file: &[u8],
    limits: &PlainLimits,
    out: &mut [ThreadNameRow],
    count: &mut u64,
    fault: &mut PlainFault,
) -> u32
    ensures { Ends (IsTable thread_name_row file.now (Types (24 ∷ [])) limits.now.name) (AreLimits limits.now) (KeepsListing limits.now file.now (Types (24 ∷ []))) (EndsListing limits.now file.now (Types (24 ∷ []))) bad_limits result count.new fault.new out.old out.new }
{
    give_rows(alloc, file, limits, only(24), out, count, fault)
}

/// Gives the ranges of memory whose bytes a file may have, `MemoryListStream` and `Memory64ListStream`: as many as `out` has room for, and in `count` how many there are, up to the first error.
#[unsafe(no_mangle)]
pub extern "C" fn mdmp_ranges_(
    alloc: Global,
    file: &[u8],
    limits: &PlainLimits,
    out: &mut [RangeRow],
    count: &mut u64,
    fault: &mut PlainFault,
) -> u32
    ensures { Ends (IsTable range_row file.now memory_lists limits.now.name) (AreLimits limits.now) (KeepsListing limits.now file.now memory_lists) (EndsListing limits.now file.now memory_lists) bad_limits result count.new fault.new out.old out.new }
{
    give_rows(
        alloc,
        file,
        limits,
        Choice::memory_lists(),
        out,
        count,
        fault,
    )
}
