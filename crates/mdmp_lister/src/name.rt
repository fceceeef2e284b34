//! The name of an item, and the one at an RVA of a whole file.
ghost use Rattle.std.specs.Prelude.{◌≡◌, ◌≤◌, ◌+◌, ◌%◌, ◌==◌, if◌then◌else◌, not};
ghost use Rattle.mdmp_source.specs.Range.{is_inside};
ghost use Rattle.std.specs.Result.{result_map_both};
ghost use Rattle.mdmp_lister.specs.Format.Name.{name_at, plain_name};

use crate::fault::{Fault, FaultKind, faulted};
use mdmp_source::inside;
use mdmp_wire::{UnitsRef, get_at};

/// The name of a module, of a service pack, or of a thread: a `MINIDUMP_STRING`.
#[derive(Debug, Drop, PartialEq, Eq)]
pub enum Name<'a> {
    /// The RVA of the name is 0.
    None,
    /// Its units, which may be none at all. No zero unit is looked for behind them.
    Units(UnitsRef<'a>),
    /// How many bytes it has, where those are more than the limit: they are not read.
    Long(u32),
}

/// Answers the fault of a name whose length stands at `at` in a file of `size` bytes, if it has one: an
/// odd length, units outside.
pub(crate) fn check_units(at: u64, length: u32, size: u64) -> Result<(), Fault>
    requires { at + 4 ≤ size }
    ensures { result ≡ (
        if length % 2 == 1 then Err (record { kind = FaultKind.NameOdd; offset = at; size = length })
        else if not (is_inside (at + 4) length size) then Err (record { kind = FaultKind.NameUnitsOutside; offset = at + 4; size = length })
        else Ok tt) }
{
    let bytes = u64::from(length);
    if length % 2 == 1 {
        return faulted(FaultKind::NameOdd, at, bytes);
    }
    if !inside(at + 4, bytes, size) {
        return faulted(FaultKind::NameUnitsOutside, at + 4, bytes);
    }
    Ok(())
}

/// The name at `rva`, an offset from the start of the file, or its fault: a length outside the file,
/// an odd one, units outside. A name of more than `limit` bytes is told by its length. No zero unit
/// is looked for behind the units.
#[tactic(auto, unfolding(crate::specs::Format::Name::name_at, mdmp_wire::specs::Number::array_at))]
pub fn name_at(file: &[u8], rva: u64, limit: u32) -> Result<Name<'_>, Fault>
    ensures { result_map_both plain_name (λ f. f) result ≡ name_at file.now rva limit }
{
    let size = file.len() as u64;
    if rva == 0 {
        return Ok(Name::None);
    }
    if !inside(rva, 4, size) {
        return faulted(FaultKind::NameLengthOutside, rva, 4);
    }
    let start = rva as usize;
    let length: u32 = get_at(file, start);
    check_units(rva, length, size)?;
    if limit < length {
        return Ok(Name::Long(length));
    }
    let end = start + 4 + length as usize;
    Ok(Name::Units(UnitsRef::over(&file[start + 4..end])))
}
