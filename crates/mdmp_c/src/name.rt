//! A name as text.
ghost use Rattle.mdmp_c.specs.Giving.{Ends, bad_limits};
ghost use Rattle.mdmp_c.specs.Names.{IsToldName};

use crate::fault::{NO_FAULT, PlainFault, of_kind};
use crate::giving::{give, refuse};
use crate::kinds;
use crate::naming::{long_fault, name_fault};
use mdmp_lister::{Name, name_at};
use std::alloc::Global;

/// Gives the name at `rva`, an offset from the start of the file, as UTF-8, with U+FFFD for each
/// surrogate without its other half. If `rva` is 0, there is no name, and the text is empty.
#[unsafe(no_mangle)]
pub extern "C" fn mdmp_name_(
    alloc: Global,
    file: &[u8],
    rva: u64,
    limit: u32,
    out: &mut [u8],
    size: &mut u64,
    fault: &mut PlainFault,
) -> u32
    ensures { Ends (IsToldName file.now rva limit) (Unit {0}) (Unit {0}) (λ _. ⊥) bad_limits result size.new fault.new out.old out.new }
{
    match name_at(file, rva, limit) {
        Ok(Name::None) => give(NO_FAULT, &[], out, size, fault),
        Ok(Name::Units(units)) => match units.to_utf8(alloc) {
            Ok(text) => give(NO_FAULT, text.as_bytes(), out, size, fault),
            Err(_) => refuse(of_kind(kinds::NO_MEMORY), size, fault),
        },
        Ok(Name::Long(length)) => give(long_fault(length), &[], out, size, fault),
        Err(found) => give(name_fault(found), &[], out, size, fault),
    }
}
