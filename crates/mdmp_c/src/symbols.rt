//! What the CodeView record of a module says of its symbol file.
ghost use Rattle.std.specs.Prelude.{◌≡◌};
ghost use Rattle.mdmp_wire.specs.CodeView.{codeview_of};
ghost use Rattle.mdmp_c.specs.Limits.{AreLimits};
ghost use Rattle.mdmp_c.specs.Symbols.{GivesSymbols, IsPlaceInside, RefusesLimits, RefusesPlace, place_location, symbols_row};

use crate::fault::{NO_FAULT, PlainFault, of_kind, status_of};
use crate::kinds;
use crate::limits::{PlainLimits, limits_of};
use crate::parts::PartPlace;
use mdmp_source::inside;
use mdmp_wire::CodeView;
use std::mem::size_of;

/// What the CodeView record of a module says.
#[repr(C)]
#[derive(Clone, Copy)]
pub struct Symbols {
    /// Of the kind RSDS: the offset of the symbol file's name from the start of the file.
    pub name_offset: u64,
    /// 0 for a record of the kind RSDS, 1 for one of another kind, 2 for one that is too short.
    pub kind: u32,
    /// Of the kind RSDS: how often the symbol file was written since it got its identity.
    pub age: u32,
    /// How many bytes the name has, or the longest name of the limits if the name is longer. Its encoding is not known.
    pub name_size: u32,
    /// 1 if a zero byte ends the name, 0 if the record or the limit on names ends first.
    pub name_ended: u32,
    /// Of the kind RSDS: the symbol file's identity, in the order in which it is printed.
    pub guid: [u8; 16],
    /// Of another kind: the first four bytes.
    pub signature: [u8; 4],
    /// Zeros.
    pub reserved: [u32; 3],
}

const _: () = prove!(size_of::<Symbols>() == 56);

const NO_SYMBOLS: Symbols = Symbols {
    name_offset: 0,
    kind: 0,
    age: 0,
    name_size: 0,
    name_ended: 0,
    guid: [0; 16],
    signature: [0; 4],
    reserved: [0; 3],
};

/// Gives what the CodeView record at a place says, as the `codeview` of a module. It reads no more bytes of the symbol
/// file's name than the longest name of the limits has.
#[unsafe(no_mangle)]
pub extern "C" fn mdmp_symbols_(
    file: &[u8],
    limits: &PlainLimits,
    place: &PartPlace,
    out: &mut Symbols,
    fault: &mut PlainFault,
) -> u32
    ensures inside { AreLimits limits.now → IsPlaceInside file.now place.now → GivesSymbols file.now limits.now.name place.now result fault.new out.new }
    ensures outside { AreLimits limits.now → (IsPlaceInside file.now place.now → ⊥) → RefusesPlace place.now result fault.new out.new }
    ensures limits { (AreLimits limits.now → ⊥) → RefusesLimits result fault.new out.new }
{
    let Some(limits) = limits_of(limits) else {
        *out = NO_SYMBOLS;
        *fault = of_kind(kinds::BAD_LIMITS);
        return status_of(fault);
    };
    let at = u64::from(place.rva);
    let size = u64::from(place.size);
    if place.size == 0 || !inside(at, size, file.len() as u64) {
        *out = NO_SYMBOLS;
        *fault = PlainFault {
            offset: at,
            size,
            part: 3,
            ..of_kind(kinds::PART_OUTSIDE)
        };
        return 1;
    }
    *out = symbols_at(file, place, limits.name);
    *fault = NO_FAULT;
    0
}

/// What the CodeView record at a place inside the file tells, of whose name at most `limit` bytes are read.
#[tactic(auto, unfolding(mdmp_wire::specs::Number::array_at))]
fn symbols_at(file: &[u8], place: &PartPlace, limit: u32) -> Symbols
    requires { IsPlaceInside file.now place.now }
    ensures { result ≡ symbols_row place.now (codeview_of file.now (place_location place.now) limit) }
{
    let start = place.rva as usize;
    let size = place.size as usize;
    let middle = start + size.min(24);
    let rest = size.saturating_sub(24).min(limit as usize);
    match CodeView::read(
        &file[start..middle],
        &file[middle..middle + rest],
        place.size,
    ) {
        CodeView::Rsds {
            guid,
            age,
            name,
            ended,
        } => Symbols {
            age,
            guid: guid.into_bytes(),
            name_offset: middle as u64,
            name_size: (name.len() % (1 << 32)) as u32,
            name_ended: if ended { 1 } else { 0 },
            ..NO_SYMBOLS
        },
        CodeView::Other { signature, size: _ } => Symbols {
            kind: 1,
            signature,
            ..NO_SYMBOLS
        },
        CodeView::Short { size: _ } => Symbols {
            kind: 2,
            ..NO_SYMBOLS
        },
    }
}
