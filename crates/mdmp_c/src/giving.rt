//! What a call gives, put into the caller's memory.
ghost use Rattle.std.specs.Prelude.{◌≡◌};
ghost use Rattle.mdmp_c.specs.Fault.{status_of};
ghost use Rattle.mdmp_c.specs.Giving.{GivesList, GivesOrWants, put_front};

use crate::fault::{PlainFault, of_kind, status_of};
use crate::kinds;

/// The status of a call whose buffer was too short.
pub(crate) const TOO_SHORT: u32 = 4;

/// Puts a text at the front of a buffer, as much as it holds.
pub(crate) fn copy_text(text: &[u8], out: &mut [u8])
    ensures { out.new ≡ put_front text.now out.old }
{
    let fitting = text.len().min(out.len());
    out[..fitting].copy_from_slice(&text[..fitting]);
}

/// Puts a text into a buffer, as much as it holds, and tells how long it is and what is wrong with the
/// file.
pub(crate) fn give(
    told: PlainFault,
    text: &[u8],
    out: &mut [u8],
    size: &mut u64,
    fault: &mut PlainFault,
) -> u32
    ensures { GivesList told text.now result size.new fault.new out.old out.new }
{
    *fault = told;
    *size = text.len() as u64;
    copy_text(text, out);
    if out.len() < text.len() {
        TOO_SHORT
    } else {
        status_of(&told)
    }
}

/// Gives nothing, and tells why.
pub(crate) fn refuse(told: PlainFault, count: &mut u64, fault: &mut PlainFault) -> u32
    ensures status { result ≡ status_of told }
    ensures count { count.new ≡ 0 }
    ensures fault { fault.new ≡ told }
{
    *count = 0;
    *fault = told;
    status_of(&told)
}

/// Puts a text into a buffer, unless memory was wanting.
pub(crate) fn give_or_want(
    told: PlainFault,
    text: &[u8],
    out: &mut [u8],
    size: &mut u64,
    fault: &mut PlainFault,
) -> u32
    ensures { GivesOrWants told text.now result size.new fault.new out.old out.new }
{
    if told.kind == kinds::NO_MEMORY {
        return refuse(of_kind(kinds::NO_MEMORY), size, fault);
    }
    give(told, text, out, size, fault)
}
