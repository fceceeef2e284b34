//! The words of a fault, put into a buffer.
ghost use Rattle.std.specs.Prelude.{◌≡◌, Some};
ghost use Rattle.std.specs.Option.{option_map};
ghost use Rattle.mdmp_c.specs.FaultText.{TellsWords, fault_in, fixed_words};

use crate::fault::{NO_FAULT, PlainFault, of_kind};
use crate::giving::{give, refuse};
use crate::kinds;
use crate::told_fault::fault_in;
use mdmp_engines::{ToolFault, fault_line};
use mdmp_source::WriteOut;
use std::alloc::Global;

/// The words of a fault that no command tells, or in other words, and that its kind says all of.
fn fixed_words(kind: u32) -> Option<&'static str>
    ensures { option_map (λ text. text.now) result ≡ fixed_words kind }
{
    match kind {
        0 => Some(""),
        kinds::BAD_LIMITS => Some("bad limits"),
        kinds::BAD_TYPES => Some("between 1 and 16 types of streams are copied at a time"),
        kinds::STORE => Some("store failed"),
        kinds::LENGTHS_DIFFER => Some("lengths differ"),
        _ => None,
    }
}

/// Puts the words of a fault that ends a command into a buffer.
fn give_line(
    alloc: Global,
    plain: &PlainFault,
    fault: &ToolFault,
    out: &mut [u8],
    size: &mut u64,
) -> u32
    requires { fault_in plain.now ≡ Some fault.now }
    ensures { TellsWords plain.now result size.new out.old out.new }
{
    let mut ignored = NO_FAULT;
    let mut line = WriteOut::new(Vec::new(alloc));
    let written = fault_line(fault, &mut line);
    let line = line.into_inner();
    match written {
        Ok(()) => give(NO_FAULT, &line[6..line.len() - 1], out, size, &mut ignored),
        Err(_) => refuse(of_kind(kinds::NO_MEMORY), size, &mut ignored),
    }
}

/// Puts the words of a fault into a buffer, if it is one.
pub(crate) fn give_words(alloc: Global, plain: &PlainFault, out: &mut [u8], size: &mut u64) -> u32
    ensures { TellsWords plain.now result size.new out.old out.new }
{
    let mut ignored = NO_FAULT;
    if let Some(fault) = fault_in(plain) {
        return give_line(alloc, plain, &fault, out, size);
    }
    if plain.kind == 64 {
        return match format!(in alloc; "{} bad entries", plain.size) {
            Ok(text) => give(NO_FAULT, text.as_bytes(), out, size, &mut ignored),
            Err(_) => refuse(of_kind(kinds::NO_MEMORY), size, &mut ignored),
        };
    }
    match fixed_words(plain.kind) {
        Some(text) => give(NO_FAULT, text.as_bytes(), out, size, &mut ignored),
        None => {
            *size = 0;
            2
        }
    }
}
