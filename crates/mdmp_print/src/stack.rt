//! The stack of a thread: where it begins, and what it is in the file.
ghost use Rattle.std.specs.Prelude.{◌++◌, codes, refl, true};
ghost use Rattle.mdmp_wire.specs.Digits.{hex};
ghost use Rattle.mdmp_print.specs.ItemLines.{extent_text};
ghost use Rattle.mdmp_print.specs.Joined.{joined-stack};
ghost use Rattle.mdmp_print.specs.Json.{of_hex};
ghost use Rattle.mdmp_print.specs.Shown.{IsPrinted-start, in_quotes, keyed};

use crate::extent::{PartMembers, PartText};
use crate::fields::Value;
use crate::hex::{Hex16, Prefixed};
use crate::piece::Piece;
use crate::values::{InQuotes, Json, NextMember, Object};

/// Where a stack begins, and what it is in the file.
#[derive(Clone, Copy)]
pub struct Stack(pub u64, pub PartText);

impl Piece for Stack {
    ghost text = { λ p. codes "0x" ++ (hex 16 p.0 ++ (codes " " ++ extent_text p.1.0 p.1.1.size p.1.1.rva)) };

    ghost before = { λ p more. codes "0x" ++ (hex 16 p.0 ++ (codes " " ++ (extent_text p.1.0 p.1.1.size p.1.1.rva ++ more))) };

    ghost most = { 70 };

    ghost joined = { λ p more. joined-stack (hex 16 p.0) (extent_text p.1.0 p.1.1.size p.1.1.rva) more };

    #[inline(always)]
    fn write_at(&self, buffer: &mut [u8], at: usize) -> usize {
        let at = b"0x".write_at(buffer, at);
        let at = Hex16(self.0).write_at(buffer, at);
        let at = b" ".write_at(buffer, at);
        self.1.write_at(buffer, at)
    }
}

impl Value for Stack {
    type Json = Object<StackStart, NextMember<PartMembers>>;

    ghost json_of = { λ p. record { 0 = record { 0 = p.0 }; 1 = record { 0 = record { 0 = p.1.0; 1 = p.1.1 } } } };

    #[inline(always)]
    fn json(&self) -> Object<StackStart, NextMember<PartMembers>> {
        Object(
            StackStart(self.0),
            NextMember(PartMembers(self.1.0, self.1.1)),
        )
    }
}

/// The member that says where a stack begins.
#[derive(Clone, Copy)]
pub struct StackStart(pub u64);

impl Piece for StackStart {
    ghost text = { λ p. keyed (codes "start") (in_quotes (codes "0x" ++ hex 16 p.0)) };

    ghost before = { λ p more. (keyed (codes "start") (in_quotes (codes "0x" ++ hex 16 p.0))) ++ more };

    ghost most = { 40 };

    ghost joined = { λ p more. refl };

    #[inline(always)]
    fn write_at(&self, buffer: &mut [u8], at: usize) -> usize {
        (b"\"start\":", InQuotes(Prefixed(Hex16(self.0)))).write_at(buffer, at)
    }
}

impl Json for StackStart {
    ghost tokens = { λ p. of_hex (codes "start") 16 p.0 };

    ghost is_plain = { λ p. true };

    ghost shown = { λ p plain. IsPrinted-start p.0 };
}
