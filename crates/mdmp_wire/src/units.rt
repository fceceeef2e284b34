//! Units of UTF-16 that are owned.
ghost use Rattle.std.specs.Prelude.{◌≡◌, ◌==◌, ◌++◌, ◌%◌, ℕ, List, length, IfOk};
ghost use Rattle.std.proofs.Common.{rules};
ghost use Rattle.std.specs.Cmp.Lexicographic.{pointwise};
ghost use Rattle.std.specs.Cmp.Rules.{comparing};
ghost use Rattle.std.specs.Char.Escape.{encode_utf16};
ghost use Rattle.mdmp_wire.specs.Units.{units_of, units_in, utf16_of, utf8_of};

use crate::units_ref::UnitsRef;
use byteorder::{ByteOrder, LittleEndian};
use std::alloc::{AllocError, Allocator};
use std::fmt::{self, Debug};
use std::marker::Model;

/// Units of UTF-16, as the `Buffer` of a `MINIDUMP_STRING`, in memory of their own.
// They are kept as a file has them, so that `view` lends what a name in a file lends.
#[derive(Drop)]
pub struct Units<A: Allocator> {
    bytes: Vec<u8, A>,
}

impl<A: Allocator> Model for Units<A> {
    ghost Value = { List ℕ };

    ghost view = { λ units. units_of units.bytes.items };

    ghost invariant = { λ units. length units.bytes.items % 2 ≡ 0 };
}

impl<A: Allocator> Units<A> {
    /// The units of a text: a character from U+10000 on is the two of its surrogate pair.
    pub fn from_str(alloc: A, text: &str) -> Result<Units<A>, AllocError>
        ensures { IfOk result (λ units. units ≡ utf16_of text.now) }
    {
        let mut bytes = Vec::new(alloc);
        for character in text.chars() {
            push_character(&mut bytes, character)?;
        }
        Ok(Units { bytes })
    }

    /// The units that stand in these bytes, two to each and the lower first.
    pub fn from_le(alloc: A, bytes: &[u8]) -> Result<Units<A>, AllocError>
        requires { length bytes.now % 2 ≡ 0 }
        ensures { IfOk result (λ units. units ≡ units_of bytes.now) }
    {
        let bytes = bytes.to_vec(alloc)?;
        Ok(Units { bytes })
    }

    /// The units, lent.
    pub fn view(&self) -> UnitsRef<'_>
        ensures { units_in result ≡ self.now }
    {
        UnitsRef::over(&self.bytes)
    }
}

/// They are the same units, one by one.
impl<A: Allocator> PartialEq for Units<A> {
    ghost eq = { pointwise ◌==◌ };

    ghost laws = { Prim.search (comparing, rules) };

    fn eq(&self, other: &Units<A>) -> bool {
        self.view() == other.view()
    }
}

impl<A: Allocator> Eq for Units<A> {
    ghost laws = { Prim.search (comparing, rules) };
}

impl<A: Allocator> Debug for Units<A> {
    fn fmt<W: fmt::Write>(&self, f: &mut fmt::Formatter<W>) -> fmt::Result {
        self.view().fmt(f)
    }
}

/// Appends the units of a character, one or two.
fn push_character<A: Allocator>(bytes: &mut Vec<u8, A>, character: char) -> Result<(), AllocError>
    requires { length bytes.old.items % 2 ≡ 0 }
    ensures even { IfOk result (λ _. length bytes.new.items % 2 ≡ 0) }
    ensures units { IfOk result (λ _. units_of bytes.new.items ≡ units_of bytes.old.items ++ encode_utf16 character) }
{
    let mut pair = [0; 2];
    let units = character.encode_utf16(&mut pair);
    let mut room = [0; 4];
    let encoded = &mut room[..2 * units.len()];
    LittleEndian::write_u16_into(units, encoded);
    bytes.extend_from_slice(encoded)?;
    Ok(())
}

/// No text is lost in UTF-16: that its units are a text again, and the same one, is what this
/// function's contract says. It does nothing.
pub fn text_survives_utf16(text: &str)
    ensures { utf8_of (utf16_of text.now) ≡ text.now }
{}
