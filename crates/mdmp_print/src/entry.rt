//! Where a record stands: the entry of its stream, and its index there.
ghost use Rattle.std.specs.Prelude.{◌++◌, codes, refl, true};
ghost use Rattle.std.specs.Fmt.{decimal};
ghost use Rattle.mdmp_print.specs.Json.{of_number};
ghost use Rattle.mdmp_print.specs.Shown.{ArePrinted-at, at_text, number-member};

use crate::fields::RecordFields;
use crate::piece::Piece;
use crate::values::Members;

/// The entry of a record's stream, which its line of text leaves out, and its index in the stream.
#[derive(Clone, Copy)]
pub struct At(pub u32, pub u64);

impl Piece for At {
    ghost text = { λ p. codes " " ++ decimal p.1 };

    ghost before = { λ p more. (codes " " ++ decimal p.1) ++ more };

    ghost most = { 21 };

    ghost joined = { λ p more. refl };

    #[inline(always)]
    fn write_at(&self, buffer: &mut [u8], at: usize) -> usize {
        (b" ", self.1).write_at(buffer, at)
    }
}

impl RecordFields for At {
    type Members = AtMembers;

    ghost members_of = { λ p. record { 0 = p.0; 1 = p.1 } };

    #[inline(always)]
    fn members(&self) -> AtMembers {
        AtMembers(self.0, self.1)
    }
}

/// An entry and an index as members of an object.
#[derive(Clone, Copy)]
pub struct AtMembers(pub u32, pub u64);

impl Piece for AtMembers {
    ghost text = { λ p. at_text p.0 p.1 };

    ghost before = { λ p more. (at_text p.0 p.1) ++ more };

    ghost most = { 60 };

    ghost joined = { λ p more. refl };

    #[inline(always)]
    fn write_at(&self, buffer: &mut [u8], at: usize) -> usize {
        (b",\"entry\":", (self.0, (b",\"index\":", self.1))).write_at(buffer, at)
    }
}

impl Members for AtMembers {
    ghost onto = { λ p more. of_number (codes "entry") p.0 ++ (of_number (codes "index") p.1 ++ more) };

    ghost is_plain = { λ p. true };

    ghost shown = { λ p plain. ArePrinted-at p.0 p.1 };
}

/// The entry of a stream.
#[derive(Clone, Copy)]
pub struct EntryNumber(pub u32);

impl Piece for EntryNumber {
    ghost text = { λ p. codes " " ++ decimal p.0 };

    ghost before = { λ p more. (codes " " ++ decimal p.0) ++ more };

    ghost most = { 11 };

    ghost joined = { λ p more. refl };

    #[inline(always)]
    fn write_at(&self, buffer: &mut [u8], at: usize) -> usize {
        (b" ", self.0).write_at(buffer, at)
    }
}

impl RecordFields for EntryNumber {
    type Members = EntryMember;

    ghost members_of = { λ p. record { 0 = p.0 } };

    #[inline(always)]
    fn members(&self) -> EntryMember {
        EntryMember(self.0)
    }
}

/// An entry as a member of an object.
#[derive(Clone, Copy)]
pub struct EntryMember(pub u32);

impl Piece for EntryMember {
    ghost text = { λ p. codes ",\"entry\":" ++ decimal p.0 };

    ghost before = { λ p more. (codes ",\"entry\":" ++ decimal p.0) ++ more };

    ghost most = { 30 };

    ghost joined = { λ p more. refl };

    #[inline(always)]
    fn write_at(&self, buffer: &mut [u8], at: usize) -> usize {
        (b",\"entry\":", self.0).write_at(buffer, at)
    }
}

impl Members for EntryMember {
    ghost onto = { λ p more. of_number (codes "entry") p.0 ++ more };

    ghost is_plain = { λ p. true };

    ghost shown = { λ p plain. number-member (codes "entry") p.0 refl };
}
