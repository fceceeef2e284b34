//! Versions of modules and systems.
ghost use Rattle.std.specs.Prelude.{◌++◌, refl, true};
ghost use Rattle.mdmp_print.specs.Joined.{build_onto, joined-build, joined-version, version_onto};
ghost use Rattle.mdmp_print.specs.Shown.{escape-build, escape-version};
ghost use Rattle.mdmp_print.specs.Versions.{build_text, file_version_text};

use crate::fields::Value;
use crate::piece::Piece;
use crate::row;
use crate::values::{InQuotes, PlainPiece};

/// The version of a module's file: the halves of two numbers.
#[derive(Clone, Copy)]
pub struct Version(pub u32, pub u32);

impl Piece for Version {
    ghost text = { λ p. file_version_text p.0 p.1 };

    ghost before = { λ p more. version_onto p.0 p.1 more };

    ghost most = { 80 };

    ghost joined = { λ p more. joined-version p.0 p.1 more };

    fn write_at(&self, buffer: &mut [u8], at: usize) -> usize {
        row![
            self.0 / 65536,
            b".",
            self.0 % 65536,
            b".",
            self.1 / 65536,
            b".",
            self.1 % 65536,
        ]
        .write_at(buffer, at)
    }
}

impl PlainPiece for Version {
    ghost is_plain = { λ p. true };

    ghost same = { λ p plain. escape-version p.0 p.1 };
}

impl Value for Version {
    type Json = InQuotes<Version>;

    ghost json_of = { λ p. record { 0 = p } };

    #[inline(always)]
    fn json(&self) -> InQuotes<Version> {
        InQuotes(*self)
    }
}

/// The version of a system: its numbers and its build.
#[derive(Clone, Copy)]
pub struct Build(pub u32, pub u32, pub u32);

impl Piece for Build {
    ghost text = { λ p. build_text p.0 p.1 p.2 };

    ghost before = { λ p more. build_onto p.0 p.1 p.2 more };

    ghost most = { 40 };

    ghost joined = { λ p more. joined-build p.0 p.1 p.2 more };

    fn write_at(&self, buffer: &mut [u8], at: usize) -> usize {
        row![self.0, b".", self.1, b".", self.2].write_at(buffer, at)
    }
}

impl PlainPiece for Build {
    ghost is_plain = { λ p. true };

    ghost same = { λ p plain. escape-build p.0 p.1 p.2 };
}

impl Value for Build {
    type Json = InQuotes<Build>;

    ghost json_of = { λ p. record { 0 = p } };

    #[inline(always)]
    fn json(&self) -> InQuotes<Build> {
        InQuotes(*self)
    }
}
