//! Names of numbers, which have a few bytes.
ghost use Rattle.std.specs.Prelude.{◌≤◌, ◌++◌, length, refl};

use mdmp_print::{Piece, slice_at};

/// The name of a number: at most 64 bytes, as they are.
#[derive(Clone, Copy)]
pub(crate) struct NumberName<'a> {
    /// The name.
    pub(crate) name: &'a str,
    ghost few: { length name.now ≤ 64 },
}

impl<'a> Piece for NumberName<'a> {
    ghost text = { λ p. p.name.now };

    ghost before = { λ p more. p.name.now ++ more };

    ghost most = { 64 };

    ghost joined = { λ p more. refl };

    fn write_at(&self, buffer: &mut [u8], at: usize) -> usize {
        slice_at(buffer, at, self.name.as_bytes())
    }
}
