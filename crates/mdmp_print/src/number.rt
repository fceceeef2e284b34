//! Numbers in decimal digits.
ghost use Rattle.std.specs.Prelude.{◌≡◌, ◌+◌, ◌++◌, ◌∷◌, [], true, refl};
ghost use Rattle.std.specs.Fmt.{decimal};
ghost use Rattle.json.specs.Token.{number};
ghost use Rattle.mdmp_print.specs.Escapes.{escape-decimal};
ghost use Rattle.mdmp_print.specs.Shown.{IsPrinted-number};

use crate::digits::{decimal_at, decimal32_at, wide_decimal_at};
use crate::fields::Value;
use crate::piece::Piece;
use crate::values::{InQuotes, Json, PlainPiece};

impl Piece for u32 {
    ghost text = { decimal };

    ghost before = { λ p more. decimal p ++ more };

    ghost most = { 10 };

    ghost joined = { λ p more. refl };

    #[inline(always)]
    fn write_at(&self, buffer: &mut [u8], at: usize) -> usize {
        decimal32_at(buffer, at, *self)
    }
}

impl Piece for u64 {
    ghost text = { decimal };

    ghost before = { λ p more. decimal p ++ more };

    ghost most = { 20 };

    ghost joined = { λ p more. refl };

    #[inline(always)]
    fn write_at(&self, buffer: &mut [u8], at: usize) -> usize {
        decimal_at(buffer, at, *self)
    }
}

impl Piece for u128 {
    ghost text = { decimal };

    ghost before = { λ p more. decimal p ++ more };

    ghost most = { 39 };

    ghost joined = { λ p more. refl };

    #[inline(always)]
    fn write_at(&self, buffer: &mut [u8], at: usize) -> usize {
        if *self < 0x1_0000_0000_0000_0000 {
            return decimal_at(buffer, at, *self as u64);
        }
        wide_decimal_at(buffer, at, *self)
    }
}

impl Json for u32 {
    ghost tokens = { λ n. number (decimal n) ∷ [] };

    ghost is_plain = { λ n. true };

    ghost shown = { λ n plain. IsPrinted-number (decimal n) };
}

impl Json for u64 {
    ghost tokens = { λ n. number (decimal n) ∷ [] };

    ghost is_plain = { λ n. true };

    ghost shown = { λ n plain. IsPrinted-number (decimal n) };
}

impl PlainPiece for u32 {
    ghost is_plain = { λ n. true };

    ghost same = { λ n plain. escape-decimal n };
}

impl PlainPiece for u64 {
    ghost is_plain = { λ n. true };

    ghost same = { λ n plain. escape-decimal n };
}

impl PlainPiece for u128 {
    ghost is_plain = { λ n. true };

    ghost same = { λ n plain. escape-decimal n };
}

impl Value for u32 {
    type Json = u32;

    ghost json_of = { λ n. n };

    #[inline(always)]
    fn json(&self) -> u32 {
        *self
    }
}

/// A number that may be wider than 32 bits is a string in an object.
impl Value for u64 {
    type Json = InQuotes<u64>;

    ghost json_of = { λ n. record { 0 = n } };

    #[inline(always)]
    fn json(&self) -> InQuotes<u64> {
        InQuotes(*self)
    }
}
