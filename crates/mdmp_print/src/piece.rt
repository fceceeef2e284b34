//! Pieces of a line, which are put into a buffer one behind the other.
ghost use Rattle.std.specs.Prelude.{◌+◌, ◌≤◌, ◌++◌, List, ℕ, length, [], ◌≡◌, refl};
ghost use Rattle.mdmp_print.specs.Joined.{joined-then};
ghost use Rattle.mdmp_print.specs.Buffer.{IsPutBehind};

use crate::in_buffer::text_at;

/// How many bytes a line, or a part of one, has at most.
pub const LINE_ROOM: usize = 1024;

/// A text of a bounded length, that is put behind others.
pub trait Piece {
    // Its bytes.
    ghost text: { Self → List ℕ };

    // The same in front of others. Rows nest to the right in it, so that texts compute to the same term.
    ghost before: { Self → List ℕ → List ℕ };

    // How many they are, at most.
    ghost most: { ℕ };

    /// Puts it behind the first `at` bytes of a buffer, and answers where it ends. What stands in the
    /// buffer behind it is not stated.
    fn write_at(&self, buffer: &mut [u8], at: usize) -> usize
        requires { at + most ≤ length buffer.old }
        ensures { IsPutBehind buffer.old at (text self.now) most buffer.new result };

    ghost joined: { (x : Self) (more : List ℕ) → before x more ≡ text x ++ more };
}

/// Nothing: the end of a row of pieces.
impl Piece for () {
    ghost text = { λ p. [] };

    ghost before = { λ p more. more };

    ghost most = { 0 };

    ghost joined = { λ p more. refl };

    #[inline(always)]
    fn write_at(&self, _buffer: &mut [u8], at: usize) -> usize {
        at
    }
}

/// A piece, and those behind it.
impl<A: Piece, B: Piece> Piece for (A, B) {
    ghost text = { λ p. A.text p.0 ++ B.text p.1 };

    ghost before = { λ p more. A.before p.0 (B.before p.1 more) };

    ghost most = { A.most + B.most };

    ghost joined = { λ p more. joined-then (A.text p.0) (B.text p.1) (A.before p.0) (B.before p.1) (A.joined p.0) (B.joined p.1) more };

    #[inline(always)]
    fn write_at(&self, buffer: &mut [u8], at: usize) -> usize {
        let at = self.0.write_at(buffer, at);
        self.1.write_at(buffer, at)
    }
}

/// Seven pieces, and those behind them: a long row is made of such, since the proofs of a row take the
/// longer the deeper it is.
impl<A: Piece, B: Piece, C: Piece, D: Piece, E: Piece, F: Piece, G: Piece, H: Piece> Piece
    for (A, B, C, D, E, F, G, H) {
    ghost text = { λ p. A.text p.0 ++ (B.text p.1 ++ (C.text p.2 ++ (D.text p.3 ++ (E.text p.4 ++ (F.text p.5 ++ (G.text p.6 ++ H.text p.7)))))) };

    ghost before = { λ p more. A.before p.0 (B.before p.1 (C.before p.2 (D.before p.3 (E.before p.4 (F.before p.5 (G.before p.6 (H.before p.7 more))))))) };

    ghost most = { A.most + (B.most + (C.most + (D.most + (E.most + (F.most + (G.most + H.most)))))) };

    ghost joined = { λ p. joined-then _ _ _ _ (A.joined p.0) (joined-then _ _ _ _ (B.joined p.1) (joined-then _ _ _ _ (C.joined p.2) (joined-then _ _ _ _ (D.joined p.3) (joined-then _ _ _ _ (E.joined p.4) (joined-then _ _ _ _ (F.joined p.5) (joined-then _ _ _ _ (G.joined p.6) (H.joined p.7))))))) };

    #[inline(always)]
    fn write_at(&self, buffer: &mut [u8], at: usize) -> usize {
        let at = self.0.write_at(buffer, at);
        let at = self.1.write_at(buffer, at);
        let at = self.2.write_at(buffer, at);
        let at = self.3.write_at(buffer, at);
        let at = self.4.write_at(buffer, at);
        let at = self.5.write_at(buffer, at);
        let at = self.6.write_at(buffer, at);
        self.7.write_at(buffer, at)
    }
}

/// A text of known length.
impl<'a, const N: usize> Piece for &'a [u8; N] {
    ghost text = { λ p. p.now };

    ghost before = { λ p more. (p.now) ++ more };

    ghost most = { N };

    ghost joined = { λ p more. refl };

    #[inline(always)]
    fn write_at(&self, buffer: &mut [u8], at: usize) -> usize {
        text_at(buffer, at, **self)
    }
}

/// A row of pieces.
#[macro_export]
macro_rules! row {
    () => { () };
    ($a:expr, $b:expr, $c:expr, $d:expr, $e:expr, $f:expr, $g:expr, $($rest:expr),+ $(,)?) => {
        ($a, $b, $c, $d, $e, $f, $g, $crate::row!($($rest),+))
    };
    ($piece:expr $(, $rest:expr)* $(,)?) => { ($piece, $crate::row!($($rest),*)) };
}
