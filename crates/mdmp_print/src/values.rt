//! Values and members of JSON: pieces that know which tokens they print.
ghost use Rattle.std.specs.Prelude.{◌≡◌, ◌+◌, ◌++◌, ◌∷◌, ◌&&◌, ◌≤◌, [], List, Bool, true, codes, refl};
ghost use Rattle.json.specs.Print.{escape};
ghost use Rattle.json.specs.Token.{Token, boolean, key, null, string};
ghost use Rattle.mdmp_print.specs.JsonPieces.{bool_text};
ghost use Rattle.mdmp_print.specs.Shown.{ArePrinted, ArePrinted-none, ArePrinted-one, ArePrinted-then, IsPrinted, IsPrinted-braced, IsPrinted-boolean, IsPrinted-member, IsPrinted-null, IsPrinted-string, are_plain, braced, in_quotes, keyed, both, escape-plain};

use crate::piece::Piece;
use crate::text::LongText;

/// A value, or a member of an object.
pub trait Json: Piece {
    // Its tokens.
    ghost tokens: { Self → List Token };

    // Its names stand in a string as they are.
    ghost is_plain: { Self → Bool };

    // Its bytes are what the tokens print.
    ghost shown: { (x : Self) → is_plain x ≡ true → IsPrinted (tokens x) (Self.text x) };
}

/// A piece whose bytes stand in a string as they are.
pub trait PlainPiece: Piece {
    // They do.
    ghost is_plain: { Self → Bool };

    ghost same: { (x : Self) → is_plain x ≡ true → escape (Self.text x) ≡ Self.text x };
}

impl<'a, const N: usize> PlainPiece for &'a [u8; N] {
    ghost is_plain = { λ p. are_plain p.now };

    ghost same = { λ p plain. escape-plain p.now plain };
}

impl PlainPiece for () {
    ghost is_plain = { λ p. true };

    ghost same = { λ p plain. refl };
}

impl<A: PlainPiece, B: PlainPiece> PlainPiece for (A, B) {
    ghost is_plain = { λ p. A.is_plain p.0 && B.is_plain p.1 };

    ghost same = { λ p plain. both (A.is_plain p.0) (B.is_plain p.1) (A.text p.0) (B.text p.1) plain (A.same p.0) (B.same p.1) };
}

/// The word `null`.
#[derive(Clone, Copy)]
pub struct Null;

impl Piece for Null {
    ghost text = { λ p. codes "null" };

    ghost before = { λ p more. codes "null" ++ more };

    ghost most = { 4 };

    ghost joined = { λ p more. refl };

    fn write_at(&self, buffer: &mut [u8], at: usize) -> usize {
        b"null".write_at(buffer, at)
    }
}

impl Json for Null {
    ghost tokens = { λ p. null ∷ [] };

    ghost is_plain = { λ p. true };

    ghost shown = { λ p plain. IsPrinted-null };
}

impl Piece for bool {
    ghost text = { bool_text };

    ghost before = { λ p more. bool_text p ++ more };

    ghost most = { 5 };

    ghost joined = { λ p more. refl };

    fn write_at(&self, buffer: &mut [u8], at: usize) -> usize {
        if *self {
            return b"true".write_at(buffer, at);
        }
        b"false".write_at(buffer, at)
    }
}

impl Json for bool {
    ghost tokens = { λ b. boolean b ∷ [] };

    ghost is_plain = { λ b. true };

    ghost shown = { λ b plain. IsPrinted-boolean b };
}

/// A text between double quotes: a string, if the text stands in a string as it is.
#[derive(Clone, Copy)]
pub struct InQuotes<P>(pub P);

impl<P: Piece> Piece for InQuotes<P> {
    ghost text = { λ p. in_quotes (P.text p.0) };

    ghost before = { λ p more. (in_quotes (P.text p.0)) ++ more };

    ghost most = { P.most + 2 };

    ghost joined = { λ p more. refl };

    #[inline(always)]
    fn write_at(&self, buffer: &mut [u8], at: usize) -> usize {
        let at = b"\"".write_at(buffer, at);
        let at = self.0.write_at(buffer, at);
        b"\"".write_at(buffer, at)
    }
}

impl<P: PlainPiece> Json for InQuotes<P> {
    ghost tokens = { λ p. string (P.text p.0) ∷ [] };

    ghost is_plain = { λ p. P.is_plain p.0 };

    ghost shown = { λ p plain. IsPrinted-string (P.text p.0) (P.same p.0 plain) };
}

/// A member: a name and a value.
#[derive(Clone, Copy)]
pub struct JsonMember<'a, const N: usize, V>(pub &'a [u8; N], pub V);

impl<'a, const N: usize, V: Json> Piece for JsonMember<'a, N, V> {
    ghost text = { λ p. keyed p.0.now (V.text p.1) };

    ghost before = { λ p more. (keyed p.0.now (V.text p.1)) ++ more };

    ghost most = { N + (V.most + 3) };

    ghost joined = { λ p more. refl };

    #[inline(always)]
    fn write_at(&self, buffer: &mut [u8], at: usize) -> usize {
        let at = b"\"".write_at(buffer, at);
        let at = self.0.write_at(buffer, at);
        let at = b"\":".write_at(buffer, at);
        self.1.write_at(buffer, at)
    }
}

impl<'a, const N: usize, V: Json> Json for JsonMember<'a, N, V> {
    ghost tokens = { λ p. key p.0.now ∷ V.tokens p.1 };

    ghost is_plain = { λ p. are_plain p.0.now && V.is_plain p.1 };

    ghost shown = { λ p plain. IsPrinted-member p.0.now (V.tokens p.1) (V.text p.1) (V.is_plain p.1) plain (V.shown p.1) };
}

/// Members behind others.
pub trait Members: Piece {
    // Their tokens, in front of others.
    ghost onto: { Self → List Token → List Token };

    ghost is_plain: { Self → Bool };

    ghost shown: { (x : Self) → is_plain x ≡ true → ArePrinted (onto x) (Self.text x) };
}

impl Members for () {
    ghost onto = { λ p more. more };

    ghost is_plain = { λ p. true };

    ghost shown = { λ p plain. ArePrinted-none };
}

impl<A: Members, B: Members> Members for (A, B) {
    ghost onto = { λ p more. A.onto p.0 (B.onto p.1 more) };

    ghost is_plain = { λ p. A.is_plain p.0 && B.is_plain p.1 };

    ghost shown = { λ p plain. ArePrinted-then (A.onto p.0) (B.onto p.1) (A.text p.0) (B.text p.1) (A.is_plain p.0) (B.is_plain p.1) plain (A.shown p.0) (B.shown p.1) };
}

impl<
    A: Members,
    B: Members,
    C: Members,
    D: Members,
    E: Members,
    F: Members,
    G: Members,
    H: Members,
> Members for (A, B, C, D, E, F, G, H) {
    ghost onto = { λ p more. A.onto p.0 (B.onto p.1 (C.onto p.2 (D.onto p.3 (E.onto p.4 (F.onto p.5 (G.onto p.6 (H.onto p.7 more))))))) };

    ghost is_plain = { λ p. A.is_plain p.0 && (B.is_plain p.1 && (C.is_plain p.2 && (D.is_plain p.3 && (E.is_plain p.4 && (F.is_plain p.5 && (G.is_plain p.6 && H.is_plain p.7)))))) };

    ghost shown = { λ p plain.
        ArePrinted-then _ _ _ _ _ _ plain (A.shown p.0) (λ plain.
        ArePrinted-then _ _ _ _ _ _ plain (B.shown p.1) (λ plain.
        ArePrinted-then _ _ _ _ _ _ plain (C.shown p.2) (λ plain.
        ArePrinted-then _ _ _ _ _ _ plain (D.shown p.3) (λ plain.
        ArePrinted-then _ _ _ _ _ _ plain (E.shown p.4) (λ plain.
        ArePrinted-then _ _ _ _ _ _ plain (F.shown p.5) (λ plain.
        ArePrinted-then _ _ _ _ _ _ plain (G.shown p.6) (H.shown p.7))))))) };
}

/// A member behind a comma.
#[derive(Clone, Copy)]
pub struct NextMember<J>(pub J);

impl<J: Json> Piece for NextMember<J> {
    ghost text = { λ p. codes "," ++ J.text p.0 };

    ghost before = { λ p more. (codes "," ++ J.text p.0) ++ more };

    ghost most = { J.most + 1 };

    ghost joined = { λ p more. refl };

    #[inline(always)]
    fn write_at(&self, buffer: &mut [u8], at: usize) -> usize {
        let at = b",".write_at(buffer, at);
        self.0.write_at(buffer, at)
    }
}

impl<J: Json> Members for NextMember<J> {
    ghost onto = { λ p more. J.tokens p.0 ++ more };

    ghost is_plain = { λ p. J.is_plain p.0 };

    ghost shown = { λ p plain. ArePrinted-one (J.tokens p.0) (J.text p.0) (J.shown p.0 plain) };
}

/// An object: its first member, and those behind it.
#[derive(Clone, Copy)]
pub struct Object<F, R>(pub F, pub R);

impl<F: Json, R: Members> Piece for Object<F, R> {
    ghost text = { λ p. codes "{" ++ (F.text p.0 ++ (R.text p.1 ++ codes "}")) };

    ghost before = { λ p more. (codes "{" ++ (F.text p.0 ++ (R.text p.1 ++ codes "}"))) ++ more };

    ghost most = { F.most + (R.most + 2) };

    ghost joined = { λ p more. refl };

    #[inline(always)]
    fn write_at(&self, buffer: &mut [u8], at: usize) -> usize {
        let at = b"{".write_at(buffer, at);
        let at = self.0.write_at(buffer, at);
        let at = self.1.write_at(buffer, at);
        b"}".write_at(buffer, at)
    }
}

impl<F: Json, R: Members> Json for Object<F, R> {
    ghost tokens = { λ p. braced (F.tokens p.0 ++ R.onto p.1 []) };

    ghost is_plain = { λ p. F.is_plain p.0 && R.is_plain p.1 };

    ghost shown = { λ p plain. IsPrinted-braced (F.tokens p.0) (R.onto p.1) (F.text p.0) (R.text p.1) (F.is_plain p.0) (R.is_plain p.1) plain (F.shown p.0) (R.shown p.1) };
}

/// A value of any length.
pub trait LongValue: LongText {
    // Its tokens.
    ghost tokens: { Self → List Token };

    ghost shown: { (x : Self) → IsPrinted (tokens x) (Self.text x) };
}

/// Members, each behind a comma.
#[macro_export]
macro_rules! members {
    ($($member:expr),* $(,)?) => { $crate::row!($($crate::NextMember($member)),*) };
}
