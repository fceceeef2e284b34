//! RecordFields of records, of which each stands in a line of text and in an object.
ghost use Rattle.mdmp_print.specs.Joined.{joined-field};
ghost use Rattle.std.specs.Prelude.{◌≡◌, ◌+◌, ◌++◌, [], codes, refl};

use crate::piece::Piece;
use crate::values::{Json, JsonMember, Members, NextMember};

/// A value of a field: a piece of a line of text, and what stands for it in an object.
pub trait Value: Piece {
    /// What stands for it in an object.
    type Json: Json + Drop;

    ghost json_of: { Self → Self.Json };

    /// What stands for it in an object.
    fn json(&self) -> Self::Json
        ensures { result ≡ json_of self.now };
}

/// A field: its name and its value.
#[derive(Clone, Copy)]
pub struct Field<'a, const N: usize, V>(pub &'a [u8; N], pub V);

impl<'a, const N: usize, V: Value> Piece for Field<'a, N, V> {
    ghost text = { λ p. codes " " ++ (p.0.now ++ (codes " " ++ V.text p.1)) };

    ghost before = { λ p more. codes " " ++ (p.0.now ++ (codes " " ++ V.before p.1 more)) };

    ghost most = { N + (V.most + 2) };

    ghost joined = { λ p more. joined-field p.0.now (V.text p.1) (V.before p.1) (V.joined p.1) more };

    #[inline(always)]
    fn write_at(&self, buffer: &mut [u8], at: usize) -> usize {
        let at = b" ".write_at(buffer, at);
        let at = self.0.write_at(buffer, at);
        let at = b" ".write_at(buffer, at);
        self.1.write_at(buffer, at)
    }
}

/// RecordFields: pieces of a line of text, and what stands for them in an object.
pub trait RecordFields: Piece {
    type Members: Members + Drop;

    ghost members_of: { Self → Self.Members };

    /// What stands for them in an object.
    fn members(&self) -> Self::Members
        ensures { result ≡ members_of self.now };
}

impl<'a, const N: usize, V: Value> RecordFields for Field<'a, N, V> {
    type Members = NextMember<JsonMember<'a, N, V::Json>>;

    ghost members_of = { λ p. record { 0 = record { 0 = p.0; 1 = V.json_of p.1 } } };

    #[inline(always)]
    fn members(&self) -> NextMember<JsonMember<'a, N, V::Json>> {
        NextMember(JsonMember(self.0, self.1.json()))
    }
}

/// The end of a record's fields: of its line of text.
#[derive(Clone, Copy)]
pub struct LineEnd;

impl Piece for LineEnd {
    ghost text = { λ p. codes "\n" };

    ghost before = { λ p more. (codes "\n") ++ more };

    ghost most = { 1 };

    ghost joined = { λ p more. refl };

    #[inline(always)]
    fn write_at(&self, buffer: &mut [u8], at: usize) -> usize {
        b"\n".write_at(buffer, at)
    }
}

impl RecordFields for LineEnd {
    type Members = ();

    ghost members_of = { λ p. tt };

    #[inline(always)]
    fn members(&self) {}
}

/// Members of an object, which a line of text leaves out.
#[derive(Clone, Copy)]
pub struct ObjectOnly<M>(pub M);

impl<M: Members> Piece for ObjectOnly<M> {
    ghost text = { λ p. [] };

    ghost before = { λ p more. more };

    ghost most = { 0 };

    ghost joined = { λ p more. refl };

    #[inline(always)]
    fn write_at(&self, buffer: &mut [u8], at: usize) -> usize {
        ().write_at(buffer, at)
    }
}

impl<M: Members + Copy> RecordFields for ObjectOnly<M> {
    type Members = M;

    ghost members_of = { λ p. p.0 };

    #[inline(always)]
    fn members(&self) -> M {
        self.0
    }
}

impl RecordFields for () {
    type Members = ();

    ghost members_of = { λ p. p };

    #[inline(always)]
    fn members(&self) {}
}

impl<A: RecordFields, B: RecordFields> RecordFields for (A, B) {
    type Members = (A::Members, B::Members);

    ghost members_of = { λ p. (A.members_of p.0, B.members_of p.1) };

    #[inline(always)]
    fn members(&self) -> (A::Members, B::Members) {
        (self.0.members(), self.1.members())
    }
}

impl<
    A: RecordFields,
    B: RecordFields,
    C: RecordFields,
    D: RecordFields,
    E: RecordFields,
    F: RecordFields,
    G: RecordFields,
    H: RecordFields,
> RecordFields for (A, B, C, D, E, F, G, H) {
    type Members = (
        A::Members,
        B::Members,
        C::Members,
        D::Members,
        E::Members,
        F::Members,
        G::Members,
        H::Members,
    );

    ghost members_of = { λ p. (A.members_of p.0, B.members_of p.1, C.members_of p.2, D.members_of p.3, E.members_of p.4, F.members_of p.5, G.members_of p.6, H.members_of p.7) };

    #[inline(always)]
    fn members(&self) -> Self::Members {
        (
            self.0.members(),
            self.1.members(),
            self.2.members(),
            self.3.members(),
            self.4.members(),
            self.5.members(),
            self.6.members(),
            self.7.members(),
        )
    }
}
