//! Records or streams in memory of their own.
ghost use Rattle.std.specs.Prelude.{◌≡◌, List};
ghost use Rattle.std.specs.Cmp.Lexicographic.{pointwise, lists_equiv, lists_per};

use std::alloc::Allocator;
use std::fmt::{self, Debug};
use std::marker::Model;
use std::slice::Iter;

/// Records of one stream, or the streams of a dump, in memory of their own.
// Contracts see them as a list, so that the definitions speak of a dump itself.
#[derive(Drop)]
pub struct Records<T: Drop, A: Allocator> {
    list: Vec<T, A>,
}

impl<T: Drop, A: Allocator> Model for Records<T, A> {
    ghost Value = { List T };

    ghost view = { λ r. r.list.items };
}

impl<T: Drop, A: Allocator> Records<T, A> {
    /// These records.
    pub fn new(records: Vec<T, A>) -> Records<T, A>
        ensures { result ≡ records.items }
    {
        Records { list: records }
    }

    /// The records, lent.
    pub fn as_slice(&self) -> &[T]
        ensures { result.now ≡ self.now }
    {
        self.list.as_slice()
    }

    /// The records, given back.
    pub fn into_vec(self) -> Vec<T, A>
        ensures { result.items ≡ self }
    {
        let Records { list } = self;
        list
    }
}

impl<'a, T: Drop, A: Allocator> IntoIterator for &'a Records<T, A> {
    ghost use Rattle.std.specs.Prelude.{◌≡◌, ◌<◌, ◌^◌, length};
    ghost use Rattle.std.specs.Iterator.Runs.{EveryRun, ItemsMapTo};
    ghost use Rattle.std.specs.Slice.Iter.{iter_rest, iter_steps};

    type Item = &'a T;

    type IntoIter = Iter<'a, T>;

    ghost into_iter_gives = { λ records it. (iter_rest it ≡ records.now) × (length (iter_rest it) < 2 ^ 64)
        × EveryRun (iter_steps {A = T}) (λ p. ItemsMapTo p (λ x. x.now) (iter_rest p.from)) };

    fn into_iter(self) -> Iter<'a, T> {
        self.as_slice().iter()
    }
}

impl<T: Drop + PartialEq, A: Allocator> PartialEq for Records<T, A> {
    ghost eq = { pointwise T.eq };

    ghost laws = { lists_per T.laws };

    fn eq(&self, other: &Records<T, A>) -> bool {
        self.as_slice() == other.as_slice()
    }
}

impl<T: Drop + Eq, A: Allocator> Eq for Records<T, A> {
    ghost laws = { lists_equiv T.Eq.laws };
}

impl<T: Drop + Debug, A: Allocator> Debug for Records<T, A> {
    fn fmt<W: fmt::Write>(&self, f: &mut fmt::Formatter<W>) -> fmt::Result {
        self.as_slice().fmt(f)
    }
}
