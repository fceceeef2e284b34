//! A count of steps, which no code keeps.
ghost use Rattle.std.specs.Prelude.{◌≡◌, ◌<◌, ◌+◌};

mod counted_ranges;

pub(crate) use self::counted_ranges::CountedRanges;
use std::marker::Model;
use std::sync::ledger::{Blank, Book, Ledger, Share};

/// How many ranges were looked at. It takes no bytes, and nothing at run time reads it: contracts tell
/// by it how many steps a call takes.
#[derive(Drop)]
pub struct Steps<G: Ledger> {
    book: Book<G>,
    share: Share<G>,
}

impl<G: Ledger> Model for Steps<G> {
    ghost use Rattle.std.specs.Prelude.{ℕ, ◌<◌};

    ghost Value = { ℕ };

    ghost view = { λ s. s.book.total };

    ghost invariant = { λ s. 0 < s.share.parts };
}

impl<G: Ledger> Steps<G> {
    /// A count of no steps, under the ledger that the blank opens.
    pub fn new(blank: Blank) -> Self
        requires name { blank.name ≡ G.name }
        requires parts { blank.parts ≡ G.parts }
        requires some { 0 < blank.parts }
        ensures { result ≡ 0 }
    {
        let (book, share) = blank.open::<G>();
        Steps { book, share }
    }

    /// Counts a step, of the one look that goes with it.
    fn tick(&mut self)
        ensures { self.new ≡ self.old + 1 }
    {
        self.book.add(&mut self.share, 1);
    }
}
