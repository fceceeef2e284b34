//! What is told of the items of all entries, one after the other, and may read bytes of the file after each.

use mdmp_lister::{Item, ListFault, Stopped, StreamKind, Walker};
use mdmp_source::{SourceFault, Store};
use std::alloc::Allocator;

/// Why a visitor ends a pass.
#[derive(Clone, Copy, Debug, PartialEq, Eq)]
pub enum VisitEnd {
    /// It wants no more.
    Stopped,
    /// The store failed while it read bytes outside the listing.
    Source(SourceFault),
}

/// Why a pass ended before the last item.
#[derive(Clone, Copy, Debug, PartialEq, Eq)]
pub enum VisitFault {
    /// Bytes that an entry needs were not read: the store failed, or the read limit was reached.
    List(ListFault),
    /// The visitor ended it.
    Ended(VisitEnd),
}

/// A value that is shown the items of a listing, one after the other. After each item it may read bytes of the file
/// outside the listing.
pub trait Visitor {
    ghost use Rattle.std.specs.Prelude.{◌≡◌, ℕ, List, Option, Result, IfErr, IfOk, false};
    ghost use Rattle.mdmp_source.specs.Store.{IsGood};
    ghost use Rattle.mdmp_lister.specs.Format.Item.{plain};
    ghost use Rattle.mdmp_lister.specs.declared.item.Item.{Item};
    ghost use Rattle.mdmp_lister.specs.declared.meter.Amount.{Amount};
    ghost use Rattle.mdmp_lister.specs.declared.sink.Stopped.{Stopped};
    ghost use Rattle.mdmp_summary.specs.declared.visiting.VisitEnd.{VisitEnd};
    ghost use Rattle.mdmp_summary.specs.Spending.{ReadsOutside};
    ghost use Rattle.mdmp_summary.specs.Visiting.{HasNoUse, IsAtMost, IsEndTold, IsUnreadEnd};

    // What one item does: the visitor before it, the item, the answer, the visitor after it.
    ghost taken: { Self → Item → Result (Unit {0}) Stopped → Self → Type 0 };

    // What is done after it with the bytes that are read, of a file of this content, with names up to a limit.
    ghost looked: { Option (List ℕ) → ℕ → Self → Result (Unit {0}) VisitEnd → Self → Type 0 };

    // How many bytes it would now read at most, and in how many calls.
    ghost owed: { Self → Amount };

    // Its own limit of what it reads, which stays.
    ghost span: { Self → ℕ };

    // How many bytes an item may make it read, with such a limit.
    ghost room: { ℕ → Item → Amount };

    /// Whether it has any use for records of this kind. If not, a pass need neither read them nor show them.
    fn wants(&self, kind: StreamKind) -> bool
        ensures uses { result ≡ false → HasNoUse taken looked self.now kind };

    /// Takes the next item. It has the item also if it answers that it wants no more.
    fn take(&mut self, item: &Item<'_>) -> Result<(), Stopped>
        ensures takes { taken self.old (plain item.now) result self.new }
        ensures owes { IfOk result (λ _. IsAtMost (owed self.new) (room (span self.old) (plain item.now))) }
        ensures spans { span self.new ≡ span self.old };

    /// Reads what the item asks for that was taken last.
    fn look<S: Store + Drop, A: Allocator + Copy>(
        &mut self,
        walker: &mut Walker<S, A>,
    ) -> Result<(), VisitEnd>
        ensures looks { looked walker.old.list.source.store.content walker.old.list.limit self.old result self.new }
        ensures reads { ReadsOutside (owed self.old) walker.old walker.new }
        ensures spans { span self.new ≡ span self.old }
        ensures told { IfErr result (IsEndTold walker.old.list.source walker.new.list.source) }
        ensures good { (file : List ℕ) → IsGood walker.old.list.source.store file → IfErr result (λ end. IsUnreadEnd end → ⊥) };
}
