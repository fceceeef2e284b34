//! Takers of items, and of verdicts.
use crate::fault::ListFault;
use crate::item::Item;
use crate::verdict::Verdict;

/// A sink wants no more.
#[derive(Clone, Copy, Debug, PartialEq, Eq)]
pub struct Stopped;

/// Takes items, one a call.
pub trait Sink {
    ghost use Rattle.std.specs.Prelude.{Result};
    ghost use Rattle.mdmp_lister.specs.Format.Item.{plain};
    ghost use Rattle.mdmp_lister.specs.declared.item.Item.{Item};
    ghost use Rattle.mdmp_lister.specs.declared.sink.Stopped.{Stopped};

    /// What one call does: the sink before it, the item, the answer, the sink after it.
    ghost step: { Self → Item → Result (Unit {0}) Stopped → Self → Type 0 };

    /// Takes the next item. It has the item also where it answers that it wants no more.
    fn take(&mut self, item: &Item<'_>) -> Result<(), Stopped>
        ensures { step self.old (plain item.now) result self.new };
}

/// Takes the verdicts on entries, one a call.
pub trait VerdictSink {
    ghost use Rattle.std.specs.Prelude.{Result};
    ghost use Rattle.mdmp_lister.specs.declared.sink.Stopped.{Stopped};
    ghost use Rattle.mdmp_lister.specs.declared.verdict.Verdict.{Verdict};

    /// What one call does: the sink before it, the verdict, the answer, the sink after it.
    ghost step: { Self → Verdict → Result (Unit {0}) Stopped → Self → Type 0 };

    /// Takes the next verdict. It has the verdict also where it answers that it wants no more.
    fn take(&mut self, verdict: &Verdict) -> Result<(), Stopped>
        ensures { step self.old verdict.now result self.new };
}

/// Why a run ended before its end.
#[derive(Clone, Copy, Debug, PartialEq, Eq)]
pub enum RunFault {
    /// The listing has this fault next, or bytes were not obtained there, from the store or within the
    /// budget: the sink has all items before it. Of a run of verdicts, that bytes were not obtained: the
    /// sink has the verdicts on the entries before the one that the fault names.
    At(ListFault),
    /// The sink wanted no more: the item or verdict that it had last is the last that was given.
    Stopped,
}

/// A sink that takes each item and looks at none.
#[derive(Drop)]
pub(crate) struct Unseen;

impl Sink for Unseen {
    ghost use Rattle.std.specs.Prelude.{◌≡◌, Ok};

    ghost step = { λ old item result new. result ≡ Ok tt };

    fn take(&mut self, _item: &Item<'_>) -> Result<(), Stopped> {
        Ok(())
    }
}
