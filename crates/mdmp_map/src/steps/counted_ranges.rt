//! Ranges whose looks are counted.
ghost use Rattle.std.specs.Prelude.{◌≡◌, ◌<◌, ◌+◌, Some, length, slice_get};

use super::Steps;
use crate::range::Range;
use std::marker::{Model, PhantomData};
use std::sync::ledger::Ledger;

/// Ranges that are looked at one at a time, each look of which is counted under the ledger `G`.
///
/// A search is given its ranges in this form alone. Only `look` reads one, and counts it: there is
/// one count under `G`, and nothing else adds to it. So a search looks at as many ranges as its
/// contract tells of its steps.
#[derive(Drop)]
pub(crate) struct CountedRanges<'a, G: Ledger> {
    ranges: &'a [Range],
    ledger: PhantomData<G>,
}

impl<'a, G: Ledger> Model for CountedRanges<'a, G> {
    ghost use Rattle.std.specs.Prelude.{List};
    ghost use Rattle.mdmp_map.specs.declared.range.Range.{Range};

    ghost Value = { List Range };

    ghost view = { λ c. c.ranges.now };
}

impl<'a, G: Ledger> CountedRanges<'a, G> {
    /// These ranges, none of which was looked at.
    pub(crate) fn over(ranges: &'a [Range]) -> Self
        ensures { result ≡ ranges.now }
    {
        CountedRanges {
            ranges,
            ledger: PhantomData,
        }
    }

    /// How many there are.
    pub(crate) fn len(&self) -> usize
        ensures { result ≡ length self.now }
    {
        self.ranges.len()
    }

    /// Looks at the range with this number, from 0 on, which is a step.
    pub(crate) fn look(&self, number: usize, steps: &mut Steps<G>) -> Range
        requires { number < length self.now }
        ensures range { slice_get self.now number ≡ Some result }
        ensures steps { steps.new ≡ steps.old + 1 }
    {
        steps.tick();
        let ranges = self.ranges;
        ranges[number]
    }
}
