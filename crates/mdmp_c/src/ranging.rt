//! A listing for its ranges of memory alone.
ghost use Rattle.std.specs.Prelude.{◌≡◌, ◌+◌, ◌++◌, ℕ, IfErr, List, MatchResult, None, Some};
ghost use Rattle.mdmp_c.specs.Limits.{most_read};
ghost use Rattle.mdmp_c.specs.Table.{EndsListAt};
ghost use Rattle.mdmp_lister.specs.declared.fault.FaultKind.TheVariants.{Budget};
ghost use Rattle.mdmp_lister.specs.Fault.{IsOfStore, IsUnobtained};
ghost use Rattle.mdmp_lister.specs.Format.Listing.{Run};
ghost use Rattle.mdmp_lister.specs.Format.Ranges.{ranges_of};
ghost use Rattle.mdmp_lister.specs.Requested.{GivesByRequests};
ghost use Rattle.mdmp_lister.specs.Sink.{names_of_all};
ghost use Rattle.mdmp_source.specs.Source.{FetchesSome};
ghost use Rattle.mdmp_source.specs.Store.{IsGood};

use mdmp_lister::{Item, ListFault, Lister, RunFault, Sink, Stopped};
use mdmp_source::Store;
use std::alloc::Allocator;

/// A sink that looks at no item.
#[derive(Drop)]
struct AnyItem;

impl Sink for AnyItem {
    ghost use Rattle.std.specs.Prelude.{◌≡◌, Ok};

    ghost step = { λ old item result new. result ≡ Ok tt };

    fn take(&mut self, _item: &Item<'_>) -> Result<(), Stopped> {
        Ok(())
    }
}

/// Lists all that is left for its ranges alone, up to the first fault.
// Beside what `list_ranges` of a lister says, the names that were read are counted here.
pub(crate) fn list_ranges<S: Store + Drop, A: Allocator + Copy>(
    lister: &mut Lister<S, A>,
) -> Result<(), ListFault>
    requires going { lister.old.stop ≡ None }
    ensures lists { (left : Run) → lister.old.left ≡ Some left → MatchResult result
        (λ _. (left.fault ≡ None) × (lister.new.ranges ≡ lister.old.ranges ++ ranges_of left.items))
        (λ fault. (IsUnobtained fault.kind → ⊥) → left.fault ≡ Some fault) }
    ensures good { (file : List ℕ) → IsGood lister.old.source.store file → IfErr result (λ fault. IsOfStore fault.kind → ⊥) }
    ensures fetches { FetchesSome lister.old.source lister.new.source }
    ensures requests { (left : Run) → lister.old.left ≡ Some left → MatchResult result
        (λ _. GivesByRequests lister.old left.items lister.new)
        (λ fault. (IsUnobtained fault.kind → ⊥) → GivesByRequests lister.old left.items lister.new) }
    ensures ended { (file : List ℕ) → IsGood lister.old.source.store file → (left : Run) → lister.old.left ≡ Some left
        → IfErr result (λ fault. fault.kind ≡ Budget
        → EndsListAt lister.old (most_read file lister.old.choice lister.old.limit (lister.old.counts.names + names_of_all left.items)) fault) }
{
    match lister.list_into(&mut AnyItem) {
        Ok(()) => Ok(()),
        Err(RunFault::At(fault)) => {
            // The proof learns here within which bounds the lister stayed.
            let _counts = lister.counts();
            Err(fault)
        },
        // This sink never stops.
        Err(RunFault::Stopped) => Ok(()),
    }
}
