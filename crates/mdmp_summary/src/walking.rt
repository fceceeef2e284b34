//! A pass over all entries of a file.
ghost use Rattle.std.specs.Prelude.{◌≡◌, ℕ, List, Some, None, false, IfErr, IfOk, IfSome};
ghost use Rattle.mdmp_source.specs.Store.{IsGood};
ghost use Rattle.mdmp_lister.specs.Fault.{is_unobtained};
ghost use Rattle.mdmp_lister.specs.Walker.{is_failed, is_sought};
ghost use Rattle.mdmp_lister.specs.declared.choice.Choice.TheVariants.{All};
ghost use Rattle.mdmp_summary.specs.InEntry.{VisitsInChosen, WalksInChosen};
ghost use Rattle.mdmp_summary.specs.Spending.{PaysLook, PaysPasses};
ghost use Rattle.mdmp_summary.specs.BadEntries.{entry_faults, told_bad};
ghost use Rattle.mdmp_summary.specs.Skipping.{HasBegun, IsBetween, MeetsHead, PassesOver, begun_kind};
ghost use Rattle.mdmp_summary.specs.Visiting.{EndsShow, IsAtMost, IsRestFault, IsUnreadVisit, IsVisitFault, Shows, Visits};
ghost use Rattle.mdmp_summary.specs.Walking.{IsSameListing};

use crate::bad_entries::BadEntries;
use crate::visiting::{VisitEnd, VisitFault, Visitor};
use mdmp_lister::{FaultKind, Item, ListFault, Stopped, StreamKind, Walker};
use mdmp_source::Store;
use std::alloc::Allocator;

/// Whether bytes that were needed were not read, or do not agree with what was read before. Any other error is
/// one of the file.
pub(crate) fn is_unobtained(fault: ListFault) -> bool
    ensures { result ≡ is_unobtained fault.kind }
{
    matches!(fault.kind, FaultKind::Source(_) | FaultKind::Budget)
}

/// The kind of the records of the stream that an item begins, if they are known.
fn begun_kind(item: &Item<'_>) -> Option<StreamKind>
    ensures { result ≡ begun_kind item.now }
{
    match item {
        Item::Stream(stream) => StreamKind::of_type(stream.stream_type),
        _ => None,
    }
}

/// Passes over the records of a stream that was just begun, if they have no names and the visitor has no use for them. It
/// reads the head of the stream: none of the records can have an error behind that.
#[tactic(auto, using(crate::proofs::Skipped::nothing_passed))]
fn pass_unwanted<S: Store + Drop, A: Allocator + Copy, V: Visitor>(
    walker: &mut Walker<S, A>,
    visitor: &V,
    begun: Option<StreamKind>,
) -> Result<(), ListFault>
    requires begun { IfSome begun (HasBegun walker.old) }
    requires going { walker.old.list.stop ≡ None }
    ensures passes { IfOk result (λ done. PassesOver V.taken V.looked visitor.now walker.old walker.new) }
    ensures meets { IfErr result (λ f. MeetsHead walker.old f walker.new) }
{
    let Some(kind) = begun else {
        return Ok(());
    };
    if kind.has_names() || visitor.wants(kind) {
        return Ok(());
    }
    walker.records()?;
    walker.skip_entry();
    Ok(())
}

/// Shows a visitor the items that are left, up to the end or the first error. Items that it has no use for may be passed
/// over: by its clauses they count as shown.
fn visit_rest<S: Store + Drop, A: Allocator + Copy, V: Visitor>(
    walker: &mut Walker<S, A>,
    visitor: &mut V,
) -> Result<(), VisitFault>
    requires all { walker.old.list.choice ≡ All }
    requires going { walker.old.list.stop ≡ None }
    requires between { IsBetween walker.old }
    ensures shows { Shows V.taken V.looked (V.room (V.span visitor.old)) walker.old.list visitor.old result walker.new.list visitor.new }
    ensures ends { EndsShow walker.old.list result walker.new.list }
    ensures fault { IfErr result (IsRestFault walker.old.list walker.new.list) }
    ensures entry { WalksInChosen walker.old → IfErr result (λ fault. VisitsInChosen fault walker.new.list) }
    ensures good { (file : List ℕ) → IsGood walker.old.list.source.store file → IfErr result (λ fault. IsUnreadVisit fault → ⊥) }
    ensures position { is_sought walker.new ≡ false }
    ensures spans { V.span visitor.new ≡ V.span visitor.old }
    ensures pays { PaysLook walker.old result walker.new }
{
    loop {
        let begun = match walker.next() {
            Ok(Some(item)) => match visitor.take(&item) {
                Ok(()) => begun_kind(&item),
                Err(Stopped) => return Err(VisitFault::Ended(VisitEnd::Stopped)),
            },
            Ok(None) => return Ok(()),
            Err(fault) => return Err(VisitFault::List(fault)),
        };
        match visitor.look(walker) {
            Ok(()) => {}
            Err(end) => return Err(VisitFault::Ended(end)),
        }
        match pass_unwanted(walker, visitor, begun) {
            Ok(()) => {}
            Err(fault) => return Err(VisitFault::List(fault)),
        }
    }
}

/// Shows a visitor all items of all entries, each entry up to its own error, and gives the entries that have one. It
/// begins at the first entry, whatever was given before. What it reads for the listing counts against the walker's
/// read limit, as one pass over all entries. What the visitor reads does not count.
///
/// Records without names that the visitor has no use for are not shown, and not read: the head of their stream alone is.
///
/// It returns an error only if bytes were not read, or if the visitor ended it.
pub fn visit_all<S: Store + Drop, A: Allocator + Copy, V: Visitor>(
    walker: &mut Walker<S, A>,
    visitor: &mut V,
) -> Result<BadEntries, VisitFault>
    requires all { walker.old.list.choice ≡ All }
    requires going { is_failed walker.old.list.stop ≡ false }
    ensures visits { Visits V.taken V.looked (V.room (V.span visitor.old)) walker.old.list visitor.old result walker.new.list visitor.new }
    ensures bad { (file : List ℕ) → walker.old.list.source.store.content ≡ Some file
        → IfOk result (λ bad. bad ≡ told_bad (entry_faults file walker.old.list.limit)) }
    ensures going { IfOk result (λ bad. is_failed walker.new.list.stop ≡ false) }
    ensures fault { IfErr result (IsVisitFault walker.old.list walker.new.list) }
    ensures good { (file : List ℕ) → IsGood walker.old.list.source.store file → IfErr result (λ fault. IsUnreadVisit fault → ⊥) }
    ensures pays { PaysPasses 1 walker.old walker.new }
    // An error is one of an entry that was begun in this pass.
    ensures begun { IfErr result (λ fault. IsAtMost walker.old.list.counts.aside walker.new.mark.aside) }
    ensures same { IsSameListing walker.old.list walker.new.list }
{
    let mut bad = BadEntries::none();
    let streams = walker.header().number_of_streams;
    if streams == 0 {
        return Ok(bad);
    }
    walker.seek_entry(0);
    // Each look but the last ends at the error of an entry.
    let looks = u64::from(streams) + 1;
    'entries: for _ in 0..looks {
        match visit_rest(walker, visitor) {
            Ok(()) => return Ok(bad),
            Err(VisitFault::Ended(end)) => return Err(VisitFault::Ended(end)),
            Err(VisitFault::List(fault)) => {
                if is_unobtained(fault) {
                    return Err(VisitFault::List(fault));
                }
                bad.take(fault);
                walker.skip_entry();
            }
        }
    }
    Ok(bad)
}
