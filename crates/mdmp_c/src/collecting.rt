//! The rows of a listing, put into an array.
ghost use Rattle.std.specs.Prelude.{◌≡◌, ◌+◌, ◌∷◌, ◌++◌, [], None, Some, ℕ, List, length};
ghost use Rattle.mdmp_c.specs.Giving.{put_front, told_count};
ghost use Rattle.mdmp_c.specs.Limits.{most_read};
ghost use Rattle.mdmp_c.specs.Table.{Collects, EndsListAt, PutsOne};
ghost use Rattle.mdmp_lister.specs.Format.Listing.{Run};
ghost use Rattle.mdmp_lister.specs.Requested.{GivesByRequests};
ghost use Rattle.mdmp_lister.specs.Sink.{names_of_all};
ghost use Rattle.mdmp_source.specs.Store.{IsGood};

use crate::rows::PlainRow;
use mdmp_lister::{ListFault, Lister};
use mdmp_source::Store;
use std::alloc::Allocator;

/// How many rows there are, and the fault at which they end.
#[derive(Clone, Copy)]
pub(crate) struct Collected {
    pub count: u64,
    pub fault: Option<ListFault>,
}

/// Puts the rows of what is left of a listing into an array, as far as it has room.
pub(crate) fn collect<T: PlainRow, S: Store + Drop, A: Allocator + Copy>(
    lister: &mut Lister<S, A>,
    out: &mut [T],
) -> Collected
    requires going { lister.old.stop ≡ None }
    ensures { (file : List ℕ) → IsGood lister.old.source.store file → (left : Run) → lister.old.left ≡ Some left
        → Collects T.row_of (EndsListAt lister.old (most_read file lister.old.choice lister.old.limit (lister.old.counts.names + names_of_all left.items))) (λ items. GivesByRequests lister.old items lister.new)
        left result.count result.fault out.old out.new }
{
    let mut count = 0u64;
    loop {
        match lister.next() {
            Ok(None) => return Collected { count, fault: None },
            Ok(Some(item)) => count = take_row(out, count, T::of(&item)),
            Err(fault) => {
                // The proof learns here within which bounds the lister stayed.
                let _counts = lister.counts();
                return Collected {
                    count,
                    fault: Some(fault),
                };
            }
        }
    }
}

/// Puts a row, if there is one, behind those that an array has at its front, and returns how many there are.
fn take_row<T: Copy>(out: &mut [T], count: u64, row: Option<T>) -> u64
    ensures { PutsOne row count out.old result out.new }
{
    match row {
        Some(row) => {
            set_row(out, count, row);
            count.saturating_add(1)
        }
        None => count,
    }
}

/// Puts a row behind those that an array has at its front, where it has room.
pub(crate) fn set_row<T: Copy>(out: &mut [T], at: u64, row: T)
    ensures { (rows : List T) (before : List T) → out.old ≡ put_front rows before → at ≡ told_count (length rows)
        → out.new ≡ put_front (rows ++ row ∷ []) before }
{
    if at < out.len() as u64 {
        out[at as usize] = row;
    }
}
