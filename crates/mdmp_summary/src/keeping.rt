//! The first of some values, and how many there are.
ghost use Rattle.std.specs.Prelude.{◌≡◌, ◌∷◌, []};
ghost use Rattle.mdmp_source.specs.Count.{raised};
ghost use Rattle.mdmp_summary.specs.Keeping.{kept};

/// Keeps a value, unless one was kept before it.
pub(crate) fn keep<T: Copy>(place: &mut Option<T>, value: T)
    ensures { place.new ≡ kept place.old (value ∷ []) }
{
    match place {
        Some(_) => {}
        None => *place = Some(value),
    }
}

/// Adds to a count. The count stops at the greatest u128.
pub(crate) fn count(counter: &mut u128, more: u128)
    ensures { counter.new ≡ raised counter.old more }
{
    *counter = counter.saturating_add(more);
}
