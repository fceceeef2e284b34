//! A walk whose ranges of memory are kept: there is room for so many.
//!
//! A memory list whose head counts more ranges than there is room left for has changed since the file
//! was opened, when that room was taken by the same head.
ghost use Rattle.std.specs.Prelude.{◌≡◌, ◌++◌, MatchResult};
ghost use Rattle.mdmp_lister.specs.HeldStep.{AnswerHasItsBytes, answer_told};
ghost use Rattle.mdmp_lister.specs.Meter.{KeepsTo};
ghost use Rattle.mdmp_lister.specs.Walk.{IsSound};
ghost use Rattle.mdmp_lister.specs.Walk.Mapping.{IsMapped, ranges_read};
ghost use Rattle.mdmp_lister.specs.Walk.Owing.{HasRoom, count_answered};
ghost use Rattle.mdmp_lister.specs.Walk.Requests.{Answered, HeadRead};

use crate::fault::ListFault;
use crate::held_step::HeldStep;
use crate::range_map::push_range;
use crate::stage::Stage;
use crate::walk::Walk;
use mdmp_map::AddressMap;
use mdmp_source::Store;
use std::alloc::Allocator;

/// Gives the next step, or the fault that is next, with room for so many ranges.
#[inline(always)]
pub(crate) fn advance<S: Store + Drop, A: Allocator + Copy>(
    walk: &mut Walk<S, A>,
    room: usize,
) -> Result<Option<HeldStep>, ListFault>
    requires sound { IsSound walk.old }
    requires room { HasRoom room 0 walk.old }
    ensures answered { Answered walk.old (answer_told walk.new.window.held result) walk.new }
    ensures whole { AnswerHasItsBytes walk.new.window.held result }
    ensures room { HasRoom room (count_answered (answer_told walk.new.window.held result)) walk.new }
{
    match walk.stage {
        Stage::Head => {
            read_head(walk, room)?;
            walk.go_on()
        }
        _ => walk.go_on(),
    }
}

/// Gives the next step, or the fault that is next. The range of the step that lies inside the file is put into the map.
#[inline(always)]
pub(crate) fn advance_mapped<S: Store + Drop, A: Allocator + Copy>(
    walk: &mut Walk<S, A>,
    map: &mut AddressMap<A>,
) -> Result<Option<HeldStep>, ListFault>
    requires { IsMapped walk.old map.old }
    ensures answered { Answered walk.old (answer_told walk.new.window.held result) walk.new }
    ensures whole { AnswerHasItsBytes walk.new.window.held result }
    ensures mapped { IsMapped walk.new map.new }
    ensures pushed { map.new ≡ record map.old { ranges = map.old.ranges ++ ranges_read walk.new.meter.source.size walk.new.name.items (answer_told walk.new.window.held result) } }
    ensures kept { KeepsTo walk.new.meter.budget walk.new.meter.fetched }
{
    match advance(walk, map.free()) {
        Ok(None) => {
            walk.meter.keeps_budget();
            Ok(None)
        }
        Ok(Some(held)) => {
            walk.meter.keeps_budget();
            push_range(map, walk.range(&held));
            Ok(Some(held))
        }
        Err(fault) => {
            walk.meter.keeps_budget();
            Err(fault)
        }
    }
}

/// Reads where the records of the current entry stand, with room for so many ranges.
pub(crate) fn read_head<S: Store + Drop, A: Allocator + Copy>(
    walk: &mut Walk<S, A>,
    room: usize,
) -> Result<(), ListFault>
    requires sound { IsSound walk.old }
    requires room { HasRoom room 0 walk.old }
    requires head { walk.old.stage ≡ Stage.Head }
    ensures read { MatchResult result (λ _. HeadRead walk.old walk.new) (λ fault. Answered walk.old (Err fault) walk.new) }
    ensures room { HasRoom room 0 walk.new }
{
    walk.read_head()?;
    if walk.ranges_ahead() > room as u64 {
        return walk.stop_changed();
    }
    Ok(())
}
