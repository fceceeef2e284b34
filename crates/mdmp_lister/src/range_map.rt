//! The map beside a walk.
ghost use Rattle.std.specs.Prelude.{◌≡◌, ◌≤◌, ◌++◌, ◌-◌, ◌^◌, IfSome, length};
ghost use Rattle.mdmp_map.specs.Map.{free_of};
ghost use Rattle.mdmp_lister.specs.Format.Ranges.{IsRangeIn};
ghost use Rattle.mdmp_lister.specs.HeldStep.{ranges_told};

use crate::item::RangeItem;
use mdmp_map::AddressMap;
use mdmp_source::Extent;
use std::alloc::Allocator;

/// Puts a range that lies inside the file behind those of a map.
#[inline(always)]
pub(crate) fn push_range<A: Allocator>(map: &mut AddressMap<A>, range: Option<RangeItem>)
    requires placed { IfSome range (IsRangeIn (2 ^ 64 - 1)) }
    requires room { length (ranges_told range) ≤ free_of map.old }
    ensures { map.new ≡ record map.old { ranges = map.old.ranges ++ ranges_told range } }
{
    if let Some(range) = range {
        if let Extent::Inside = range.extent {
            map.push(range.start, range.size, range.offset as u64);
        }
    }
}
