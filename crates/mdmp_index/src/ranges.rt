//! Ranges, as their owner keeps them.
ghost use Rattle.std.specs.Prelude.{◌≡◌, ◌<◌, ◌↔◌, List, All, IfSome, IsSome, length};
ghost use Rattle.mdmp_map.specs.declared.range.Range.{Range};
ghost use Rattle.mdmp_index.specs.Index.{OffsetsFit};
ghost use Rattle.mdmp_index.specs.Slots.{range_at};

use mdmp_map::Range;

/// Ranges in listing order, in whatever form their owner keeps them. A range of no bytes holds no address:
/// it takes the place of a row that is passed over, so that the other rows keep their numbers.
pub trait Ranges {
    /// The ranges.
    ghost ranges: { Self → List Range };

    /// How many there are.
    fn count(&self) -> usize
        ensures { result ≡ length (ranges self.now) };

    /// The range with this number, from 0 on. Its bytes are at offsets that fit.
    fn range(&self, number: usize) -> Range
        requires { number < length (ranges self.now) }
        ensures value { result ≡ range_at (ranges self.now) number }
        ensures fits { OffsetsFit result };
}

/// Ranges in a slice, whose bytes are at offsets that fit.
#[derive(Clone, Copy)]
pub struct Listed<'a> {
    ranges: &'a [Range],
    ghost fit: { All OffsetsFit ranges.now },
}

impl<'a> Listed<'a> {
    /// These ranges, or none if an offset of a byte of theirs does not fit.
    pub fn new(ranges: &'a [Range]) -> Option<Self>
        ensures fit { IsSome result ↔ All OffsetsFit ranges.now }
        ensures same { IfSome result (λ listed. listed.ranges.now ≡ ranges.now) }
    {
        for range in ranges {
            if range.length > u64::MAX - range.offset {
                return None;
            }
        }
        Some(Listed { ranges })
    }
}

impl Ranges for Listed<'_> {
    ghost ranges = { λ s. s.ranges.now };

    fn count(&self) -> usize {
        self.ranges.len()
    }

    fn range(&self, number: usize) -> Range {
        self.ranges[number]
    }
}
