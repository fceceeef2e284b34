//! Hints for the prover. These functions do nothing. Their contracts say that the numbers of a value
//! fit their fields in a file.
ghost use Rattle.std.specs.Prelude.{All, slice_index, ℕ, ◌^◌, ◌<◌};
ghost use Rattle.mdmp_dump.specs.Fits.{Fits, StreamFits};
ghost use Rattle.mdmp_dump.specs.Memory64.{Memory64Fits};
ghost use Rattle.mdmp_dump.specs.Name.{NameFits};
ghost use Rattle.mdmp_dump.specs.Part.{PartFits};

mod values;

use crate::dump::{Dump, Stream, by_records};
use crate::memory64::Memory64Range;
use crate::part::Part;
use mdmp_lister::StreamKind;
use mdmp_wire::Units;
use std::alloc::Allocator;

/// A value whose numbers fit the places that a file has for them.
pub(crate) trait Fitting {
    // They do.
    ghost Fit: { Self → Type 0 };

    /// As its type says.
    fn fits(&self)
        ensures { Fit self.now };
}

impl Fitting for u8 {
    ghost Fit = { λ n. n < 2 ^ 8 };

    fn fits(&self) {
        let _number = *self;
    }
}

impl Fitting for u16 {
    ghost Fit = { λ n. n < 2 ^ 16 };

    fn fits(&self) {
        let _number = *self;
    }
}

impl Fitting for u32 {
    ghost Fit = { λ n. n < 2 ^ 32 };

    fn fits(&self) {
        let _number = *self;
    }
}

impl Fitting for u64 {
    ghost Fit = { λ n. n < 2 ^ 64 };

    fn fits(&self) {
        let _number = *self;
    }
}

impl<A: Allocator> Fitting for Part<A> {
    ghost Fit = { PartFits };

    fn fits(&self) {
        match self {
            Part::Bytes(_) => {},
            Part::Absent(size) => {
                let _size = size.get();
            },
        }
    }
}

impl<A: Allocator> Fitting for Memory64Range<A> {
    ghost Fit = { Memory64Fits };

    fn fits(&self) {
        let _start = self.start;
    }
}

impl<A: Allocator> Fitting for Stream<A> {
    ghost Fit = { StreamFits };

    fn fits(&self) {
        by_records!(
            self, _kind,
            list records => all_fit(records),
            single record => record.fits(),
            Stream::Unused => {},
            Stream::Raw(stream_type, _) => {
                let _stream_type = *stream_type;
            },
        )
    }
}

impl<A: Allocator> Fitting for Dump<A> {
    ghost Fit = { Fits };

    fn fits(&self) {
        let _version_high = self.version_high;
        let _checksum = self.checksum;
        let _time = self.time;
        let _flags = self.flags;
        all_fit(self.streams.as_slice());
    }
}

/// The numbers of each of some values fit.
pub(crate) fn all_fit<T: Fitting>(values: &[T])
    ensures { All T.Fit values.now }
{
    for value in values {
        value.fits();
    }
}

/// Units have 16 bits each.
fn units_fit<A: Allocator>(units: &Units<A>)
    ensures { (i : ℕ) → slice_index units.now i < 2 ^ 16 }
{
    let lent = units.view();
    for i in 0..lent.len() {
        let _unit = lent.get(i);
    }
}

/// The units of a name, if there is one, have 16 bits each.
pub(crate) fn name_fits<A: Allocator>(name: &Option<Units<A>>)
    ensures { NameFits name.now }
{
    match name {
        Some(units) => units_fit(units),
        None => {},
    }
}
