//! Dumps that can't be written, and why.
ghost use Rattle.std.specs.Prelude.{◌≡◌, [], ◌∷◌, false, None, Some};
ghost use Rattle.mdmp_source.specs.declared.fault.SourceFault.TheVariants.{Failed};
ghost use Rattle.mdmp_dump.specs.declared.view.ViewFault.TheVariants.{Source};
ghost use Rattle.mdmp_dump.specs.declared.view.Kind.TheVariants as kinds;
ghost use Rattle.std.proofs.lemmas.Option.{none-some};
ghost use Rattle.mdmp_dump_tests.specs.Sizes.{no_stray_parts};

use super::{assert_wrote, patchy_out, size_of};
use crate::dump::built::{bytes, dump_of};
use crate::same::assert_same_at;
use mdmp_dump::{DumpView, Fields, HeaderFields, Kind, Stream, ViewFault};
use mdmp_source::SourceFault;
use mdmp_writer::{LayoutFault, WriteFault};
use std::alloc::Global;
use std::process::Abort;

/// Sizes alone are known.
const NO_BYTES: ViewFault = ViewFault::Source(SourceFault::Failed { at: 0 });

/// A view that only tells sizes: of a stream of raw bytes, and of one of 64-bit memory in one range.
#[derive(Drop)]
struct SizesView {
    stream_type: u32,
    raw: u64,
    far: u64,
}

impl DumpView for SizesView {
    type Memory = Global;

    ghost shape = { λ v. record {
      header = record { version_high = 0; checksum = 0; time = 0; flags = 0 };
      streams = record { kind = kinds.Raw v.stream_type; records = 0; raw = v.raw; parts = 0; bytes = 0 }
          ∷ record { kind = kinds.Known 9; records = 1; raw = 0; parts = v.far; bytes = 0 } ∷ [];
      costs = [];
      places = [];
      is_reliable = false;
      seen = None;
    } };

    ghost cursor = { λ v. record { kind = kinds.Unused; records = 1; room = 0; far = 0; bytes = 0; seen = None; sizes = λ k. 0; parts = None; at = 0 } };

    ghost spent = { λ v. record { passed = 0; asked = 0; fetches = 0; fault = Some (Source (Failed 0)) } };

    ghost Moves = { λ u v. Unit {0} };

    fn streams(&mut self) -> u64 {
        2
    }

    fn header(&mut self) -> HeaderFields {
        HeaderFields {
            version_high: 0,
            checksum: 0,
            time: 0,
            flags: 0,
        }
    }

    fn kind(&mut self, stream: u64) -> Kind {
        if stream == 0 {
            Kind::Raw(self.stream_type)
        } else {
            Kind::Known(9)
        }
    }

    fn body_size(&mut self, stream: u64) -> u64 {
        let raw = self.raw;
        if stream == 0 { raw } else { 32 }
    }

    fn parts_size(&mut self, stream: u64) -> u64 {
        let far = self.far;
        if stream == 0 { 0 } else { far }
    }

    fn rewind(&mut self, _stream: u64) -> Result<(), ViewFault> {
        Err(NO_BYTES)
    }

    fn next_record(&mut self) -> Result<Fields, ViewFault> {
        Err(NO_BYTES)
    }

    fn part(&mut self, _which: usize, _at: u64, _out: &mut [u8]) -> Result<(), ViewFault> {
        Err(NO_BYTES)
    }

    fn passed(&mut self) -> u128 {
        0
    }

    fn asked(&mut self) -> u128 {
        0
    }

    ghost sound = { λ v x known. absurd (none-some x known) };

    ghost kinds = { λ v x k known. absurd (none-some x known) };

    ghost stray = { λ v. no_stray_parts v.stream_type v.raw v.far };

    ghost stays = { λ v. tt };

    ghost follows = { λ u v w p q. tt };
}

/// Asserts that a view can't be written for this reason, and that nothing of it is.
fn assert_refused<V: DumpView>(rt: &impl Abort, alloc: Global, view: &mut V, fault: LayoutFault) {
    assert_same_at(rt, &fault, size_of(view), Err(fault));
    let refused = Err(WriteFault::Layout(fault));
    let out = patchy_out(rt, alloc, 4096, 4096, None);
    assert_wrote(rt, view, out, 1, refused, b"");
}

/// Types whose records are known.
static KNOWN: [u32; 10] = [0, 3, 4, 5, 6, 7, 9, 14, 16, 24];

/// Asserts that raw bytes of this known type are refused behind an unused entry, and told before those behind them.
fn assert_known_refused(rt: &impl Abort, alloc: Global, stream_type: u32) {
    let raw = Stream::Raw(stream_type, bytes(rt, alloc, &[1]));
    let empty = Stream::Raw(3, bytes(rt, alloc, &[]));
    let dump = dump_of(rt, alloc, [Stream::Unused, raw, empty]);
    let fault = LayoutFault::RawKnownType { stream: 1 };
    assert_refused(rt, alloc, &mut dump.view(), fault);
}

#[test]
fn first_stream_of_raw_bytes_of_a_known_type_is_refused(rt: HostRuntime) {
    for stream_type in &KNOWN {
        assert_known_refused(&rt, rt.alloc(), *stream_type);
    }
    let raw = Stream::Raw(3, bytes(&rt, rt.alloc(), &[]));
    let dump = dump_of(&rt, rt.alloc(), [raw]);
    let fault = LayoutFault::RawKnownType { stream: 0 };
    assert_refused(&rt, rt.alloc(), &mut dump.view(), fault);
}

/// Where no stream ends, nor begins.
const END: u64 = 1 << 32;

/// The type and the size of a raw stream, how much 64-bit memory there is, and how large both are as a dump. Its streams
/// end 88 bytes behind these, up to a multiple of 4.
type SizesRow = (u32, u64, u64, Result<u64, LayoutFault>);

static SIZES: [SizesRow; 13] = [
    // Streams end below 2^32,
    (10, END - 88, 0, Err(LayoutFault::TooLarge)),
    (10, END - 91, 0, Err(LayoutFault::TooLarge)),
    (10, END, 0, Err(LayoutFault::TooLarge)),
    (10, u64::MAX, 0, Err(LayoutFault::TooLarge)),
    (10, END - 92, 0, Ok(END - 4)),
    (10, END - 95, 0, Ok(END - 4)),
    (10, END - 92, END, Ok(2 * END - 4)),
    // and a file below 2^64.
    (10, 0, u64::MAX - 87, Err(LayoutFault::TooLarge)),
    (10, 0, u64::MAX - 90, Err(LayoutFault::TooLarge)),
    (10, 0, u64::MAX, Err(LayoutFault::TooLarge)),
    (10, 0, u64::MAX - 91, Ok(u64::MAX - 3)),
    (10, 0, u64::MAX - 94, Ok(u64::MAX - 3)),
    // A type is told before the size.
    (
        3,
        u64::MAX,
        u64::MAX,
        Err(LayoutFault::RawKnownType { stream: 0 }),
    ),
];

#[test]
fn dump_that_is_too_large_is_not_begun(rt: HostRuntime) {
    for row in &SIZES {
        let (stream_type, raw, far, size) = *row;
        let mut view = SizesView {
            stream_type,
            raw,
            far,
        };
        match size {
            Ok(size) => assert_same_at(&rt, row, size_of(&mut view), Ok(size)),
            Err(fault) => assert_refused(&rt, rt.alloc(), &mut view, fault),
        }
    }
}
