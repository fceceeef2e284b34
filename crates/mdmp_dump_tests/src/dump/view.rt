//! The calls of a view of a dump.
ghost use Rattle.std.specs.Prelude.{◌≡◌, ◌<◌, length, IsTrue};
ghost use Rattle.mdmp_dump.specs.Shape.{head_of, stream_at};

use super::built::value_of;
use crate::files::{
    ABSENT_STACK_READING, CRASH_READING, DumpReading, MEMORY64_READING, SIX_READING,
};
use crate::same::assert_same_at;
use crate::vectors::HEADER_READING;
use mdmp_dump::{DumpView, Fields, HeaderFields, Kind, PartSize, ViewFault};
use mdmp_source::Location;
use mdmp_wire::{AnyRecord, Descriptor, Descriptor64, ThreadRecord};
use std::process::Abort;

/// What a stream is, how many bytes its body has, and how many its names and parts take.
pub type StreamTold = (Kind, u64, u64);

/// What is told of a stream, if there is one with this number.
pub fn told_of<V: DumpView>(view: &mut V, stream: u64) -> Option<StreamTold> {
    if stream >= view.streams() {
        return None;
    }
    Some((
        view.kind(stream),
        view.body_size(stream),
        view.parts_size(stream),
    ))
}

/// The bytes that stand before the records of a stream of this type.
fn head_of(stream_type: u32) -> u64
    ensures { result ≡ head_of stream_type }
{
    match stream_type {
        3 => 4,
        4 => 4,
        5 => 4,
        9 => 16,
        14 => 12,
        16 => 16,
        24 => 4,
        _ => 0,
    }
}

/// Whether a stream has records.
#[tactic(auto, using(crate::proofs::Records::has_records))]
pub fn has_records<V: DumpView>(view: &mut V, stream: u64) -> bool
    requires { stream < length (V.shape view.old).streams }
    ensures shape { V.shape view.new ≡ V.shape view.old }
    ensures records { IsTrue result → 0 < (stream_at (V.shape view.old) stream).records }
{
    match view.kind(stream) {
        Kind::Known(stream_type) => view.body_size(stream) > head_of(stream_type),
        _ => false,
    }
}

/// The name of a call of a view. It is a text, since what a derive makes of an enum is long for the prover.
pub type ViewCall = &'static str;

pub const REWIND: ViewCall = "rewind";

pub const NEXT_RECORD: ViewCall = "next_record";

pub const PART: ViewCall = "part";

/// The fault of a view, and the call that told it.
pub type CallFault = (ViewCall, ViewFault);

/// What of a view is asked for: bytes of a stream, of its own or of a part of its first record, from a place
/// on.
#[derive(Clone, Copy)]
pub struct Wanted {
    pub stream: u64,
    pub which: usize,
    pub at: u64,
}

/// The first record of a stream, if it has records, and of one of its parts the bytes from a place on, if
/// there are so many.
pub fn first_record<V: DumpView>(
    view: &mut V,
    wanted: &Wanted,
    out: &mut [u8],
) -> Result<Option<Fields>, CallFault> {
    let Wanted { stream, which, at } = *wanted;
    if stream >= view.streams() || !has_records(view, stream) {
        return Ok(None);
    }
    if let Err(fault) = view.rewind(stream) {
        return Err((REWIND, fault));
    }
    let fields = match view.next_record() {
        Ok(fields) => fields,
        Err(fault) => return Err((NEXT_RECORD, fault)),
    };
    if let Some(PartSize::Size(size)) = fields.parts.get(which) {
        if at <= *size && out.len() as u64 <= *size - at {
            if let Err(fault) = view.part(which, at, out) {
                return Err((PART, fault));
            }
        }
    }
    Ok(Some(fields))
}

/// Whether a stream is one of raw bytes, and of these those from a place on, if there are so many.
pub fn raw_bytes<V: DumpView>(
    view: &mut V,
    wanted: &Wanted,
    out: &mut [u8],
) -> Result<bool, CallFault> {
    let Wanted { stream, at, .. } = *wanted;
    if stream >= view.streams() {
        return Ok(false);
    }
    let Kind::Raw(_) = view.kind(stream) else {
        return Ok(false);
    };
    let size = view.body_size(stream);
    if let Err(fault) = view.rewind(stream) {
        return Err((REWIND, fault));
    }
    if at <= size && out.len() as u64 <= size - at {
        if let Err(fault) = view.part(0, at, out) {
            return Err((PART, fault));
        }
    }
    Ok(true)
}

/// A stream, the record that is given as its first one, if any, and the sizes of its name and parts.
type RecordRow = (u64, Option<AnyRecord>, (PartSize, PartSize, PartSize));

/// The sizes of no record.
const NO_PARTS: (PartSize, PartSize, PartSize) = (
    PartSize::NoPart,
    PartSize::NoPart,
    PartSize::NoPart,
);

/// Whether bytes of a record are asked for or raw ones, the stream, the part and the place of these, whether they are
/// there, and the bytes that are given.
type PieceRow = (bool, u64, usize, u64, bool, &'static [u8]);

/// What one view of a dump gives, one after another: the numbers of its header, what is told of each of its streams, the
/// first records of some, and pieces of these and of raw bytes.
struct ViewRow {
    reading: DumpReading,
    header: HeaderFields,
    told: &'static [StreamTold],
    records: &'static [RecordRow],
    pieces: &'static [PieceRow],
}

/// The header of most dumps.
const NO_NUMBERS: HeaderFields = HeaderFields {
    version_high: 0,
    checksum: 0,
    time: 0,
    flags: 0,
};

/// Where nothing is.
const NOWHERE: Location = Location { size: 0, rva: 0 };

/// A thread without its locations, whose stack begins at 0x7000.
const THREAD: ThreadRecord = ThreadRecord {
    thread_id: 7,
    suspend_count: 0,
    priority_class: 0,
    priority: 0,
    teb: 0,
    stack: Descriptor {
        start_of_memory_range: 0x7000,
        memory: NOWHERE,
    },
    thread_context: NOWHERE,
};

static VIEWS: [ViewRow; 5] = [
    ViewRow {
        reading: SIX_READING,
        header: NO_NUMBERS,
        told: &[
            (Kind::Known(7), 56, 36),
            (Kind::Known(3), 52, 12),
            (Kind::Known(4), 4, 0),
            (Kind::Known(6), 168, 4),
            (Kind::Known(5), 4, 0),
            (Kind::Raw(12), 4, 0),
        ],
        // A record without its locations, and a list without records.
        records: &[
            (
                1,
                Some(AnyRecord::Thread(ThreadRecord {
                    priority_class: 32,
                    teb: 0x5000,
                    ..THREAD
                })),
                (PartSize::Size(4), PartSize::Size(6), PartSize::NoPart),
            ),
            (2, None, NO_PARTS),
            (6, None, NO_PARTS),
        ],
        // By pieces.
        pieces: &[
            (true, 0, 0, 0, true, b"S\0e"),
            (true, 0, 0, 3, true, b"\0r\0v"),
            (true, 0, 0, 26, true, b"1\0"),
            (true, 1, 0, 0, true, b"STAK"),
            (true, 1, 1, 0, true, &[1, 2, 3, 4]),
            (true, 1, 1, 4, true, &[5, 6]),
            (true, 1, 1, 6, true, &[]),
            (true, 3, 0, 0, true, &[0xaa]),
            (true, 3, 0, 1, true, &[0xbb, 0xcc, 0xdd]),
            (false, 5, 0, 1, true, &[2, 3]),
            (false, 4, 0, 0, false, &[0, 0]),
        ],
    },
    ViewRow {
        reading: CRASH_READING,
        header: NO_NUMBERS,
        told: &[(Kind::Known(3), 52, 12), (Kind::Known(6), 168, 4)],
        records: &[(6, None, NO_PARTS)],
        pieces: &[],
    },
    ViewRow {
        reading: MEMORY64_READING,
        header: NO_NUMBERS,
        told: &[(Kind::Known(9), 48, 8)],
        records: &[
            (
                0,
                Some(AnyRecord::Memory64(Descriptor64 {
                    start_of_memory_range: 0x1000,
                    data_size: 4,
                })),
                (PartSize::Size(4), PartSize::NoPart, PartSize::NoPart),
            ),
            (6, None, NO_PARTS),
        ],
        pieces: &[(true, 0, 0, 1, true, b"BCD")],
    },
    // An absent part is given as its size.
    ViewRow {
        reading: ABSENT_STACK_READING,
        header: NO_NUMBERS,
        told: &[(Kind::Known(3), 52, 4)],
        records: &[
            (
                0,
                Some(AnyRecord::Thread(THREAD)),
                (PartSize::Absent(256), PartSize::Size(1), PartSize::NoPart),
            ),
            (6, None, NO_PARTS),
        ],
        pieces: &[],
    },
    ViewRow {
        reading: HEADER_READING,
        header: HeaderFields {
            version_high: 0x12aa,
            checksum: 1,
            time: 2,
            flags: 0x0400000000000003,
        },
        told: &[],
        records: &[],
        pieces: &[],
    },
];

/// Asserts what is told of the header and of each stream of a view.
fn assert_told<V: DumpView>(rt: &impl Abort, view: &mut V, row: &ViewRow) {
    assert_same_at(rt, &row.reading.name, view.header(), row.header);
    let mut stream: u64 = 0;
    for told in row.told {
        assert_same_at(rt, &stream, told_of(view, stream), Some(*told));
        stream = stream.saturating_add(1);
    }
    assert_same_at(rt, &stream, told_of(view, stream), None);
}

/// Asserts what is given as the first record of a stream.
fn assert_record<V: DumpView>(rt: &impl Abort, view: &mut V, row: &RecordRow) {
    let (stream, record, (first, second, third)) = *row;
    let wanted = Wanted {
        stream,
        which: 0,
        at: 0,
    };
    let expected = match record {
        Some(wire) => Some(Fields {
            wire,
            parts: [first, second, third],
        }),
        None => None,
    };
    let found = first_record(view, &wanted, &mut []);
    assert_same_at(rt, &stream, found, Ok(expected));
}

/// Asserts that the first record of a stream is given, or raw bytes are, and these bytes of it.
fn assert_piece<V: DumpView>(rt: &impl Abort, view: &mut V, row: &PieceRow) {
    let (of_record, stream, which, at, expected, bytes) = *row;
    let wanted = Wanted { stream, which, at };
    let mut buffer = [0; 8];
    let out = buffer.get_mut(..bytes.len()).expect(rt, "room");
    let is_there = if of_record {
        match first_record(view, &wanted, out) {
            Ok(fields) => Ok(fields.is_some()),
            Err(fault) => Err(fault),
        }
    } else {
        raw_bytes(view, &wanted, out)
    };
    let found = (is_there, buffer.get(..bytes.len()));
    assert_same_at(rt, row, found, (Ok(expected), Some(bytes)));
}

/// Asserts what a view gives.
fn assert_view<V: DumpView>(rt: &impl Abort, view: &mut V, row: &ViewRow) {
    assert_told(rt, view, row);
    for record in row.records {
        assert_record(rt, view, record);
    }
    for piece in row.pieces {
        assert_piece(rt, view, piece);
    }
}

#[test]
fn streams_records_and_parts_are_those_of_the_value(rt: HostRuntime) {
    for row in &VIEWS {
        let dump = value_of(&rt, rt.alloc(), &row.reading);
        assert_view(&rt, &mut dump.view(), row);
    }
}
