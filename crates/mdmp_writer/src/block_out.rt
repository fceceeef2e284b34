//! A stream to an output: its body, and behind it its names and parts.
ghost use Rattle.std.specs.Prelude.{◌≡◌, ◌<◌, ◌+◌, ◌^◌, OnOk, Some, length};
ghost use Rattle.mdmp_dump.specs.declared.view.Kind.TheVariants.{Known, Raw};
ghost use Rattle.mdmp_dump.specs.Places.{up};
ghost use Rattle.mdmp_dump.specs.Shape.{cost_at, room_of, seen_at, stream_at};
ghost use Rattle.mdmp_dump.specs.View.{DumpSeen};
ghost use Rattle.mdmp_writer.specs.Block.{RecordsAreKnown};
ghost use Rattle.mdmp_writer.specs.Gather.{gathered, PutsSome, Writes};
ghost use Rattle.mdmp_writer.specs.Layout.{block_size, IsRoom};
ghost use Rattle.mdmp_writer.specs.Passes.{block_asks, block_passes, parts_asks, parts_passes};
ghost use Rattle.mdmp_writer.specs.Written.{all_padded, block_text, padded, parts_of};
ghost use Rattle.mdmp_writer.specs.Uses.{used, Uses};

use crate::body_out::write_body;
use crate::fault::WriteFault;
use crate::gather::Gather;
use crate::layout::StreamRoom;
use crate::pieces::{write_padded, write_padding};
use crate::place::StreamPlace;
use crate::record_texts::{RecordText, write_record_texts};
use crate::sizes::count_of;
use mdmp_dump::{DumpView, Kind, PartSize};
use mdmp_lister::StreamKind;
use mdmp_source::Out;

/// Writes the names and parts of a stream of so many records, by a second pass over it.
fn write_second_pass<V: DumpView, O: Out>(
    view: &mut V,
    out: &mut O,
    gather: &mut Gather<'_>,
    stream: u64,
    count: u64,
) -> Result<(), WriteFault>
    requires stream { stream < length (V.shape view.old).streams }
    requires count { count ≡ (stream_at (V.shape view.old) stream).records }
    requires room { room_of (stream_at (V.shape view.old) stream) < 2 ^ 32 }
    ensures writes { (x : DumpSeen) → (V.shape view.old).seen ≡ Some x
        → Writes result (gathered (O.state out.old) gather.old) (all_padded (parts_of (seen_at x stream).records)) (gathered (O.state out.new) gather.new) }
    ensures some { OnOk result (PutsSome (gathered (O.state out.old) gather.old) (room_of (stream_at (V.shape view.old) stream)) (gathered (O.state out.new) gather.new)) }
    ensures uses { Uses result (used (V.shape view.old) (V.spent view.old) (O.state out.old)) (cost_at (V.shape view.old) stream) ((stream_at (V.shape view.old) stream).bytes) (used (V.shape view.new) (V.spent view.new) (O.state out.new)) }
    ensures moves { V.Moves view.old view.new }
{
    match view.rewind(stream) {
        Ok(()) => write_record_texts(view, out, gather, RecordText::Parts, count, 0),
        Err(fault) => Err(WriteFault::View(fault)),
    }
}

/// Writes what stands behind the body of a stream of so many records, its names and parts: by a second
/// pass, where they take room there. The bytes of 64-bit memory stand behind all streams.
fn write_stream_parts<V: DumpView, O: Out>(
    view: &mut V,
    out: &mut O,
    gather: &mut Gather<'_>,
    stream: u64,
    count: u64,
    parts: u64,
) -> Result<(), WriteFault>
    requires stream { stream < length (V.shape view.old).streams }
    requires count { count ≡ (stream_at (V.shape view.old) stream).records }
    requires parts { parts ≡ room_of (stream_at (V.shape view.old) stream) }
    requires room { room_of (stream_at (V.shape view.old) stream) < 2 ^ 32 }
    ensures writes { (x : DumpSeen) → (V.shape view.old).seen ≡ Some x
        → Writes result (gathered (O.state out.old) gather.old) (all_padded (parts_of (seen_at x stream).records)) (gathered (O.state out.new) gather.new) }
    ensures some { OnOk result (PutsSome (gathered (O.state out.old) gather.old) (room_of (stream_at (V.shape view.old) stream)) (gathered (O.state out.new) gather.new)) }
    ensures uses { Uses result (used (V.shape view.old) (V.spent view.old) (O.state out.old)) (parts_passes (V.shape view.old) stream) (parts_asks (V.shape view.old) stream) (used (V.shape view.new) (V.spent view.new) (O.state out.new)) }
    ensures moves { V.Moves view.old view.new }
{
    if parts == 0 {
        return Ok(());
    }
    write_second_pass(view, out, gather, stream, count)
}

/// Writes a stream of records of this type.
fn write_records<V: DumpView, O: Out>(
    view: &mut V,
    out: &mut O,
    gather: &mut Gather<'_>,
    stream: u64,
    stream_type: u32,
    room: StreamRoom,
    place: StreamPlace,
) -> Result<(), WriteFault>
    requires stream { stream < length (V.shape view.old).streams }
    requires kind { (stream_at (V.shape view.old) stream).kind ≡ Known stream_type }
    requires room { IsRoom (stream_at (V.shape view.old) stream) (Some room) }
    requires low { place.at + block_size (stream_at (V.shape view.old) stream) < 2 ^ 32 }
    ensures writes { (x : DumpSeen) → (V.shape view.old).seen ≡ Some x
        → Writes result (gathered (O.state out.old) gather.old) (block_text (seen_at x stream) place.at place.far) (gathered (O.state out.new) gather.new) }
    ensures some { OnOk result (PutsSome (gathered (O.state out.old) gather.old) (block_size (stream_at (V.shape view.old) stream)) (gathered (O.state out.new) gather.new)) }
    ensures uses { Uses result (used (V.shape view.old) (V.spent view.old) (O.state out.old)) (block_passes (V.shape view.old) stream) (block_asks (V.shape view.old) stream) (used (V.shape view.new) (V.spent view.new) (O.state out.new)) }
    ensures moves { V.Moves view.old view.new }
{
    let kind = StreamKind::of_type(stream_type);
    let count = count_of(kind, room.body);
    let behind = StreamPlace {
        at: place.at + room.body.next_multiple_of(4),
        far: place.far,
    };
    write_body(view, out, gather, stream, kind, count, behind)?;
    write_padding(out, gather, room.body)?;
    write_stream_parts(view, out, gather, stream, count, room.parts)
}

/// Writes a stream of raw bytes, so many, and the zeros behind them.
fn write_raw<V: DumpView, O: Out>(
    view: &mut V,
    out: &mut O,
    gather: &mut Gather<'_>,
    stream: u64,
    size: u64,
) -> Result<(), WriteFault>
    requires stream { stream < length (V.shape view.old).streams }
    requires size { size ≡ (stream_at (V.shape view.old) stream).raw }
    ensures writes { (x : DumpSeen) → (V.shape view.old).seen ≡ Some x
        → Writes result (gathered (O.state out.old) gather.old) (padded (seen_at x stream).raw) (gathered (O.state out.new) gather.new) }
    ensures some { OnOk result (PutsSome (gathered (O.state out.old) gather.old) (up size) (gathered (O.state out.new) gather.new)) }
    ensures uses { Uses result (used (V.shape view.old) (V.spent view.old) (O.state out.old)) (cost_at (V.shape view.old) stream) size (used (V.shape view.new) (V.spent view.new) (O.state out.new)) }
    ensures moves { V.Moves view.old view.new }
{
    match view.rewind(stream) {
        Ok(()) => write_padded(view, out, gather, 0, PartSize::Size(size)),
        Err(fault) => Err(WriteFault::View(fault)),
    }
}

/// Writes a stream that takes this room: its block begins at a place, and its 64-bit memory at another.
pub(crate) fn write_block<V: DumpView, O: Out>(
    view: &mut V,
    out: &mut O,
    gather: &mut Gather<'_>,
    stream: u64,
    room: StreamRoom,
    place: StreamPlace,
) -> Result<(), WriteFault>
    requires stream { stream < length (V.shape view.old).streams }
    requires room { IsRoom (stream_at (V.shape view.old) stream) (Some room) }
    requires low { place.at + block_size (stream_at (V.shape view.old) stream) < 2 ^ 32 }
    ensures writes { (x : DumpSeen) → (V.shape view.old).seen ≡ Some x → RecordsAreKnown (seen_at x stream)
        → Writes result (gathered (O.state out.old) gather.old) (block_text (seen_at x stream) place.at place.far) (gathered (O.state out.new) gather.new) }
    ensures some { OnOk result (PutsSome (gathered (O.state out.old) gather.old) (block_size (stream_at (V.shape view.old) stream)) (gathered (O.state out.new) gather.new)) }
    ensures uses { Uses result (used (V.shape view.old) (V.spent view.old) (O.state out.old)) (block_passes (V.shape view.old) stream) (block_asks (V.shape view.old) stream) (used (V.shape view.new) (V.spent view.new) (O.state out.new)) }
    ensures moves { V.Moves view.old view.new }
{
    match room.kind {
        Kind::Unused => Ok(()),
        Kind::Known(stream_type) => {
            write_records(view, out, gather, stream, stream_type, room, place)
        },
        Kind::Raw(_) => write_raw(view, out, gather, stream, room.body),
    }
}
