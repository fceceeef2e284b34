//! The body of a stream of records to an output.
ghost use Rattle.std.specs.Prelude.{◌≡◌, ◌<◌, ◌+◌, ◌*◌, ◌^◌, ◌++◌, ℕ, OnOk, Some, length};
ghost use Rattle.mdmp_lister.specs.Format.Kind.{kind_of};
ghost use Rattle.mdmp_dump.specs.declared.view.Kind.TheVariants.{Known};
ghost use Rattle.mdmp_dump.specs.Shape.{cost_at, head_by, room_of, row_by, seen_at, stream_at};
ghost use Rattle.mdmp_dump.specs.View.{DumpSeen};
ghost use Rattle.mdmp_writer.specs.Gather.{gathered, PutsSome, Writes};
ghost use Rattle.mdmp_writer.specs.Cause.{StopsAtOutput};
ghost use Rattle.mdmp_writer.specs.Written.{head_by_kind, rows};
ghost use Rattle.mdmp_writer.specs.Uses.{used, Uses};

use crate::fault::WriteFault;
use crate::gather::Gather;
use crate::place::StreamPlace;
use crate::record_bytes::write_record;
use crate::record_texts::{RecordText, write_record_texts};
use mdmp_dump::DumpView;
use mdmp_lister::{Form, StreamKind};
use mdmp_source::Out;
use mdmp_wire::{Memory64List, MemoryInfoList, UnloadedList};

/// Writes what stands before the records of a stream of this kind, so many, whose 64-bit memory
/// begins at a place.
fn write_head<O: Out>(
    out: &mut O,
    gather: &mut Gather<'_>,
    kind: Option<StreamKind>,
    count: u64,
    far: u64,
) -> Result<(), WriteFault>
    requires { count < 2 ^ 32 }
    ensures writes { Writes result (gathered (O.state out.old) gather.old) (head_by_kind kind count far) (gathered (O.state out.new) gather.new) }
    ensures some { OnOk result (PutsSome (gathered (O.state out.old) gather.old) (head_by kind) (gathered (O.state out.new) gather.new)) }
    ensures cause { StopsAtOutput result (O.state out.old) (O.state out.new) }
{
    let Some(kind) = kind else { return Ok(()) };
    let form = kind.form();
    match form {
        Form::Counted => write_record(out, gather, &(count as u32)),
        Form::Single => Ok(()),
        Form::Ranges64 => write_record(
            out,
            gather,
            &Memory64List {
                number_of_memory_ranges: count,
                base_rva: far,
            },
        ),
        Form::Sized32 => write_record(
            out,
            gather,
            &UnloadedList {
                size_of_header: form.head_cost(),
                size_of_entry: kind.record_size(),
                number_of_entries: count as u32,
            },
        ),
        Form::Sized64 => write_record(
            out,
            gather,
            &MemoryInfoList {
                size_of_header: form.head_cost(),
                size_of_entry: kind.record_size(),
                number_of_entries: count,
            },
        ),
    }
}

/// Writes the body of a stream of this kind, with so many records, whose names and parts begin at
/// `place.at`.
pub(crate) fn write_body<V: DumpView, O: Out>(
    view: &mut V,
    out: &mut O,
    gather: &mut Gather<'_>,
    stream: u64,
    kind: Option<StreamKind>,
    count: u64,
    place: StreamPlace,
) -> Result<(), WriteFault>
    requires stream { stream < length (V.shape view.old).streams }
    requires count { count ≡ (stream_at (V.shape view.old) stream).records }
    requires few { count < 2 ^ 32 }
    requires room { place.at + room_of (stream_at (V.shape view.old) stream) < 2 ^ 32 }
    ensures writes { (x : DumpSeen) → (V.shape view.old).seen ≡ Some x
        → Writes result (gathered (O.state out.old) gather.old)
        (head_by_kind kind count place.far ++ rows place.at (seen_at x stream).records) (gathered (O.state out.new) gather.new) }
    ensures some { (t : ℕ) → (stream_at (V.shape view.old) stream).kind ≡ Known t → kind ≡ kind_of t
        → OnOk result (PutsSome (gathered (O.state out.old) gather.old) (head_by kind + count * row_by kind) (gathered (O.state out.new) gather.new)) }
    ensures uses { Uses result (used (V.shape view.old) (V.spent view.old) (O.state out.old)) (cost_at (V.shape view.old) stream) 0 (used (V.shape view.new) (V.spent view.new) (O.state out.new)) }
    ensures moves { V.Moves view.old view.new }
{
    view.rewind(stream).map_err(WriteFault::View)?;
    write_head(out, gather, kind, count, place.far)?;
    write_record_texts(view, out, gather, RecordText::Row, count, place.at)
}
