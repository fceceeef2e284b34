//! 64-bit memory to an output.
ghost use Rattle.std.specs.Prelude.{◌≡◌, ◌<◌, ◌^◌, IsTrue, OnOk, Some, length};
ghost use Rattle.mdmp_dump.specs.Shape.{body_of, cost_at, is_far, seen_at, stream_at};
ghost use Rattle.mdmp_dump.specs.View.{DumpSeen};
ghost use Rattle.mdmp_writer.specs.Gather.{gathered, PutsSome, Writes};
ghost use Rattle.mdmp_writer.specs.Layout.{far_size};
ghost use Rattle.mdmp_writer.specs.Passes.{far_asks, far_passes};
ghost use Rattle.mdmp_writer.specs.Written.{far_text};
ghost use Rattle.mdmp_writer.specs.Uses.{used, Uses};

use crate::fault::WriteFault;
use crate::gather::Gather;
use crate::layout::is_far;
use crate::pieces::write_padding;
use crate::record_texts::{RecordText, write_record_texts};
use crate::sizes::count_of;
use mdmp_dump::DumpView;
use mdmp_lister::StreamKind;
use mdmp_source::Out;

/// Writes the bytes of the ranges of a stream of 64-bit memory, so many, and the zeros behind them:
/// they have so many bytes.
fn write_memory<V: DumpView, O: Out>(
    view: &mut V,
    out: &mut O,
    gather: &mut Gather<'_>,
    stream: u64,
    count: u64,
    size: u64,
) -> Result<(), WriteFault>
    requires stream { stream < length (V.shape view.old).streams }
    requires far { IsTrue (is_far (stream_at (V.shape view.old) stream).kind) }
    requires count { count ≡ (stream_at (V.shape view.old) stream).records }
    requires size { size ≡ (stream_at (V.shape view.old) stream).parts }
    requires room { far_size (stream_at (V.shape view.old) stream) < 2 ^ 64 }
    ensures writes { (x : DumpSeen) → (V.shape view.old).seen ≡ Some x
        → Writes result (gathered (O.state out.old) gather.old) (far_text (seen_at x stream)) (gathered (O.state out.new) gather.new) }
    ensures some { OnOk result (PutsSome (gathered (O.state out.old) gather.old) (far_size (stream_at (V.shape view.old) stream)) (gathered (O.state out.new) gather.new)) }
    ensures uses { Uses result (used (V.shape view.old) (V.spent view.old) (O.state out.old)) (cost_at (V.shape view.old) stream) ((stream_at (V.shape view.old) stream).bytes) (used (V.shape view.new) (V.spent view.new) (O.state out.new)) }
    ensures moves { V.Moves view.old view.new }
{
    view.rewind(stream).map_err(WriteFault::View)?;
    write_record_texts(view, out, gather, RecordText::Memory, count, 0)?;
    write_padding(out, gather, size)
}

/// Writes the 64-bit memory of a stream and the zeros behind it: nothing of a stream of another kind.
pub(crate) fn write_far<V: DumpView, O: Out>(
    view: &mut V,
    out: &mut O,
    gather: &mut Gather<'_>,
    stream: u64,
) -> Result<(), WriteFault>
    requires stream { stream < length (V.shape view.old).streams }
    requires body { body_of (stream_at (V.shape view.old) stream) < 2 ^ 32 }
    requires room { far_size (stream_at (V.shape view.old) stream) < 2 ^ 64 }
    ensures writes { (x : DumpSeen) → (V.shape view.old).seen ≡ Some x
        → Writes result (gathered (O.state out.old) gather.old) (far_text (seen_at x stream)) (gathered (O.state out.new) gather.new) }
    ensures some { OnOk result (PutsSome (gathered (O.state out.old) gather.old) (far_size (stream_at (V.shape view.old) stream)) (gathered (O.state out.new) gather.new)) }
    ensures uses { Uses result (used (V.shape view.old) (V.spent view.old) (O.state out.old)) (far_passes (V.shape view.old) stream) (far_asks (V.shape view.old) stream) (used (V.shape view.new) (V.spent view.new) (O.state out.new)) }
    ensures moves { V.Moves view.old view.new }
{
    if is_far(view.kind(stream)) {
        let count = count_of(Some(StreamKind::Memory64), view.body_size(stream));
        let size = view.parts_size(stream);
        return write_memory(view, out, gather, stream, count, size);
    }
    Ok(())
}
