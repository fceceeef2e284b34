//! A dump to an output.
ghost use Rattle.std.specs.Prelude.{◌≡◌, ◌<◌, ◌≤◌, ◌+◌, ◌++◌, IfOk, None, OnOk, Some, length};
ghost use Rattle.mdmp_dump.specs.declared.dump.Dump.{Dump};
ghost use Rattle.mdmp_dump.specs.Shape.{IsViewOf};
ghost use Rattle.mdmp_dump.specs.View.{DumpSeen};
ghost use Rattle.mdmp_writer.specs.Block.{AllAreKnown};
ghost use Rattle.mdmp_writer.specs.Gather.{gathered, PutsDump, PutsSome, Writes};
ghost use Rattle.mdmp_writer.specs.Layout.{AreEnds, blocks_end, blocks_size, fars_size, first_block, shape_fault};
ghost use Rattle.mdmp_writer.specs.Cause.{IsToldBy};
ghost use Rattle.mdmp_writer.specs.Passes.{all_asks, all_passes};
ghost use Rattle.mdmp_writer.specs.Writing.{GoesOut, IsWritingOf, IsWritingOfDump};
ghost use Rattle.mdmp_writer.specs.Written.{blocks, far_texts, seen_text};
ghost use Rattle.mdmp_writer.specs.Uses.{used, Uses};

use crate::fault::WriteFault;
use crate::gather::Gather;
use crate::head_out::{write_directory, write_header};
use crate::layout::{LayoutEnds, layout};
use crate::place::StreamPlace;
use crate::streams_out::{write_blocks, write_fars};
use mdmp_dump::DumpView;
use mdmp_source::Out;

/// Writes a dump to an output, from front to back, and answers how many bytes it has.
///
/// Small pieces are gathered in `buffer`, which must not be empty, and parts are fetched into it: no
/// memory is taken, and nothing that went out is written again. Each stream is begun at most once, and
/// once more if it has names or parts, or is 64-bit memory. No more bytes are asked for than these and raw
/// streams have. A dump that can't be written is refused before any byte goes out. Where the output
/// refuses or the view answers a fault, a first part of the dump went out, perhaps none of it. The output
/// is not flushed, and the view wants a `rewind` before it is asked for records again. Raw streams are
/// written as their bytes: offsets in them are not moved.
pub fn write_dump<V: DumpView, O: Out>(
    view: &mut V,
    out: &mut O,
    buffer: &mut [u8],
) -> Result<u64, WriteFault>
    requires { 0 < length buffer.old }
    ensures shape { V.shape view.new ≡ V.shape view.old }
    ensures ends { IsWritingOf (V.shape view.old) result (O.state out.old) (O.state out.new) }
    ensures writes { (d : Dump V.Memory) → IsViewOf d (V.shape view.old) → IsWritingOfDump d result (O.state out.old) (O.state out.new) }
    ensures out { IfOk result (λ size. GoesOut (V.shape view.old) size (O.state out.old) (O.state out.new)) }
    ensures passed { (V.spent view.new).passed ≤ (V.spent view.old).passed + all_passes (V.shape view.old) }
    ensures asked { (V.spent view.new).asked ≤ (V.spent view.old).asked + all_asks (V.shape view.old) }
    ensures told { IsToldBy result (V.spent view.new).fault }
    ensures moves { V.Moves view.old view.new }
{
    let ends = match layout(view) {
        Ok(ends) => ends,
        Err(fault) => return Err(WriteFault::Layout(fault)),
    };
    let mut gather = Gather::new(buffer);
    write_gathered(view, out, &mut gather, ends)?;
    gather.flush(out)?;
    Ok(ends.file)
}

/// Writes a dump that can be written, and that ends here.
fn write_gathered<V: DumpView, O: Out>(
    view: &mut V,
    out: &mut O,
    gather: &mut Gather<'_>,
    ends: LayoutEnds,
) -> Result<(), WriteFault>
    requires fault { shape_fault (V.shape view.old).streams ≡ None }
    requires ends { AreEnds (V.shape view.old).streams ends }
    ensures writes { (x : DumpSeen) → (V.shape view.old).seen ≡ Some x → AllAreKnown x
        → Writes result (gathered (O.state out.old) gather.old) (seen_text x) (gathered (O.state out.new) gather.new) }
    ensures out { OnOk result (PutsDump (V.shape view.old) (gathered (O.state out.old) gather.old) (gathered (O.state out.new) gather.new)) }
    ensures uses { Uses result (used (V.shape view.old) (V.spent view.old) (O.state out.old)) (all_passes (V.shape view.old)) (all_asks (V.shape view.old)) (used (V.shape view.new) (V.spent view.new) (O.state out.new)) }
    ensures moves { V.Moves view.old view.new }
{
    let header = view.header();
    let streams = view.streams();
    let first = 32 + 12 * streams;
    write_header(out, gather, header, streams)?;
    write_directory(view, out, gather, first)?;
    let place = StreamPlace {
        at: first,
        far: ends.blocks,
    };
    write_streams(view, out, gather, place)
}

/// Writes all streams, and their 64-bit memory behind them.
fn write_streams<V: DumpView, O: Out>(
    view: &mut V,
    out: &mut O,
    gather: &mut Gather<'_>,
    first: StreamPlace,
) -> Result<(), WriteFault>
    requires fault { shape_fault (V.shape view.old).streams ≡ None }
    requires at { first.at ≡ first_block (V.shape view.old).streams }
    requires far { first.far ≡ blocks_end (V.shape view.old).streams }
    ensures writes { (x : DumpSeen) → (V.shape view.old).seen ≡ Some x → AllAreKnown x
        → Writes result (gathered (O.state out.old) gather.old) (blocks x.streams first.at first.far ++ far_texts x.streams) (gathered (O.state out.new) gather.new) }
    ensures some { OnOk result (PutsSome (gathered (O.state out.old) gather.old) (blocks_size (V.shape view.old).streams + fars_size (V.shape view.old).streams) (gathered (O.state out.new) gather.new)) }
    ensures uses { Uses result (used (V.shape view.old) (V.spent view.old) (O.state out.old)) (all_passes (V.shape view.old)) (all_asks (V.shape view.old)) (used (V.shape view.new) (V.spent view.new) (O.state out.new)) }
    ensures moves { V.Moves view.old view.new }
{
    write_blocks(view, out, gather, first)?;
    write_fars(view, out, gather)
}
