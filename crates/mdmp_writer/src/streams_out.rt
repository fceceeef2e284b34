//! All streams to an output, and their 64-bit memory behind them.
ghost use Rattle.std.specs.Prelude.{◌≡◌, ◌<◌, ◌+◌, ◌^◌, OnOk, Some};
ghost use Rattle.mdmp_dump.specs.View.{DumpSeen};
ghost use Rattle.mdmp_writer.specs.Block.{AllAreKnown};
ghost use Rattle.mdmp_writer.specs.Gather.{gathered, PutsSome, Writes};
ghost use Rattle.mdmp_writer.specs.Layout.{blocks_end, blocks_size, fars_size, file_size, first_block};
ghost use Rattle.mdmp_writer.specs.Passes.{all_block_asks, all_block_passes, all_far_asks, all_far_passes};
ghost use Rattle.mdmp_writer.specs.Written.{blocks, far_texts};
ghost use Rattle.mdmp_writer.specs.Uses.{used, Uses};

use crate::block_out::write_block;
use crate::far_out::write_far;
use crate::fault::WriteFault;
use crate::gather::Gather;
use crate::layout::room_for;
use crate::place::StreamPlace;
use mdmp_dump::DumpView;
use mdmp_source::Out;

/// Writes all streams, from the place of the first.
pub(crate) fn write_blocks<V: DumpView, O: Out>(
    view: &mut V,
    out: &mut O,
    gather: &mut Gather<'_>,
    first: StreamPlace,
) -> Result<(), WriteFault>
    requires at { first.at ≡ first_block (V.shape view.old).streams }
    requires far { first.far ≡ blocks_end (V.shape view.old).streams }
    requires low { blocks_end (V.shape view.old).streams < 2 ^ 32 }
    requires short { file_size (V.shape view.old).streams < 2 ^ 64 }
    ensures writes { (x : DumpSeen) → (V.shape view.old).seen ≡ Some x → AllAreKnown x
        → Writes result (gathered (O.state out.old) gather.old) (blocks x.streams first.at first.far) (gathered (O.state out.new) gather.new) }
    ensures some { OnOk result (PutsSome (gathered (O.state out.old) gather.old) (blocks_size (V.shape view.old).streams) (gathered (O.state out.new) gather.new)) }
    ensures uses { Uses result (used (V.shape view.old) (V.spent view.old) (O.state out.old)) (all_block_passes (V.shape view.old)) (all_block_asks (V.shape view.old)) (used (V.shape view.new) (V.spent view.new) (O.state out.new)) }
    ensures moves { V.Moves view.old view.new }
{
    let mut at = first.at;
    let mut far = first.far;
    for stream in 0..view.streams() {
        let room = room_for(view, stream);
        write_block(view, out, gather, stream, room, StreamPlace { at, far })?;
        at += room.block();
        far += room.far;
    }
    Ok(())
}

/// Writes the 64-bit memory of all streams.
pub(crate) fn write_fars<V: DumpView, O: Out>(
    view: &mut V,
    out: &mut O,
    gather: &mut Gather<'_>,
) -> Result<(), WriteFault>
    requires low { blocks_end (V.shape view.old).streams < 2 ^ 32 }
    requires short { file_size (V.shape view.old).streams < 2 ^ 64 }
    ensures writes { (x : DumpSeen) → (V.shape view.old).seen ≡ Some x
        → Writes result (gathered (O.state out.old) gather.old) (far_texts x.streams) (gathered (O.state out.new) gather.new) }
    ensures some { OnOk result (PutsSome (gathered (O.state out.old) gather.old) (fars_size (V.shape view.old).streams) (gathered (O.state out.new) gather.new)) }
    ensures uses { Uses result (used (V.shape view.old) (V.spent view.old) (O.state out.old)) (all_far_passes (V.shape view.old)) (all_far_asks (V.shape view.old)) (used (V.shape view.new) (V.spent view.new) (O.state out.new)) }
    ensures moves { V.Moves view.old view.new }
{
    for stream in 0..view.streams() {
        write_far(view, out, gather, stream)?;
    }
    Ok(())
}
