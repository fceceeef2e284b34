//! The bytes of parts to an output.
ghost use Rattle.std.specs.Prelude.{◌≡◌, ◌<◌, ◌≤◌, ◌+◌, ℕ, List, [], Some, length, take, drop, get_or, IfOk, OnOk, MatchResult};
ghost use Rattle.mdmp_dump.specs.Placed.{part_room, size_in};
ghost use Rattle.mdmp_writer.specs.Gather.{gathered, Gathers, PutsSome, Writes};
ghost use Rattle.mdmp_writer.specs.Cause.{StopsAtOutput};
ghost use Rattle.mdmp_writer.specs.Written.{padded, padding};
ghost use Rattle.mdmp_writer.specs.Uses.{used, Uses};

use crate::fault::WriteFault;
use crate::gather::Gather;
use mdmp_dump::{DumpView, PartSize};
use mdmp_source::Out;

/// Sends what is held, and fetches bytes of a part from a place on, at most so many; answers how
/// many.
fn fetch_more<V: DumpView, O: Out>(
    view: &mut V,
    out: &mut O,
    gather: &mut Gather<'_>,
    which: usize,
    at: u64,
    most: u64,
) -> Result<u64, WriteFault>
    requires some { 0 < most }
    requires within { at + most ≤ (V.cursor view.old).sizes which }
    ensures bound { IfOk result (λ k. (0 < k) × (k ≤ most) × (V.cursor view.new ≡ V.cursor view.old)) }
    ensures puts { MatchResult result
        (λ k. (parts : List (List ℕ)) → (V.cursor view.old).parts ≡ Some parts
        → Gathers (gathered (O.state out.old) gather.old) (take k (drop at (get_or parts which []))) (gathered (O.state out.new) gather.new))
        (λ _. Gathers (gathered (O.state out.old) gather.old) [] (gathered (O.state out.new) gather.new)) }
    ensures some { IfOk result (λ k. PutsSome (gathered (O.state out.old) gather.old) k (gathered (O.state out.new) gather.new)) }
    ensures uses { Uses result (used (V.shape view.old) (V.spent view.old) (O.state out.old)) 0 most (used (V.shape view.new) (V.spent view.new) (O.state out.new)) }
    ensures asked { IfOk result (λ k. (V.spent view.new).asked ≤ (V.spent view.old).asked + k) }
    ensures moves { V.Moves view.old view.new }
{
    gather.flush(out)?;
    gather
        .fetch(view, which, at, most)
        .map_err(WriteFault::View)
}

/// Writes the bytes of a part, a bufferful at a time.
pub(crate) fn write_part<V: DumpView, O: Out>(
    view: &mut V,
    out: &mut O,
    gather: &mut Gather<'_>,
    which: usize,
    size: u64,
) -> Result<(), WriteFault>
    requires { size ≤ (V.cursor view.old).sizes which }
    ensures cursor { OnOk result (V.cursor view.new ≡ V.cursor view.old) }
    ensures writes { (parts : List (List ℕ)) → (V.cursor view.old).parts ≡ Some parts → length (get_or parts which []) ≡ size
        → Writes result (gathered (O.state out.old) gather.old) (get_or parts which []) (gathered (O.state out.new) gather.new) }
    ensures some { OnOk result (PutsSome (gathered (O.state out.old) gather.old) size (gathered (O.state out.new) gather.new)) }
    ensures uses { Uses result (used (V.shape view.old) (V.spent view.old) (O.state out.old)) 0 size (used (V.shape view.new) (V.spent view.new) (O.state out.new)) }
    ensures moves { V.Moves view.old view.new }
{
    let mut at = gather
        .fetch(view, which, 0, size)
        .map_err(WriteFault::View)?;
    while at < size {
        at += fetch_more(view, out, gather, which, at, size - at)?;
    }
    Ok(())
}

/// Writes the zeros behind so many bytes.
pub(crate) fn write_padding<O: Out>(
    out: &mut O,
    gather: &mut Gather<'_>,
    size: u64,
) -> Result<(), WriteFault>
    ensures writes { Writes result (gathered (O.state out.old) gather.old) (padding size) (gathered (O.state out.new) gather.new) }
    ensures cause { StopsAtOutput result (O.state out.old) (O.state out.new) }
{
    let zeros = [0u8; 3];
    let count = ((4 - size % 4) % 4) as usize;
    gather.write(out, &zeros[..count])
}

/// Writes a part and the zeros behind it.
pub(crate) fn write_padded<V: DumpView, O: Out>(
    view: &mut V,
    out: &mut O,
    gather: &mut Gather<'_>,
    which: usize,
    part: PartSize,
) -> Result<(), WriteFault>
    requires { size_in part ≤ (V.cursor view.old).sizes which }
    ensures cursor { OnOk result (V.cursor view.new ≡ V.cursor view.old) }
    ensures writes { (parts : List (List ℕ)) → (V.cursor view.old).parts ≡ Some parts → length (get_or parts which []) ≡ size_in part
        → Writes result (gathered (O.state out.old) gather.old) (padded (get_or parts which [])) (gathered (O.state out.new) gather.new) }
    ensures some { OnOk result (PutsSome (gathered (O.state out.old) gather.old) (part_room part) (gathered (O.state out.new) gather.new)) }
    ensures uses { Uses result (used (V.shape view.old) (V.spent view.old) (O.state out.old)) 0 (size_in part) (used (V.shape view.new) (V.spent view.new) (O.state out.new)) }
    ensures moves { V.Moves view.old view.new }
{
    let size = part.size();
    write_part(view, out, gather, which, size)?;
    write_padding(out, gather, size)
}
