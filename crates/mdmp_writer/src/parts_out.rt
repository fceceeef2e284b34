//! The names and parts of records to an output.
ghost use Rattle.std.specs.Prelude.{◌≡◌, ◌<◌, ◌≤◌, ◌+◌, ◌-◌, ◌^◌, ◌++◌, ℕ, List, [], Some, length, get_or, OnOk};
ghost use Rattle.mdmp_dump.specs.Placed.{fields_bytes, fields_room, name_around, name_room, seen_parts, size_at, size_in, slot_room, slot_text};
ghost use Rattle.mdmp_dump.specs.Places.{up};
ghost use Rattle.mdmp_dump.specs.Seen.{Seen};
ghost use Rattle.mdmp_dump.specs.Shape.{IsSized};
ghost use Rattle.mdmp_wire.specs.Number.{zeros};
ghost use Rattle.mdmp_writer.specs.Gather.{gathered, PutsSome, Writes};
ghost use Rattle.mdmp_writer.specs.Written.{all_padded, padded, padding};
ghost use Rattle.mdmp_writer.specs.Uses.{used, Uses};

use crate::fault::WriteFault;
use crate::gather::Gather;
use crate::pieces::{write_padded, write_padding, write_part};
use crate::record_bytes::write_record;
use mdmp_dump::{DumpView, Fields, PartSize};
use mdmp_source::Out;
use mdmp_wire::Slot;

/// Writes the units of a name, of so many bytes, and the zeros behind them: two, and those up to a
/// multiple of 4.
fn write_units<V: DumpView, O: Out>(
    view: &mut V,
    out: &mut O,
    gather: &mut Gather<'_>,
    which: usize,
    size: u64,
) -> Result<(), WriteFault>
    requires within { size ≤ (V.cursor view.old).sizes which }
    requires room { 4 + size + 2 < 2 ^ 64 }
    ensures cursor { OnOk result (V.cursor view.new ≡ V.cursor view.old) }
    ensures writes { (parts : List (List ℕ)) → (V.cursor view.old).parts ≡ Some parts → length (get_or parts which []) ≡ size
        → Writes result (gathered (O.state out.old) gather.old)
        (get_or parts which [] ++ zeros 2 ++ padding (4 + size + 2)) (gathered (O.state out.new) gather.new) }
    ensures some { OnOk result (PutsSome (gathered (O.state out.old) gather.old) (up (4 + size + 2) - 4) (gathered (O.state out.new) gather.new)) }
    ensures uses { Uses result (used (V.shape view.old) (V.spent view.old) (O.state out.old)) 0 size (used (V.shape view.new) (V.spent view.new) (O.state out.new)) }
    ensures moves { V.Moves view.old view.new }
{
    write_part(view, out, gather, which, size)?;
    write_record(out, gather, &0u16)?;
    write_padding(out, gather, 4 + size + 2)
}

/// Writes a name with its length, and the zeros behind it.
fn write_name<V: DumpView, O: Out>(
    view: &mut V,
    out: &mut O,
    gather: &mut Gather<'_>,
    which: usize,
    name: PartSize,
) -> Result<(), WriteFault>
    requires within { size_in name ≤ (V.cursor view.old).sizes which }
    requires room { name_room name < 2 ^ 32 }
    ensures cursor { OnOk result (V.cursor view.new ≡ V.cursor view.old) }
    ensures writes { (parts : List (List ℕ)) → (V.cursor view.old).parts ≡ Some parts → length (get_or parts which []) ≡ size_in name
        → Writes result (gathered (O.state out.old) gather.old) (padded (name_around name (get_or parts which []))) (gathered (O.state out.new) gather.new) }
    ensures some { OnOk result (PutsSome (gathered (O.state out.old) gather.old) (name_room name) (gathered (O.state out.new) gather.new)) }
    ensures uses { Uses result (used (V.shape view.old) (V.spent view.old) (O.state out.old)) 0 (size_in name) (used (V.shape view.new) (V.spent view.new) (O.state out.new)) }
    ensures moves { V.Moves view.old view.new }
{
    match name {
        PartSize::NoPart => Ok(()),
        PartSize::Size(size) => {
            write_record(out, gather, &(size as u32))?;
            write_units(view, out, gather, which, size)
        },
        PartSize::Absent(_) => Ok(()),
    }
}

/// Writes what a slot is for, of this size: a name with its length, or a part, and the zeros behind it.
fn write_slot<V: DumpView, O: Out>(
    view: &mut V,
    out: &mut O,
    gather: &mut Gather<'_>,
    which: usize,
    slot: Slot,
    part: PartSize,
) -> Result<(), WriteFault>
    requires within { size_in part ≤ (V.cursor view.old).sizes which }
    requires room { slot_room slot part < 2 ^ 32 }
    ensures cursor { OnOk result (V.cursor view.new ≡ V.cursor view.old) }
    ensures writes { (parts : List (List ℕ)) → (V.cursor view.old).parts ≡ Some parts → length (get_or parts which []) ≡ size_in part
        → Writes result (gathered (O.state out.old) gather.old) (padded (slot_text slot part (get_or parts which []))) (gathered (O.state out.new) gather.new) }
    ensures some { OnOk result (PutsSome (gathered (O.state out.old) gather.old) (slot_room slot part) (gathered (O.state out.new) gather.new)) }
    ensures uses { Uses result (used (V.shape view.old) (V.spent view.old) (O.state out.old)) 0 (size_in part) (used (V.shape view.new) (V.spent view.new) (O.state out.new)) }
    ensures moves { V.Moves view.old view.new }
{
    match slot {
        Slot::Empty | Slot::Behind(_) => Ok(()),
        Slot::Name(_) => write_name(view, out, gather, which, part),
        Slot::Part(_, _) => write_padded(view, out, gather, which, part),
    }
}

/// Writes the names and parts of the record given last.
pub(crate) fn write_fields_parts<V: DumpView, O: Out>(
    view: &mut V,
    out: &mut O,
    gather: &mut Gather<'_>,
    fields: &Fields,
) -> Result<(), WriteFault>
    requires sizes { (k : ℕ) → (V.cursor view.old).sizes k ≡ size_in (size_at fields.now k) }
    requires room { fields_room fields.now < 2 ^ 32 }
    ensures cursor { OnOk result (V.cursor view.new ≡ V.cursor view.old) }
    ensures writes { (x : Seen) → (V.cursor view.old).parts ≡ Some x.parts → IsSized x → x.fields ≡ fields.now
        → Writes result (gathered (O.state out.old) gather.old) (all_padded (seen_parts x)) (gathered (O.state out.new) gather.new) }
    ensures some { OnOk result (PutsSome (gathered (O.state out.old) gather.old) (fields_room fields.now) (gathered (O.state out.new) gather.new)) }
    ensures uses { Uses result (used (V.shape view.old) (V.spent view.old) (O.state out.old)) 0 (fields_bytes fields.now) (used (V.shape view.new) (V.spent view.new) (O.state out.new)) }
    ensures moves { V.Moves view.old view.new }
{
    let [first, second, third] = fields.parts;
    let [one, two, three] = fields.wire.slots();
    write_slot(view, out, gather, 0, one, first)?;
    write_slot(view, out, gather, 1, two, second)?;
    write_slot(view, out, gather, 2, three, third)
}
