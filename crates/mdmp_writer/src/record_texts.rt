//! What is written of each record of a stream, one record after the other.
ghost use Rattle.std.specs.Prelude.{◌≡◌, ◌+◌, ◌<◌, ◌^◌, ℕ, List, OnOk, Some, length};
ghost use Rattle.mdmp_dump.specs.declared.view.Kind.TheVariants.{Known};
ghost use Rattle.mdmp_dump.specs.Placed.{far_room, fields_bytes, fields_room, size_at, size_in};
ghost use Rattle.mdmp_dump.specs.Seen.{Seen};
ghost use Rattle.mdmp_dump.specs.Shape.{IsSized, type_told};
ghost use Rattle.mdmp_writer.specs.Gather.{gathered, PutsSome, Writes};
ghost use Rattle.mdmp_writer.specs.RecordTexts.{HaveText, bytes_asked, record_text, record_texts, text_size, texts_size};
ghost use Rattle.mdmp_writer.specs.Uses.{used, Uses};

use crate::fault::WriteFault;
use crate::gather::Gather;
use crate::parts_out::write_fields_parts;
use crate::pieces::write_part;
use crate::record_bytes::write_any;
use mdmp_dump::{DumpView, Fields};
use mdmp_source::Out;

/// What is written of a record.
#[derive(Clone, Copy)]
pub(crate) enum RecordText {
    /// The record, with the locations of its name and parts.
    Row,
    /// Its name and parts.
    Parts,
    /// Its bytes of 64-bit memory.
    Memory,
}

/// Writes this of the record given last, whose name and parts begin at a place.
fn write_record_text<V: DumpView, O: Out>(
    view: &mut V,
    out: &mut O,
    gather: &mut Gather<'_>,
    text: RecordText,
    fields: &Fields,
    at: u64,
) -> Result<(), WriteFault>
    requires has { HaveText text (Known (type_told fields.now.wire)) (far_room fields.now) }
    requires sizes { (k : ℕ) → (V.cursor view.old).sizes k ≡ size_in (size_at fields.now k) }
    requires room { at + fields_room fields.now < 2 ^ 32 }
    ensures cursor { OnOk result (V.cursor view.new ≡ V.cursor view.old) }
    ensures writes { (x : Seen) → (V.cursor view.old).parts ≡ Some x.parts → IsSized x → x.fields ≡ fields.now
        → Writes result (gathered (O.state out.old) gather.old) (record_text text at x) (gathered (O.state out.new) gather.new) }
    ensures some { OnOk result (PutsSome (gathered (O.state out.old) gather.old) (text_size text fields.now) (gathered (O.state out.new) gather.new)) }
    ensures uses { Uses result (used (V.shape view.old) (V.spent view.old) (O.state out.old)) 0 (bytes_asked text (fields_bytes fields.now)) (used (V.shape view.new) (V.spent view.new) (O.state out.new)) }
    ensures moves { V.Moves view.old view.new }
{
    match text {
        RecordText::Row => write_any(out, gather, &fields.placed(at)),
        RecordText::Parts => write_fields_parts(view, out, gather, fields),
        RecordText::Memory => {
            let [range, _, _] = fields.parts;
            write_part(view, out, gather, 0, range.size())
        },
    }
}

/// Writes this of all records that are left of a stream, so many. The names and parts of the first one
/// begin at a place, which rows alone tell.
pub(crate) fn write_record_texts<V: DumpView, O: Out>(
    view: &mut V,
    out: &mut O,
    gather: &mut Gather<'_>,
    text: RecordText,
    count: u64,
    at: u64,
) -> Result<(), WriteFault>
    requires have { HaveText text (V.cursor view.old).kind (V.cursor view.old).far }
    requires count { count ≡ (V.cursor view.old).records }
    requires room { at + (V.cursor view.old).room < 2 ^ 32 }
    requires stray { (V.cursor view.old).records ≡ 0 → texts_size text (V.cursor view.old) ≡ 0 }
    ensures writes { (xs : List Seen) → (V.cursor view.old).seen ≡ Some xs → length xs ≡ count
        → Writes result (gathered (O.state out.old) gather.old) (record_texts text at xs) (gathered (O.state out.new) gather.new) }
    ensures some { OnOk result (PutsSome (gathered (O.state out.old) gather.old) (texts_size text (V.cursor view.old)) (gathered (O.state out.new) gather.new)) }
    ensures uses { Uses result (used (V.shape view.old) (V.spent view.old) (O.state out.old)) 0 (bytes_asked text (V.cursor view.old).bytes) (used (V.shape view.new) (V.spent view.new) (O.state out.new)) }
    ensures moves { V.Moves view.old view.new }
{
    let mut place = at;
    let mut left = count;
    while left > 0 {
        let fields = view.next_record().map_err(WriteFault::View)?;
        write_record_text(view, out, gather, text, &fields, place)?;
        place += fields.room() as u64;
        left -= 1;
    }
    Ok(())
}
