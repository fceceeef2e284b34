//! Records to an output.
ghost use Rattle.std.specs.Prelude.{◌≤◌, OnOk};
ghost use Rattle.mdmp_wire.specs.AnyRecord.{any_bytes};
ghost use Rattle.mdmp_dump.specs.Shape.{row_of, type_told};
ghost use Rattle.mdmp_writer.specs.Gather.{gathered, PutsSome, Writes};
ghost use Rattle.mdmp_writer.specs.Cause.{StopsAtOutput};

use crate::fault::WriteFault;
use crate::gather::Gather;
use mdmp_source::Out;
use mdmp_wire::{AnyRecord, Record};

/// Writes a record of at most 168 bytes, which the longest has.
pub(crate) fn write_record<R: Record, O: Out>(
    out: &mut O,
    gather: &mut Gather<'_>,
    value: &R,
) -> Result<(), WriteFault>
    requires { R.SIZE ≤ 168 }
    ensures writes { Writes result (gathered (O.state out.old) gather.old) (R.bytes_of value.now) (gathered (O.state out.new) gather.new) }
    ensures some { OnOk result (PutsSome (gathered (O.state out.old) gather.old) R.SIZE (gathered (O.state out.new) gather.new)) }
    ensures cause { StopsAtOutput result (O.state out.old) (O.state out.new) }
{
    let mut buffer = [0; 168];
    let bytes = &mut buffer[..R::SIZE];
    value.write(bytes);
    gather.write(out, bytes)
}

/// Writes a record of any kind.
pub(crate) fn write_any<O: Out>(
    out: &mut O,
    gather: &mut Gather<'_>,
    row: &AnyRecord,
) -> Result<(), WriteFault>
    ensures writes { Writes result (gathered (O.state out.old) gather.old) (any_bytes row.now) (gathered (O.state out.new) gather.new) }
    ensures some { OnOk result (PutsSome (gathered (O.state out.old) gather.old) (row_of (type_told row.now)) (gathered (O.state out.new) gather.new)) }
    ensures cause { StopsAtOutput result (O.state out.old) (O.state out.new) }
{
    if gather.hold_record(row) {
        return Ok(());
    }
    let mut buffer = [0; 168];
    let size = row.write(&mut buffer);
    gather.write(out, &buffer[..size])
}
