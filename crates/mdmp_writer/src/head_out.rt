//! The header of a dump and its directory to an output.
ghost use Rattle.std.specs.Prelude.{◌≡◌, ◌<◌, ◌+◌, ◌^◌};
ghost use Rattle.mdmp_wire.specs.Header.{header_bytes};
ghost use Rattle.mdmp_writer.specs.Gather.{gathered, Writes};
ghost use Rattle.mdmp_writer.specs.Layout.{blocks_end, file_size, first_block};
ghost use Rattle.mdmp_writer.specs.Cause.{StopsAtOutput};
ghost use Rattle.mdmp_writer.specs.Written.{directory, entry_by, header_of, type_by};

use crate::fault::WriteFault;
use crate::gather::Gather;
use crate::layout::{StreamRoom, room_for};
use crate::record_bytes::write_record;
use mdmp_dump::{DumpView, HeaderFields, Kind};
use mdmp_source::{Location, Out};
use mdmp_wire::{Entry, Header};

/// Writes the header of a dump of so many streams.
pub(crate) fn write_header<O: Out>(
    out: &mut O,
    gather: &mut Gather<'_>,
    header: HeaderFields,
    streams: u64,
) -> Result<(), WriteFault>
    requires { streams < 2 ^ 32 }
    ensures writes { Writes result (gathered (O.state out.old) gather.old) (header_bytes (header_of header streams)) (gathered (O.state out.new) gather.new) }
    ensures cause { StopsAtOutput result (O.state out.old) (O.state out.new) }
{
    let header = Header {
        signature: Header::SIGNATURE,
        version: u32::from(Header::VERSION) + 65536 * u32::from(header.version_high),
        number_of_streams: streams as u32,
        stream_directory_rva: 32,
        checksum: header.checksum,
        time_date_stamp: header.time,
        flags: header.flags,
    };
    write_record(out, gather, &header)
}

/// The type that a stream has in the directory.
fn type_by(kind: Kind) -> u32
    ensures { result ≡ type_by kind }
{
    match kind {
        Kind::Unused => 0,
        Kind::Known(stream_type) => stream_type,
        Kind::Raw(stream_type) => stream_type,
    }
}

/// The entry of a stream at a place; one without bytes names the address 0.
fn entry_at(room: StreamRoom, at: u64) -> Entry
    requires place { at < 2 ^ 32 }
    requires body { room.body < 2 ^ 32 }
    ensures { result ≡ entry_by room.kind room.body at }
{
    let rva = if room.body == 0 { 0 } else { at };
    Entry {
        stream_type: type_by(room.kind),
        location: Location {
            size: room.body as u32,
            rva: rva as u32,
        },
    }
}

/// Writes the directory of all streams, of which the first stands at a place.
pub(crate) fn write_directory<V: DumpView, O: Out>(
    view: &mut V,
    out: &mut O,
    gather: &mut Gather<'_>,
    first: u64,
) -> Result<(), WriteFault>
    requires first { first ≡ first_block (V.shape view.old).streams }
    requires low { blocks_end (V.shape view.old).streams < 2 ^ 32 }
    requires short { file_size (V.shape view.old).streams < 2 ^ 64 }
    ensures shape { V.shape view.new ≡ V.shape view.old }
    ensures writes { Writes result (gathered (O.state out.old) gather.old) (directory (V.shape view.old).streams first) (gathered (O.state out.new) gather.new) }
    ensures cause { StopsAtOutput result (O.state out.old) (O.state out.new) }
    ensures spent { V.spent view.new ≡ V.spent view.old }
    ensures moves { V.Moves view.old view.new }
{
    let mut at = first;
    for stream in 0..view.streams() {
        let room = room_for(view, stream);
        write_record(out, gather, &entry_at(room, at))?;
        at += room.block();
    }
    Ok(())
}
