//! The header of a file in memory, and the entries behind it.
ghost use Rattle.std.specs.Prelude.{◌≡◌, ◌+◌, ◌*◌, length, map};
ghost use Rattle.std.specs.List.{range_with_len};
ghost use Rattle.mdmp_c.specs.Directory.{header_row, stream_row};
ghost use Rattle.mdmp_c.specs.Giving.{put_front};
ghost use Rattle.mdmp_source.specs.Range.{IsInside};
ghost use Rattle.mdmp_wire.specs.Entry.{entry_at};

use crate::collecting::set_row;
use mdmp_wire::{Entry, Header, get_at};
use std::mem::size_of;

/// The header of a file, `MINIDUMP_HEADER`.
#[repr(C)]
#[derive(Clone, Copy)]
pub struct HeaderRow {
    /// `Flags`, of the kind `MINIDUMP_TYPE`.
    pub flags: u64,
    /// `Signature`, the bytes `MDMP` as a number.
    pub signature: u32,
    /// `Version`, the format's in the low half, the producer's own in the high half.
    pub version: u32,
    /// `NumberOfStreams`, how many entries the directory has.
    pub number_of_streams: u32,
    /// `StreamDirectoryRva`, an offset from the start of the file.
    pub stream_directory_rva: u32,
    /// `CheckSum`, which is not checked.
    pub checksum: u32,
    /// `TimeDateStamp`, in seconds since 1970.
    pub time_date_stamp: u32,
    /// Zeros.
    pub reserved: [u32; 2],
}

const _: () = prove!(size_of::<HeaderRow>() == 40);

/// An entry of the directory, `MINIDUMP_DIRECTORY`.
#[repr(C)]
#[derive(Clone, Copy)]
pub struct StreamRow {
    /// The number of the entry in the directory, from 0.
    pub entry: u32,
    /// `StreamType`, 0 if the entry is unused.
    pub stream_type: u32,
    /// `Location.DataSize`, in bytes.
    pub size: u32,
    /// `Location.Rva`, an offset from the start of the file.
    pub rva: u32,
    /// Zeros.
    pub reserved: [u32; 2],
}

const _: () = prove!(size_of::<StreamRow>() == 24);

/// A header as a plain structure.
pub(crate) fn header_row(header: &Header) -> HeaderRow
    ensures { result ≡ header_row header.now }
{
    HeaderRow {
        flags: header.flags,
        signature: header.signature,
        version: header.version,
        number_of_streams: header.number_of_streams,
        stream_directory_rva: header.stream_directory_rva,
        checksum: header.checksum,
        time_date_stamp: header.time_date_stamp,
        reserved: [0; 2],
    }
}

/// An entry as a plain structure.
fn stream_row(number: u32, entry: Entry) -> StreamRow
    ensures { result ≡ stream_row number entry }
{
    StreamRow {
        entry: number,
        stream_type: entry.stream_type,
        size: entry.location.size,
        rva: entry.location.rva,
        reserved: [0; 2],
    }
}

/// Puts the entries of a directory into an array, as far as it has room.
pub(crate) fn fill_streams(file: &[u8], at: u32, count: u32, out: &mut [StreamRow])
    requires { IsInside at (12 * count) (length file.now) }
    ensures { out.new ≡ put_front (map (λ e. stream_row e (entry_at file.now (at + 12 * e))) (range_with_len 0 count)) out.old }
{
    let mut number = 0u32;
    while number < count {
        let entry: Entry = get_at(file, at as usize + 12 * number as usize);
        set_row(out, u64::from(number), stream_row(number, entry));
        number += 1;
    }
}
