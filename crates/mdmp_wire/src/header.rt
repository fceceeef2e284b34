//! The head of a file.
ghost use Rattle.std.specs.Prelude.{◌≡◌, length, MatchResult};

use crate::header_fault::HeaderFault;
use crate::record::{Record, get_at, put_at};

/// The head of a file: `MINIDUMP_HEADER`, 32 bytes.
#[derive(Clone, Copy, Debug, PartialEq, Eq)]
pub struct Header {
    /// `Signature`, the bytes `MDMP` as a number.
    pub signature: u32,
    /// `Version`, the format's in the low half, the producer's own in the high half.
    pub version: u32,
    /// `NumberOfStreams`, how many entries the directory has.
    pub number_of_streams: u32,
    /// `StreamDirectoryRva`, an offset from the start of the file.
    pub stream_directory_rva: u32,
    /// `CheckSum`, which is not checked.
    pub checksum: u32,
    /// `TimeDateStamp`, in seconds since 1970.
    pub time_date_stamp: u32,
    /// `Flags`, of the kind `MINIDUMP_TYPE`.
    pub flags: u64,
}

impl Header {
    ghost use Rattle.mdmp_wire.specs.HeaderFault.{HasHeader, header_fault};

    /// The bytes `MDMP` as a number: `MINIDUMP_SIGNATURE`.
    pub const SIGNATURE: u32 = 0x504d_444d;

    /// The low half of the version: `MINIDUMP_VERSION`.
    pub const VERSION: u16 = 0xa793;

    /// The header in the first 32 bytes of a file, or why they are not those of a minidump: the
    /// signature is tested first, and then the low half of the version. Nothing else is checked:
    /// neither the checksum nor where the directory is said to stand.
    pub fn check(bytes: &[u8]) -> Result<Header, HeaderFault>
        requires { length bytes.now ≡ 32 }
        ensures { MatchResult result
            (λ header. (header_fault bytes.now ≡ None) × HasHeader bytes.now header)
            (λ fault. header_fault bytes.now ≡ Some fault) }
    {
        let header = Header::read(bytes);
        let low = (header.version % 65536) as u16;
        if header.signature != Header::SIGNATURE {
            Err(HeaderFault::BadSignature)
        } else if low != Header::VERSION {
            Err(HeaderFault::BadVersion { low })
        } else {
            Ok(header)
        }
    }
}

impl Record for Header {
    ghost use Rattle.mdmp_wire.specs.Header.{header_at, header_bytes, header_at-part};

    ghost SIZE = { 32 };

    const SIZE: usize = 32;

    ghost at = { header_at };

    ghost bytes_of = { header_bytes };

    ghost part = { header_at-part };

    fn read(bytes: &[u8]) -> Self {
        Header {
            signature: get_at(bytes, 0),
            version: get_at(bytes, 4),
            number_of_streams: get_at(bytes, 8),
            stream_directory_rva: get_at(bytes, 12),
            checksum: get_at(bytes, 16),
            time_date_stamp: get_at(bytes, 20),
            flags: get_at(bytes, 24),
        }
    }

    fn write(&self, out: &mut [u8]) {
        put_at(out, 0, &self.signature);
        put_at(out, 4, &self.version);
        put_at(out, 8, &self.number_of_streams);
        put_at(out, 12, &self.stream_directory_rva);
        put_at(out, 16, &self.checksum);
        put_at(out, 20, &self.time_date_stamp);
        put_at(out, 24, &self.flags);
    }
}
