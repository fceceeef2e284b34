//! The header of a file, and its directory.
ghost use Rattle.mdmp_c.specs.Directory.{GivesHeader, stream_rows};
ghost use Rattle.mdmp_c.specs.Fault.{no_fault, told_unless};
ghost use Rattle.mdmp_c.specs.Giving.{GivesList};
ghost use Rattle.mdmp_c.specs.Table.{rows_unless};
ghost use Rattle.mdmp_lister.specs.Format.Refusal.{directory_refusal};

use crate::fault::{NO_FAULT, PlainFault, open_fault, status_of};
use crate::giving::{TOO_SHORT, refuse};
use crate::header_rows::{HeaderRow, StreamRow, fill_streams, header_row};
use mdmp_lister::header_of;

/// Gives the header of a file. It checks neither the checksum nor what the entries name, and allocates
/// nothing.
#[unsafe(no_mangle)]
pub extern "C" fn mdmp_header_(file: &[u8], out: &mut HeaderRow, fault: &mut PlainFault) -> u32
    ensures { GivesHeader file.now result fault.new out.old out.new }
{
    match header_of(file) {
        Ok(header) => {
            *out = header_row(&header);
            *fault = NO_FAULT;
            0
        }
        Err(found) => {
            *fault = open_fault(found);
            status_of(fault)
        }
    }
}

/// Gives the entries of the directory as they are in the file: as many as `out` has room for, and in `count`
/// how many there are. It does not look at what they name, and allocates nothing.
#[unsafe(no_mangle)]
pub extern "C" fn mdmp_streams_(
    file: &[u8],
    out: &mut [StreamRow],
    count: &mut u64,
    fault: &mut PlainFault,
) -> u32
    ensures { GivesList (told_unless (directory_refusal file.now) no_fault) (rows_unless (directory_refusal file.now) (stream_rows file.now)) result count.new fault.new out.old out.new }
{
    let header = match header_of(file) {
        Ok(header) => header,
        Err(found) => return refuse(open_fault(found), count, fault),
    };
    *fault = NO_FAULT;
    *count = u64::from(header.number_of_streams);
    fill_streams(
        file,
        header.stream_directory_rva,
        header.number_of_streams,
        out,
    );
    if out.len() < header.number_of_streams as usize {
        TOO_SHORT
    } else {
        0
    }
}
