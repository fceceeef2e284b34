//! A file with a module and its CodeView record.
use crate::files::file_of_numbers;
use std::alloc::{AllocError, Global};

/// A CodeView record of the kind RSDS.
pub const CODEVIEW_RECORD: &[u8; 30] =
    b"RSDS\x33\x22\x11\x00\x55\x44\x77\x66\x88\x99\xaa\xbb\xcc\xdd\xee\xff\x01\0\0\0a.pdb\0";

/// A file of one module, whose CodeView record has this size, and these bytes behind the module.
pub fn module_file(alloc: Global, size: u32, record: &[u8]) -> Result<Vec<u8>, AllocError> {
    let mut words = [0; 31];
    words[..4].copy_from_slice(&[4, 112, 44, 1]);
    words[23..25].copy_from_slice(&[size, 156]);
    let mut bytes = file_of_numbers(alloc, 1, &words)?;
    bytes.extend_from_slice(record)?;
    Ok(bytes)
}
