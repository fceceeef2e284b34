//! The files that the tests read, and what they have on disk. Each call ends the test by itself where it fails,
//! but for one that removes a file, which may not be there.
use mdmp_test_support::{
    CODEVIEW_RECORD, MEMORY64, SIX, SYSTEM, faulty_file, file_of_numbers, module_file,
};
use std::alloc::Global;
use std::fs;
use std::process::Abort;
use std::rt::Files;

/// A small file, by the name that it has among the files of a command line.
#[derive(Clone, Copy)]
pub enum SmallFile {
    /// `system.dmp`: `SYSTEM`.
    System,
    /// `wide.dmp`: `MEMORY64`.
    Wide,
    /// `six.dmp`: the numbers of `SIX`.
    Six,
    /// `faulty.dmp`: the numbers of `FAULTY`.
    Faulty,
    /// `module.dmp`: a module with a CodeView record of 30 bytes.
    Module,
}

/// The bytes of a small file.
pub fn bytes_of(rt: &impl Abort, alloc: Global, file: SmallFile) -> Vec<u8> {
    let bytes = match file {
        SmallFile::System => SYSTEM.to_vec(alloc),
        SmallFile::Wide => MEMORY64.to_vec(alloc),
        SmallFile::Six => file_of_numbers(alloc, 6, &SIX),
        SmallFile::Faulty => faulty_file(alloc),
        SmallFile::Module => module_file(alloc, 30, CODEVIEW_RECORD),
    };
    bytes.expect(rt, "memory for a file")
}

/// The small files, by their names.
static NAMED: [(&str, SmallFile); 5] = [
    ("system.dmp", SmallFile::System),
    ("wide.dmp", SmallFile::Wide),
    ("six.dmp", SmallFile::Six),
    ("faulty.dmp", SmallFile::Faulty),
    ("module.dmp", SmallFile::Module),
];

/// Writes the small files, and removes the file that copies make.
pub fn write_files(rt: &(impl Files + Abort), alloc: Global) {
    for (name, file) in &NAMED {
        let bytes = bytes_of(rt, alloc, *file);
        fs::write(rt, *name, &bytes).expect(rt, "a file that is written");
    }
    let _ = fs::remove_file(rt, "copy.dmp");
}
