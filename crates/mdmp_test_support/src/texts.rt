//! What is printed of the files.

/// What `list` prints of `SYSTEM`, where the name is not longer than its limit.
pub const SYSTEM_TEXT: &str =
    "dump version 0x0000 streams 1 directory 32 checksum 0 time 0 flags 0x0000000000000000
stream 0 type 7 size 56 rva 44
system architecture 9 level 6 revision 3 processors 4 product 1 version 6.1.7601 platform 2 suite 256 csd \"Service Pack 1\"\n";

/// What `list` prints of `FAULTY`.
pub const FAULTY_TEXT: &str =
    "dump version 0x0000 streams 3 directory 32 checksum 0 time 0 flags 0x0000000000000000
stream 0 type 7 size 56 rva 68
system architecture 0 level 0 revision 0 processors 0 product 0 version 0.0.0 platform 0 suite 0 csd none
stream 1 type 4 size 112 rva 124\n";

/// The line of the fault of `FAULTY`.
pub const FAULTY_TOLD: &str =
    "mdmp: entry 1 item 0: name length outside the file: offset 4294967295 size 4\n";

/// What `check` prints of `FAULTY`.
pub const FAULTY_VERDICTS: &str = "entry 0: ok
entry 1 item 0: name length outside the file: offset 4294967295 size 4
entry 2: stream outside the file: offset 236 size 5\n";

/// What `hex` prints of the four bytes of `MEMORY64` at 0x1000.
pub const WIDE_TEXT: &str = "0x0000000000001000: 41 42 43 44\n";

/// What `list` prints of a file of one module, `module_file`, whose CodeView record has 30 bytes.
pub const MODULE_FILE_TEXT: &str =
    "dump version 0x0000 streams 1 directory 32 checksum 0 time 0 flags 0x0000000000000000
stream 0 type 4 size 112 rva 44
module 0 base 0x0000000000000000 size 0 checksum 0 time 0 version 0.0.0.0 cv inside 30@156 misc empty name none\n";

/// The line of `CODEVIEW_RECORD`.
pub const CODEVIEW_LINE: &str = "pdb 00112233-4455-6677-8899-aabbccddeeff age 1 name \"a.pdb\"\n";
