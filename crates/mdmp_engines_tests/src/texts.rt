//! What is printed of the files that more than one test reads.

/// A list of the file of `module_file`, with the line of its CodeView record.
pub const SYMBOL_LINES: &str =
    "dump version 0x0000 streams 1 directory 32 checksum 0 time 0 flags 0x0000000000000000
stream 0 type 4 size 112 rva 44
module 0 base 0x0000000000000000 size 0 checksum 0 time 0 version 0.0.0.0 cv inside 30@156 misc empty name none
pdb 00112233-4455-6677-8899-aabbccddeeff age 1 name \"a.pdb\"\n";

/// A file of one module with the name `a/bc`.
pub const NAMED: [u32; 34] = [
    4, 112, 44, 1, 0, 0, 0, 0, 0, 156, 0, 0, 0, 0, 0, 0, 0, 0, 0, 0, 0, 0, 0, 0, 0, 0, 0, 0, 0, 0,
    0, 8, 0x2f_0061, 0x63_0062,
];

/// The summary of `NAMED`.
pub const NAMED_SUMMARY: &str = "a.dmp: no crash
  program bc
  written not set
  streams 1 threads 0 modules 1 exceptions 0 ranges 0 memory 0
  file good\n";

/// The object of `NAMED`.
pub const NAMED_OBJECT: &str =
    "{\"line\":\"summary\",\"file\":\"a.dmp\",\"status\":\"OK\",\"time\":0,\"system_info\":null,\"sys\
tem\":null,\"crash\":null,\"program\":{\"name\":\"a/bc\",\"file\":\"bc\",\"version\":\"0.0.0.0\"\
},\"counts\":{\"streams\":\"1\",\"threads\":\"0\",\"modules\":\"1\",\"exceptions\":\"0\",\"range\
s\":\"0\",\"memory\":\"0\"},\"bad_entries\":0,\"first_error\":null,\"parts_outside\":0,\"first_o\
utside\":null,\"main_module\":0,\"modules\":[{\"filename\":\"a/bc\",\"base_addr\":\"0x0000000000\
000000\",\"end_addr\":\"0x0000000000000000\",\"version\":\"0.0.0.0\",\"code_id\":null,\"debug_fi\
le\":null,\"debug_id\":null}],\"threads\":[],\"crash_info\":null}\n";

/// The object of `CRASH`.
pub const CRASH_OBJECT: &str =
    "{\"line\":\"summary\",\"file\":\"a.dmp\",\"status\":\"OK\",\"time\":0,\"system_info\":null,\"sys\
tem\":null,\"crash\":{\"code\":\"0xc0000005\",\"code_name\":null,\"flags\":\"0x00000000\",\"flag\
s_name\":null,\"thread\":7,\"thread_name\":null,\"address\":\"0x0000000000401000\",\"exception_a\
ddress\":\"0x0000000000401000\",\"registers\":null,\"reached\":null,\"module\":null,\"near\":nul\
l},\"program\":null,\"counts\":{\"streams\":\"2\",\"threads\":\"1\",\"modules\":\"0\",\"exceptio\
ns\":\"1\",\"ranges\":\"0\",\"memory\":\"0\"},\"bad_entries\":0,\"first_error\":null,\"parts_out\
side\":0,\"first_outside\":null,\"main_module\":null,\"modules\":[],\"threads\":[{\"thread_id\":\
7,\"thread_name\":null,\"frames\":[]}],\"crash_info\":{\"type\":\"0xc0000005\",\"address\":\"0x0\
000000000401000\",\"crashing_thread\":0}}\n";

/// The summary of `CRASH`.
pub const CRASH_SUMMARY: &str = "a.dmp: 0xc0000005 at 0x0000000000401000, thread 7
  code 0xc0000005 flags 0x00000000
  address 0x0000000000401000
  written not set
  streams 2 threads 1 modules 0 exceptions 1 ranges 0 memory 0
  file good\n";

/// The same, where the name of the record is cut.
pub const CUT_LINES: &str =
    "dump version 0x0000 streams 1 directory 32 checksum 0 time 0 flags 0x0000000000000000
stream 0 type 4 size 112 rva 44
module 0 base 0x0000000000000000 size 0 checksum 0 time 0 version 0.0.0.0 cv inside 30@156 misc empty name none
pdb 00112233-4455-6677-8899-aabbccddeeff age 1 name \"a.\" cut\n";

/// A list of the file of `SIX`.
pub const SIX_TEXT: &str =
    "dump version 0x0000 streams 6 directory 32 checksum 0 time 0 flags 0x0000000000000000
stream 0 type 7 size 56 rva 104
system architecture 9 level 6 revision 3 processors 4 product 1 version 6.1.7601 platform 2 suite 256 csd \"Service Pack 1\"
stream 1 type 3 size 52 rva 196
thread 0 id 7 suspend 0 class 32 priority 0 teb 0x0000000000005000 stack 0x0000000000007000 inside 4@248 context inside 6@252
stream 2 type 4 size 4 rva 260
stream 3 type 6 size 168 rva 264
exception thread 7 code 0xc0000005 flags 0 record 0x0000000000000000 address 0x0000000000401000 parameters 2 0x0000000000000001 0x0000000000000010 context inside 4@432
stream 4 type 5 size 4 rva 436
stream 5 type 12 size 4 rva 440\n";
