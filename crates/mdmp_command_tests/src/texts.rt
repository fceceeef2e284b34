//! Objects of JSON that the commands print of the small files.

/// What `list --json` prints of a file of one module.
pub const MODULE_OBJECTS: &str = "\
{\"line\":\"dump\",\"version\":\"0x0000\",\"streams\":1,\"directory\":32,\"checksum\":0,\"time\":0,\"flags\":\"0x0000000000000000\"}
{\"line\":\"stream\",\"entry\":0,\"type\":4,\"size\":112,\"rva\":44,\"name\":\"ModuleListStream\"}
{\"line\":\"module\",\"entry\":0,\"index\":0,\"base\":\"0x0000000000000000\",\"size\":0,\"checksum\":0,\"time\":0,\"version\":\"0.0.0.0\",\"cv\":{\"class\":\"inside\",\"size\":30,\"offset\":156},\"misc\":{\"class\":\"empty\"},\"name\":null,\"code_id\":null,\"product_version\":\"0.0.0.0\"}
";

/// The same, and the object of its CodeView record.
pub const SYMBOL_OBJECTS: &str = "\
{\"line\":\"dump\",\"version\":\"0x0000\",\"streams\":1,\"directory\":32,\"checksum\":0,\"time\":0,\"flags\":\"0x0000000000000000\"}
{\"line\":\"stream\",\"entry\":0,\"type\":4,\"size\":112,\"rva\":44,\"name\":\"ModuleListStream\"}
{\"line\":\"module\",\"entry\":0,\"index\":0,\"base\":\"0x0000000000000000\",\"size\":0,\"checksum\":0,\"time\":0,\"version\":\"0.0.0.0\",\"cv\":{\"class\":\"inside\",\"size\":30,\"offset\":156},\"misc\":{\"class\":\"empty\"},\"name\":null,\"code_id\":null,\"product_version\":\"0.0.0.0\"}
{\"line\":\"pdb\",\"entry\":0,\"index\":0,\"kind\":\"rsds\",\"guid\":\"00112233-4455-6677-8899-aabbccddeeff\",\"age\":1,\"debug_id\":\"00112233445566778899AABBCCDDEEFF1\",\"name\":\"a.pdb\",\"cut\":false}
";

/// What `check --parts` prints of two ranges of 64-bit memory, of which the second lies outside the file.
pub const WIDE_PARTS: &str =
    "entry 0 item 1: memory outside the file: offset 96 size 4\nentry 0: ok\n";

/// What `list --pdb` prints of a file of one module.
pub const SYMBOL_LINES: &str =
    "dump version 0x0000 streams 1 directory 32 checksum 0 time 0 flags 0x0000000000000000
stream 0 type 4 size 112 rva 44
module 0 base 0x0000000000000000 size 0 checksum 0 time 0 version 0.0.0.0 cv inside 30@156 misc empty name none
pdb 00112233-4455-6677-8899-aabbccddeeff age 1 name \"a.pdb\"\n";

/// What `list --json` prints of the file whose numbers are `FAULTY`, up to its fault.
pub const FAULTY_OBJECTS: &str = "\
{\"line\":\"dump\",\"version\":\"0x0000\",\"streams\":3,\"directory\":32,\"checksum\":0,\"time\":0,\"flags\":\"0x0000000000000000\"}
{\"line\":\"stream\",\"entry\":0,\"type\":7,\"size\":56,\"rva\":68,\"name\":\"SystemInfoStream\"}
{\"line\":\"system\",\"entry\":0,\"architecture\":0,\"level\":0,\"revision\":0,\"processors\":0,\"product\":0,\"version\":\"0.0.0\",\"platform\":0,\"suite\":0,\"csd\":null}
{\"line\":\"stream\",\"entry\":1,\"type\":4,\"size\":112,\"rva\":124,\"name\":\"ModuleListStream\"}
";

/// What `check --json` prints of it.
pub const FAULTY_VERDICT_OBJECTS: &str = "\
{\"line\":\"entry\",\"entry\":0,\"fault\":null}
{\"line\":\"entry\",\"entry\":1,\"fault\":{\"kind\":\"name length outside the file\",\"item\":\"0\",\"offset\":\"4294967295\",\"size\":\"4\"}}
{\"line\":\"entry\",\"entry\":2,\"fault\":{\"kind\":\"stream outside the file\",\"offset\":\"236\",\"size\":\"5\"}}
";
