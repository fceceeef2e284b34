//! The texts of help: of the program, its commands, their words and options.

/// The version that `--version` tells.
pub(crate) const VERSION: &str = "0.1.0";

/// What the program is, and what it does not do.
pub(crate) const ABOUT: &str = "\
Reads Windows minidumps: says what crashed, lists and checks them, prints memory
of the dumped process, and copies streams into a new file. It does not walk
stacks, read symbols or disassemble, and it never writes to its input.";

/// What follows the list of commands.
pub(crate) const AFTER: &str = "\
'mdmp COMMAND --help' prints the help of a command.

Exit status:
  0  success
  1  an error in the file; for 'summary' and 'check', in any of its entries
  2  a bad command line, or a type that is not copied
  3  an I/O error, out of memory, a limit was reached, or a file could not be
     opened or created

Examples:
  mdmp summary crash.dmp
  mdmp list crash.dmp
  mdmp hex crash.dmp 0x7ffe0000 64";

/// What `summary` does, in a line.
pub(crate) const SUMMARY_ABOUT: &str =
    "Prints what crashed and where, and whether the file is good";

/// What `summary` prints.
pub(crate) const SUMMARY_AFTER: &str = "\
Prints at most ten lines for each FILE. The first names the crash, its place and
its thread. The others have registers, the program, the system, counts, and
whether the file is good. After an error in an entry, it goes on with the next
one: the file is damaged then, and the exit status is 1. If parts of records are
outside the file, the last line says which part is the first. An error that ends
a summary is one line on standard error, with the name of the file; the next
FILE follows. The exit status is the worst of all files. With '--json' each
summary is an object, for programs; messages on standard error stay text.

Examples:
  mdmp summary crash.dmp
  mdmp summary --json first.dmp second.dmp";

/// What `check` does, in a line.
pub(crate) const CHECK_ABOUT: &str = "Checks each entry of the directory";

/// What `check` prints.
pub(crate) const CHECK_AFTER: &str = "\
Prints a line for each entry of the directory: 'entry 0: ok', or the first error
of the stream that the entry names. It goes on after an error in the file. If
any entry is bad, the exit status is 1, and standard error has the number of bad
entries. With '--parts' it also looks at the parts that records point to, as
stacks. It prints a line for each part that lies outside the file, before the
line of the entry, and the entry is bad. A truncated file often shows only so.
With '--json' each line is an object, for programs; messages on standard error
stay text.

Examples:
  mdmp check crash.dmp
  mdmp check --parts crash.dmp
  mdmp check --json crash.dmp";

/// What `list` does, in a line.
pub(crate) const LIST_ABOUT: &str =
    "Lists the header, the directory and the records of the streams";

/// What `list` prints.
pub(crate) const LIST_AFTER: &str = "\
Prints a line for the header and for each entry of the directory. After the line
of an entry, it prints a line for each record of the stream, if the records of
its type are known. It ends at the first error in the file. With '--json' each
line is an object, for programs; messages on standard error stay text.

Examples:
  mdmp list --pdb crash.dmp
  mdmp list --json --pdb crash.dmp";

/// What `hex` does, in a line.
pub(crate) const HEX_ABOUT: &str = "Prints memory of the dumped process in hexadecimal digits";

/// What `hex` prints.
pub(crate) const HEX_AFTER: &str = "\
Prints lines of up to 16 bytes, each with the address of its first byte. A byte
that is not in the memory lists of the file is '??'. If one of these lists has
an error, nothing is printed.

Example:
  mdmp hex crash.dmp 0x7ffe0000 64";

/// What `copy` does, in a line.
pub(crate) const COPY_ABOUT: &str = "Copies the streams of some types into a new file";

/// What `copy` copies, and what is left of OUT after an error.
pub(crate) const COPY_AFTER: &str = "\
Types that are copied, by their numbers or names:
  0             UnusedStream
  3             threads, ThreadListStream
  4             modules, ModuleListStream
  5             memory, MemoryListStream
  6             exception, ExceptionStream
  7             system, SystemInfoStream
  9             memory64, Memory64ListStream
  10            CommentStreamA
  11            CommentStreamW
  14            unloaded, UnloadedModuleListStream
  15            MiscInfoStream
  16            regions, MemoryInfoListStream
  24            threadnames, ThreadNamesStream
  65536 and on  streams of users

Streams keep their order. The names and other parts of a stream follow it, and
its records have their new locations. Locations inside a user's stream are not
changed: they still point into IN. Nothing is printed. After an error OUT stays,
empty or partly written.

Example:
  mdmp copy crash.dmp small.dmp threads modules system";

/// What FILE is.
pub(crate) const FILE: &str = "The minidump to read, or '-' for standard input";

/// What each FILE of `summary` is.
pub(crate) const FILES: &str = "The minidumps to read, in this order; '-' is standard input";

/// What `--window` sets.
pub(crate) const WINDOW: &str =
    "Read at a time at most N bytes, 168 to 1073741824 [default: 65536]";

/// What `--name` sets.
pub(crate) const NAME: &str = "Read names of at most N bytes, up to 1073741824 [default: 4096]";

/// What `--budget` sets.
pub(crate) const BUDGET: &str =
    "Read at most N bytes of the file, up to 18446744073709551615 (the default)";

/// What `--memory` sets.
pub(crate) const MEMORY: &str =
    "Use at most N bytes of memory for the dump [default: no limit; for '-', 67108864]";

/// What `--aside` sets.
pub(crate) const ASIDE: &str =
    "Read at most N bytes of CodeView records for --pdb [default: no limit]";

/// What `--untrusted` sets.
pub(crate) const UNTRUSTED: &str =
    "For strangers' files: --budget, --memory and list's --aside default to 67108864";

/// What `--parts` adds.
pub(crate) const PARTS: &str = "Print a line for each part of a record that lies outside the file";

/// What `--pdb` adds.
pub(crate) const PDB: &str = "Print a line for the symbol file (PDB) of each module that names one";

/// What `--json` changes of `summary`.
pub(crate) const SUMMARY_JSON: &str =
    "Print each summary as an object of JSON (RFC 8259), in UTF-8";

/// What `--json` changes.
pub(crate) const JSON: &str = "Print each line as an object of JSON (RFC 8259), in UTF-8";

/// What ADDRESS is.
pub(crate) const ADDRESS: &str =
    "The first address: '0x' and 1 to 16 hexadecimal digits, a decimal number, or 00000000`7ffe0000";

/// What LENGTH is.
pub(crate) const LENGTH: &str =
    "How many bytes, in decimal: up to 1048576, and none past the last address, 2^64 - 1";

/// What IN is.
pub(crate) const IN: &str = "The minidump to read";

/// What OUT is.
pub(crate) const OUT: &str = "The file to create; it must not exist";

/// What each TYPE is.
pub(crate) const TYPE: &str = "The types of the streams to copy, 1 to 16 numbers or names";
