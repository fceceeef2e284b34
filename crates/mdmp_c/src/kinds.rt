//! The numbers of the kinds of faults, and of the parts of records. include/mdmp.h says what each means.
// Made by bindings/generate from bindings/interface.toml.

pub(crate) const FILE_TOO_SHORT: u32 = 1;

pub(crate) const BAD_SIGNATURE: u32 = 2;

pub(crate) const BAD_VERSION: u32 = 3;

pub(crate) const DIRECTORY_OUTSIDE: u32 = 4;

pub(crate) const TOO_MANY_RANGES: u32 = 5;

pub(crate) const STREAM_OUTSIDE: u32 = 16;

pub(crate) const SHORT_STREAM: u32 = 17;

pub(crate) const BAD_HEADER_SIZE: u32 = 18;

pub(crate) const BAD_ENTRY_SIZE: u32 = 19;

pub(crate) const BAD_COUNT: u32 = 20;

pub(crate) const NAME_LENGTH_OUTSIDE: u32 = 21;

pub(crate) const NAME_ODD: u32 = 22;

pub(crate) const NAME_OUTSIDE: u32 = 23;

pub(crate) const PART_OUTSIDE: u32 = 32;

pub(crate) const NAME_TOO_LONG: u32 = 33;

pub(crate) const RAW_KNOWN_TYPE: u32 = 48;

pub(crate) const COPY_TOO_LARGE: u32 = 49;

pub(crate) const BAD_ENTRIES: u32 = 64;

pub(crate) const NOT_COPIED: u32 = 65;

pub(crate) const NO_MEMORY: u32 = 66;

pub(crate) const BAD_LIMITS: u32 = 67;

pub(crate) const BAD_TYPES: u32 = 68;

pub(crate) const STORE: u32 = 69;

pub(crate) const LENGTHS_DIFFER: u32 = 70;

pub(crate) const BUDGET: u32 = 71;

pub(crate) const MEMORY_LIMIT: u32 = 72;

pub(crate) const ASIDE_LIMIT: u32 = 73;

pub(crate) const COPY_BUDGET: u32 = 74;

pub(crate) const PART_STACK: u32 = 1;

pub(crate) const PART_CONTEXT: u32 = 2;

pub(crate) const PART_CODEVIEW: u32 = 3;

pub(crate) const PART_MISC: u32 = 4;

pub(crate) const PART_MEMORY: u32 = 5;
