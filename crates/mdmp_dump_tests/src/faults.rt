//! Why some files give neither a value nor a view.
use mdmp_dump::{PartName, ReadFault};
use mdmp_lister::{FaultKind, ListFault, OpenFault};
use mdmp_source::SourceFault;

/// Of `FAULTY` the name of the module lies outside.
pub const NAME_OUTSIDE: ReadFault = ReadFault::List(ListFault {
    entry: 1,
    index: Some(0),
    kind: FaultKind::NameLengthOutside,
    offset: 4294967295,
    size: 4,
});

/// Of the first 48 bytes of `COMMENT` the comment lies outside.
pub const COMMENT_OUTSIDE: ReadFault = ReadFault::List(ListFault {
    entry: 0,
    index: None,
    kind: FaultKind::StreamOutside,
    offset: 44,
    size: 5,
});

/// Of the first 96 bytes of `ABSENT_STACK` the context lies outside.
pub const CONTEXT_OUTSIDE: ReadFault = ReadFault::PartOutside {
    entry: 0,
    index: 0,
    part: PartName::Context,
    offset: 96,
    size: 1,
};

/// Of `MEMORY64` the second range lies outside.
pub const RANGE_OUTSIDE: ReadFault = ReadFault::PartOutside {
    entry: 0,
    index: 1,
    part: PartName::Memory,
    offset: 96,
    size: 4,
};

/// The header is not read.
pub const HEADER_FAILS: ReadFault = ReadFault::Opening(OpenFault::Source(SourceFault::Failed {
    at: 0,
}));

/// The directory is not read.
pub const DIRECTORY_FAILS: ReadFault = ReadFault::Opening(OpenFault::Source(SourceFault::Failed {
    at: 32,
}));

/// Of `CRASH` the list of threads is not read.
pub const THREADS_FAIL: ReadFault = ReadFault::List(ListFault {
    entry: 0,
    index: None,
    kind: FaultKind::Source(SourceFault::Failed { at: 56 }),
    offset: 56,
    size: 0,
});

/// Of `CRASH` the exception is not read.
pub const EXCEPTION_FAILS: ReadFault = ReadFault::List(ListFault {
    entry: 1,
    index: None,
    kind: FaultKind::Source(SourceFault::Failed { at: 120 }),
    offset: 120,
    size: 0,
});
