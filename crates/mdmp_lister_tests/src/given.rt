//! What a lister gives, as plain values.
use mdmp_lister::{Item, Name};
use mdmp_source::Extent;
use mdmp_wire::MemoryInfoRecord;
use std::alloc::Global;
use std::process::Abort;

/// A short text: how many bytes it has, and the first sixteen, with zeros behind them.
#[derive(Clone, Copy, Debug, PartialEq, Eq)]
pub struct Text {
    pub len: usize,
    pub bytes: [u8; 16],
}

/// The name of an item.
#[derive(Clone, Copy, Debug, PartialEq, Eq)]
pub enum Named {
    None,
    Text(Text),
    Long(u32),
}

/// Telling numbers of an item, by its kind.
#[derive(Clone, Copy, Debug, PartialEq, Eq)]
pub enum What {
    Stream {
        stream_type: u32,
        size: u32,
        rva: u32,
    },
    Thread {
        id: u32,
        stack: Extent,
        context: Extent,
    },
    Module {
        base: u64,
        codeview: Extent,
        misc: Extent,
    },
    Unloaded {
        base: u64,
    },
    Exception {
        thread: u32,
        code: u32,
        context: Extent,
    },
    System {
        processors: u8,
        build: u32,
    },
    MemoryInfo(MemoryInfoRecord),
    ThreadName {
        id: u32,
    },
    Range {
        start: u64,
        size: u64,
        extent: Extent,
        offset: u128,
    },
}

/// An item. That of an entry has the index 0, and where a kind has no name it has none.
#[derive(Clone, Copy, Debug, PartialEq, Eq)]
pub struct GivenItem {
    pub entry: u32,
    pub index: u64,
    pub what: What,
    pub name: Named,
}

/// The name of no units.
pub const EMPTY_NAME: Named = Named::Text(Text {
    len: 0,
    bytes: [0; 16],
});

/// The name `abcd`.
pub const ABCD: Named = Named::Text(Text {
    len: 4,
    bytes: *b"abcd\0\0\0\0\0\0\0\0\0\0\0\0",
});

/// The name `abcde`.
pub const ABCDE: Named = Named::Text(Text {
    len: 5,
    bytes: *b"abcde\0\0\0\0\0\0\0\0\0\0\0",
});

/// The name of the system's service pack.
pub const SERVICE_PACK: Named = Named::Text(Text {
    len: 14,
    bytes: *b"Service Pack 1\0\0",
});

/// An item with a name, by a macro as those below are, since no static calls a function.
macro_rules! named_item {
    ($entry:expr, $index:expr, $what:expr, $name:expr) => {
        $crate::given::GivenItem {
            entry: $entry,
            index: $index,
            what: $what,
            name: $name,
        }
    };
}

pub(crate) use named_item;

/// An item of a kind that has no name.
macro_rules! nameless {
    ($entry:expr, $index:expr, $what:expr) => {
        $crate::given::named_item!($entry, $index, $what, $crate::given::Named::None)
    };
}

pub(crate) use nameless;

/// The entry of the directory with this number, and the three numbers that stand there.
macro_rules! stream {
    ($entry:expr, $stream_type:expr, $size:expr, $rva:expr) => {
        $crate::given::nameless!(
            $entry,
            0,
            $crate::given::What::Stream {
                stream_type: $stream_type,
                size: $size,
                rva: $rva,
            }
        )
    };
}

pub(crate) use stream;

/// A thread without a stack and a context: the first of its list, or one of this index.
macro_rules! thread {
    ($entry:expr, $id:expr) => {
        $crate::given::thread!($entry, 0, $id)
    };
    ($entry:expr, $index:expr, $id:expr) => {
        $crate::given::nameless!(
            $entry,
            $index,
            $crate::given::What::Thread {
                id: $id,
                stack: mdmp_source::Extent::Empty,
                context: mdmp_source::Extent::Empty,
            }
        )
    };
}

pub(crate) use thread;

/// A module of the first entry without a name and without parts.
macro_rules! module {
    ($index:expr, $base:expr) => {
        $crate::given::nameless!(
            0,
            $index,
            $crate::given::What::Module {
                base: $base,
                codeview: mdmp_source::Extent::Empty,
                misc: mdmp_source::Extent::Empty,
            }
        )
    };
}

pub(crate) use module;

/// A range of the first entry, or one of this entry.
macro_rules! range {
    ($index:expr, $start:expr, $size:expr, $extent:expr, $offset:expr) => {
        $crate::given::range!(0, $index, $start, $size, $extent, $offset)
    };
    ($entry:expr, $index:expr, $start:expr, $size:expr, $extent:expr, $offset:expr) => {
        $crate::given::nameless!(
            $entry,
            $index,
            $crate::given::What::Range {
                start: $start,
                size: $size,
                extent: $extent,
                offset: $offset,
            }
        )
    };
}

pub(crate) use range;

/// An unloaded module of the first entry.
macro_rules! unloaded {
    ($index:expr, $base:expr, $name:expr) => {
        $crate::given::named_item!(
            0,
            $index,
            $crate::given::What::Unloaded { base: $base },
            $name
        )
    };
}

pub(crate) use unloaded;

/// The system of the first entry.
macro_rules! system {
    ($processors:expr, $build:expr, $name:expr) => {
        $crate::given::named_item!(
            0,
            0,
            $crate::given::What::System {
                processors: $processors,
                build: $build,
            },
            $name
        )
    };
}

pub(crate) use system;

/// The first sixteen of these bytes, with zeros behind them.
pub fn sixteen(from: &[u8]) -> [u8; 16] {
    let mut bytes = [0; 16];
    for i in 0..from.len().min(16) {
        bytes[i] = from[i];
    }
    bytes
}

/// A name as a plain value.
pub fn plain_name(rt: &impl Abort, alloc: Global, name: &Name<'_>) -> Named {
    match name {
        Name::None => Named::None,
        Name::Units(units) => {
            let utf8 = units.to_utf8(alloc).expect(rt, "memory for a name");
            let spelled = utf8.as_str().as_bytes();
            Named::Text(Text {
                len: spelled.len(),
                bytes: sixteen(spelled),
            })
        }
        Name::Long(bytes) => Named::Long(*bytes),
    }
}

/// An item as a plain value.
pub fn plain(rt: &impl Abort, alloc: Global, item: &Item<'_>) -> GivenItem {
    GivenItem {
        entry: item.entry(),
        index: item.index(),
        what: what_of(item),
        name: plain_name(rt, alloc, item.name()),
    }
}

/// The telling numbers of an item.
fn what_of(item: &Item<'_>) -> What {
    match item {
        Item::Stream(item) => What::Stream {
            stream_type: item.stream_type,
            size: item.location.size,
            rva: item.location.rva,
        },
        Item::Thread(item) => What::Thread {
            id: item.fields.thread_id,
            stack: item.stack,
            context: item.context,
        },
        Item::Module(item) => What::Module {
            base: item.fields.base_of_image,
            codeview: item.codeview,
            misc: item.misc,
        },
        Item::Unloaded(item) => What::Unloaded {
            base: item.fields.base_of_image,
        },
        Item::Exception(item) => What::Exception {
            thread: item.fields.thread_id,
            code: item.fields.exception_code,
            context: item.context,
        },
        Item::System(item) => What::System {
            processors: item.fields.number_of_processors,
            build: item.fields.build_number,
        },
        Item::MemoryInfo(item) => What::MemoryInfo(item.fields),
        Item::ThreadName(item) => What::ThreadName {
            id: item.fields.thread_id,
        },
        Item::Range(item) => What::Range {
            start: item.start,
            size: item.size,
            extent: item.extent,
            offset: item.offset,
        },
    }
}
