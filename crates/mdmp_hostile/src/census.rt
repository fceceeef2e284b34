//! What is counted of the files, and what troubles one of them: two calls that do not agree, a bound that is
//! not kept, or memory that is wanting.

use std::io::{Error, Write};

/// A thing that is counted, in the order of the lines.
#[derive(Clone, Copy)]
pub enum Counted {
    Files,
    Bytes,
    Damaged,
    Opened,
    TooShort,
    BadSignature,
    BadVersion,
    DirectoryOutside,
    TooManyRanges,
    Items,
    Unused,
    ThreadLists,
    ModuleLists,
    MemoryLists,
    ExceptionStreams,
    SystemStreams,
    Memory64Lists,
    UnloadedLists,
    MemoryInfoLists,
    ThreadNameLists,
    Opaque,
    Users,
    Threads,
    Modules,
    Unloaded,
    Exceptions,
    Systems,
    Regions,
    ThreadNames,
    Ranges,
    Names,
    LongNames,
    Whole,
    StreamOutside,
    ShortStream,
    BadHeaderSize,
    BadEntrySize,
    BadCount,
    NameLengthOutside,
    NameOdd,
    NameUnitsOutside,
    Halves,
    HalvesRefused,
    HalvesEnded,
    HalvesItems,
    Verdicts,
    BadVerdicts,
    Values,
    StackOutside,
    ContextOutside,
    CodeViewOutside,
    MiscOutside,
    MemoryOutside,
    NameTooLong,
    PartsTooLarge,
    Copies,
    CopyBytes,
    TooLarge,
}

/// What troubles a file where memory is wanting.
pub const OUT_OF_MEMORY: &str = "out of memory";

/// What troubles a file where a budget is reached and there is none.
pub const NO_LIMIT: &str = "a limit is reached without one";

/// How many things are counted.
const THINGS: usize = 58;

/// What is printed of each.
static TOLD: [&str; THINGS] = [
    "files",
    "bytes of files",
    "files that were damaged",
    "files opened",
    "refused: file too short",
    "refused: bad signature",
    "refused: bad version",
    "refused: directory outside the file",
    "refused: too many memory ranges",
    "items listed",
    "unused entries",
    "thread lists",
    "module lists",
    "memory lists",
    "exception streams",
    "system streams",
    "64-bit memory lists",
    "unloaded module lists",
    "memory info lists",
    "thread name lists",
    "opaque streams",
    "streams of users",
    "threads",
    "modules",
    "unloaded modules",
    "exceptions",
    "systems",
    "regions",
    "names of threads",
    "ranges",
    "names",
    "names over the limit",
    "files listed to their end",
    "listed up to a stream outside the file",
    "listed up to a stream too short",
    "listed up to a bad header size",
    "listed up to a bad entry size",
    "listed up to a bad count",
    "listed up to a name length outside the file",
    "listed up to an odd name length",
    "listed up to a name outside the file",
    "files listed within half of what they fetch",
    "refused: budget reached",
    "listed up to the budget",
    "items listed up to the budget",
    "verdicts",
    "verdicts with a fault",
    "values read",
    "not read: stack outside the file",
    "not read: context outside the file",
    "not read: codeview outside the file",
    "not read: misc outside the file",
    "not read: memory outside the file",
    "not read: name too long",
    "not read: parts too large",
    "copies",
    "bytes of copies",
    "not written: too large",
];

/// How often each thing was counted, and what troubles a file.
#[derive(Clone, Copy)]
pub struct Census {
    counts: [u64; THINGS],
    /// What troubles a file: the first thing that does since it was taken.
    pub trouble: Option<&'static str>,
}

impl Census {
    /// Nothing counted yet.
    pub fn new() -> Self {
        Census {
            counts: [0; THINGS],
            trouble: None,
        }
    }

    /// Counts one.
    pub fn count(&mut self, what: Counted) {
        self.add(what, 1);
    }

    /// Counts so many.
    pub fn add(&mut self, what: Counted, number: u64) {
        if let Some(count) = self.counts.get_mut(what as usize) {
            *count = count.saturating_add(number);
        }
    }

    /// Keeps what troubles a file, where nothing did before.
    pub fn keep_trouble(&mut self, what: &'static str) {
        if self.trouble.is_none() {
            self.trouble = Some(what);
        }
    }

    /// Keeps this as what troubles a file where it does not hold.
    pub fn agree(&mut self, holds: bool, what: &'static str) {
        if !holds {
            self.keep_trouble(what);
        }
    }

    /// Prints a line for each thing that is counted.
    pub fn tell(&self, rt: &HostRuntime) -> Result<(), Error> {
        for k in 0..THINGS {
            let (count, told) = (self.counts[k], TOLD[k]);
            writeln!(rt.stdout(), "{count} {told}")?;
        }
        Ok(())
    }
}
