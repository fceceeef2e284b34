//! The calls of one lister, or of one walker, in a row, and what each is to answer.
use crate::files::FileOf;
use crate::given::{GivenItem, Named, range, sixteen, stream, thread, unloaded};
use mdmp_lister::{Limits, ListFault, RunFault};
use mdmp_map::Place;
use mdmp_source::{Extent, SourceFault};
use mdmp_test_support::limits;

/// The least window, and no room for a name.
pub const LEAST: Limits = limits!(168, 0);

/// The least window, and the room for a name that the program has.
pub const NAMED: Limits = limits!(168, 4096);

/// The window and the room for a name that a caller has who says nothing.
pub const STANDARD: Limits = limits!(65536, 4096);

/// A window of 176 bytes and names of 16, both multiples of 16 as a heap's blocks are.
pub const WHOLE_BLOCKS: Limits = limits!(176, 16);

/// A call of a lister or of a walker.
#[derive(Clone, Copy)]
pub enum ScriptStep {
    /// How many entries its header counts.
    Entries,
    /// The next item.
    Next,
    /// Skip the entry.
    Skip,
    /// Hand what is left to a new sink, which stops at this call.
    NewSink(u64),
    /// Hand what is left to the sink of the step before.
    SameSink,
    /// Hand the verdicts on all entries to a new sink, which stops at this call.
    Check(u64),
    /// How many ranges the map has, and has room for.
    Room,
    /// Where the map finds an address.
    Find(u64),
    /// Read so many bytes of memory at an address, at most sixteen.
    Read(u64, usize),
    /// Read so many bytes of the file at an offset, at most sixteen.
    Part(u64, usize),
    /// How many bytes the file has, and how many were fetched aside.
    Numbers,
    /// How many records of the current entry are still to come.
    RecordsLeft,
    /// Go to an entry.
    Seek(usize),
    /// How many records the stream has whose Stream item was given last.
    Records,
    /// Whether nothing was given yet.
    Fresh,
}

/// What a call answers.
#[derive(Clone, Copy, Debug, PartialEq, Eq)]
pub enum Answer {
    Done,
    Entries(u32),
    Item(GivenItem),
    End,
    Fault(ListFault),
    /// How a run ended, and how often its sink was called so far.
    Ran(Option<RunFault>, u64),
    /// Something was given before, so no verdict can be.
    Begun,
    Room { len: usize, free: usize },
    Place(Option<Place>),
    /// What was read, with zeros behind it, and which of its bytes are known: a bit each, from the lowest on.
    Memory([u8; 16], u16),
    /// What was read, with zeros behind it.
    Bytes([u8; 16]),
    /// Not all of what is to be read lies inside the file.
    Outside,
    Failed(SourceFault),
    Numbers { size: u64, aside: u128 },
    RecordsLeft(u64),
    Counted(u64),
    Fresh(bool),
    /// It has no such call, or it may not be called there.
    NoCall,
}

/// A call and its answer.
#[derive(Clone, Copy)]
pub enum Call {
    /// Its header counts so many entries.
    Entries(u32),
    Gives(GivenItem),
    Ends,
    Fails(ListFault),
    Skips,
    /// A run into a new sink that stops at this call: how it ends, and how often the sink was called.
    Runs(u64, Option<RunFault>, u64),
    /// A further run into the same sink.
    RunsOn(Option<RunFault>, u64),
    /// Verdicts for a new sink that stops at this call.
    Checks(u64, Option<RunFault>, u64),
    /// No verdicts any more.
    HasBegun,
    /// How many ranges the map has, and has room for.
    HasRoom(usize, usize),
    /// An address stands at this offset, with so many bytes from there on.
    Finds(u64, u64, u64),
    FindsNothing(u64),
    /// These bytes at an address, and which of them are known: a bit each, from the lowest on.
    Reads(u64, &'static [u8], u16),
    ReadFails(u64, usize, SourceFault),
    /// These bytes of the file.
    HasPart(u64, &'static [u8]),
    PartOutside(u64, usize),
    PartFails(u64, usize, SourceFault),
    /// The size of the file, and what was fetched aside so far.
    HasNumbers(u64, u128),
    HasRecordsLeft(u64),
    Seeks(usize),
    /// An entry that is not there.
    CannotSeek(usize),
    Counts(u64),
    CountFails(ListFault),
    /// No Stream item was given last.
    CannotCount,
    /// Whether nothing was given yet.
    IsFresh(bool),
}

/// A call, and the answer that is expected.
pub fn parts_of(call: &Call) -> (ScriptStep, Answer) {
    match *call {
        Call::Entries(count) => (ScriptStep::Entries, Answer::Entries(count)),
        Call::Gives(item) => (ScriptStep::Next, Answer::Item(item)),
        Call::Ends => (ScriptStep::Next, Answer::End),
        Call::Fails(fault) => (ScriptStep::Next, Answer::Fault(fault)),
        Call::Skips => (ScriptStep::Skip, Answer::Done),
        Call::Runs(at, fault, calls) => (ScriptStep::NewSink(at), Answer::Ran(fault, calls)),
        Call::RunsOn(fault, calls) => (ScriptStep::SameSink, Answer::Ran(fault, calls)),
        Call::Checks(at, fault, calls) => (ScriptStep::Check(at), Answer::Ran(fault, calls)),
        Call::HasBegun => (ScriptStep::Check(u64::MAX), Answer::Begun),
        Call::HasRoom(len, free) => (ScriptStep::Room, Answer::Room { len, free }),
        Call::Finds(address, offset, left) => {
            let place = Place { offset, left };
            (ScriptStep::Find(address), Answer::Place(Some(place)))
        }
        Call::FindsNothing(address) => (ScriptStep::Find(address), Answer::Place(None)),
        Call::Reads(address, bytes, known) => (
            ScriptStep::Read(address, bytes.len()),
            Answer::Memory(sixteen(bytes), known),
        ),
        Call::ReadFails(address, len, fault) => {
            (ScriptStep::Read(address, len), Answer::Failed(fault))
        }
        Call::HasPart(at, bytes) => (
            ScriptStep::Part(at, bytes.len()),
            Answer::Bytes(sixteen(bytes)),
        ),
        Call::PartOutside(at, len) => (ScriptStep::Part(at, len), Answer::Outside),
        Call::PartFails(at, len, fault) => (ScriptStep::Part(at, len), Answer::Failed(fault)),
        Call::HasNumbers(size, aside) => (ScriptStep::Numbers, Answer::Numbers { size, aside }),
        Call::HasRecordsLeft(count) => (ScriptStep::RecordsLeft, Answer::RecordsLeft(count)),
        Call::Seeks(number) => (ScriptStep::Seek(number), Answer::Done),
        Call::CannotSeek(number) => (ScriptStep::Seek(number), Answer::NoCall),
        Call::Counts(records) => (ScriptStep::Records, Answer::Counted(records)),
        Call::CountFails(fault) => (ScriptStep::Records, Answer::Fault(fault)),
        Call::CannotCount => (ScriptStep::Records, Answer::NoCall),
        Call::IsFresh(expected) => (ScriptStep::Fresh, Answer::Fresh(expected)),
    }
}

/// Who answers the calls of a script.
#[derive(Clone, Copy)]
pub enum ScriptReader {
    Lister,
    Walker,
}

/// Calls over a file and their answers.
#[derive(Clone, Copy)]
pub struct Script<'a> {
    /// What the script shows.
    pub shows: &'a str,
    pub reader: ScriptReader,
    /// The window, and the room for a name.
    pub limits: (u32, u32),
    pub file: FileOf,
    /// The types that are chosen, or none where each entry is.
    pub types: &'a [u32],
    /// How many bytes the store gives a call, in turn; none where the file is in memory.
    pub caps: &'a [usize],
    /// The call of the store that fails, if one does.
    pub fail_at: Option<u64>,
    pub calls: &'a [Call],
}

/// A lister of each entry in memory, with the least window and no names.
pub const BY_LEAST: Script<'static> = Script {
    shows: "",
    reader: ScriptReader::Lister,
    limits: (168, 0),
    file: FileOf::Bytes(&[]),
    types: &[],
    caps: &[],
    fail_at: None,
    calls: &[],
};

/// The same with the room for a name that the program has.
pub const BY_NAMED: Script<'static> = Script {
    limits: (168, 4096),
    ..BY_LEAST
};

/// The same with the window of a caller who says nothing.
pub const BY_STANDARD: Script<'static> = Script {
    limits: (65536, 4096),
    ..BY_LEAST
};

/// The same with names of at most eight bytes.
pub const BY_SHORT: Script<'static> = Script {
    limits: (168, 8),
    ..BY_LEAST
};

/// A walker of each entry in memory, with the least window and no names.
pub const BY_WALKER: Script<'static> = Script {
    reader: ScriptReader::Walker,
    ..BY_LEAST
};

/// The same with the room for a name that the program has.
pub const BY_NAMED_WALKER: Script<'static> = Script {
    reader: ScriptReader::Walker,
    ..BY_NAMED
};

/// All items of `THRICE`, and the end, which stays.
pub const ITEMS_OF_THRICE: [Call; 8] = [
    Call::Gives(stream!(0, 3, 52, 68)),
    Call::Gives(thread!(0, 7)),
    Call::Gives(stream!(1, 3, 52, 68)),
    Call::Gives(thread!(1, 7)),
    Call::Gives(stream!(2, 3, 52, 68)),
    Call::Gives(thread!(2, 7)),
    Call::Ends,
    Call::Ends,
];

/// All items of `MEMORY64`, and the end.
pub const ITEMS_OF_MEMORY64: [Call; 4] = [
    Call::Gives(stream!(0, 9, 48, 44)),
    Call::Gives(range!(0, 0x1000, 4, Extent::Inside, 92)),
    Call::Gives(range!(1, 0x2000, 4, Extent::Outside, 96)),
    Call::Ends,
];

/// Two unloaded modules without names that stand 1000 bytes apart.
pub const APART_1000: FileOf = FileOf::Padded(1, 506, &[14, 2012, 44, 12, 1000, 2, 1], &[(256, 2)]);

/// All its items, and the end.
pub const ITEMS_APART: [Call; 4] = [
    Call::Gives(stream!(0, 14, 2012, 44)),
    Call::Gives(unloaded!(0, 1, Named::None)),
    Call::Gives(unloaded!(1, 2, Named::None)),
    Call::Ends,
];
