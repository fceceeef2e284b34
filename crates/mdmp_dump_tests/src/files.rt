//! The files of the tests, and the limits under which they are read.
use mdmp_lister::{Choice, Limits, TypeSet};
use mdmp_test_support::{
    ABSENT_STACK, CRASH, MEMORY64, SIX, SYSTEM, UNLOADED, endless_ranges_file, file_of_numbers,
    file_of_parts, large_file, last_file, limits, thousand_entries_file,
};
use std::alloc::Global;
use std::process::Abort;

/// The least window, and no room for a name.
pub const LEAST: Limits = limits!(168, 0);

/// The least window, and the room for a name that the program has.
pub const NAMED: Limits = limits!(168, 4096);

/// The least window, and names of at most 8 bytes.
pub const EIGHT: Limits = limits!(168, 8);

/// The limits of a row: a static table holds no `Limits`, whose numbers have conditions.
#[derive(Clone, Copy)]
pub struct RowLimits {
    pub window: u32,
    pub name: u32,
    pub budget: Option<u64>,
    pub memory: Option<u64>,
}

/// `LEAST` in a row.
pub const LEAST_ROW: RowLimits = RowLimits {
    window: 168,
    name: 0,
    budget: None,
    memory: None,
};

/// `NAMED` in a row.
pub const NAMED_ROW: RowLimits = RowLimits {
    name: 4096,
    ..LEAST_ROW
};

/// The least window, and the room for the 28 bytes of the name of `SYSTEM`.
pub const EXACT_ROW: RowLimits = RowLimits {
    name: 28,
    ..LEAST_ROW
};

/// These limits.
pub fn limits_of_row(rt: &impl Abort, row: &RowLimits) -> Limits {
    let mut limits = Limits::new(row.window, row.name).expect(rt, "limits");
    limits.budget = row.budget;
    limits.memory = row.memory;
    limits
}

/// What a file is made of.
pub enum Sample<'a> {
    /// A header, so many entries of the directory, and these numbers.
    Numbers(u32, &'a [u32]),
    /// The first bytes, as many as this, of such a file.
    Cut(u32, &'a [u32], usize),
    /// These parts, and zeros up to this size.
    Parts(&'a [&'a [u8]], usize),
    /// An unloaded module whose name is these bytes.
    Named(&'a [u8]),
    /// A part of two mebibytes.
    Large,
    /// Ranges of 64-bit memory that end past every place.
    Endless,
    /// Ranges of 64-bit memory that end at the last place.
    Last,
    /// A thousand entries that name one list of threads.
    Thousand,
}

/// The file `CRASH`, of 292 bytes.
pub const CRASH_FILE: Sample<'static> = Sample::Numbers(2, &CRASH);

/// The file `SIX`, of 444 bytes.
pub const SIX_FILE: Sample<'static> = Sample::Numbers(6, &SIX);

/// The file `SYSTEM`.
pub const SYSTEM_FILE: Sample<'static> = Sample::Parts(&[&SYSTEM], 136);

/// The file `MEMORY64`, with the bytes `EFGH` of its second range.
pub const MEMORY64_FILE: Sample<'static> = Sample::Parts(&[&MEMORY64, b"GH"], 100);

/// The file `ABSENT_STACK`, up to the byte of the thread's context.
pub const ABSENT_STACK_FILE: Sample<'static> = Sample::Cut(1, &ABSENT_STACK, 97);

/// All types of streams, where a list of some is asked for.
pub const ALL: &[u32] = &[];

/// A file, and how it is read: its entries of which types, under which limits, and how many bytes their parts may
/// have.
pub struct DumpReading {
    /// What it shows, which a failing test tells.
    pub name: &'static str,
    pub sample: Sample<'static>,
    pub types: &'static [u32],
    pub limits: RowLimits,
    pub parts: u64,
}

/// The thread and the exception, whose parts have 14 bytes.
pub const CRASH_READING: DumpReading = DumpReading {
    name: "a thread and an exception",
    sample: CRASH_FILE,
    types: ALL,
    limits: LEAST_ROW,
    parts: 14,
};

/// The six streams, whose parts have 18 bytes.
pub const SIX_READING: DumpReading = DumpReading {
    name: "six streams",
    sample: SIX_FILE,
    types: ALL,
    limits: NAMED_ROW,
    parts: 18,
};

/// The system, with its name.
pub const SYSTEM_READING: DumpReading = DumpReading {
    name: "a system with its name",
    sample: SYSTEM_FILE,
    types: ALL,
    limits: NAMED_ROW,
    parts: 0,
};

/// The ranges of 64-bit memory, whose parts have 8 bytes.
pub const MEMORY64_READING: DumpReading = DumpReading {
    name: "ranges of a 64-bit list",
    sample: MEMORY64_FILE,
    types: ALL,
    limits: LEAST_ROW,
    parts: 8,
};

/// The thread without its stack, whose context has 1 byte.
pub const ABSENT_STACK_READING: DumpReading = DumpReading {
    name: "a thread without its stack",
    sample: ABSENT_STACK_FILE,
    types: ALL,
    limits: LEAST_ROW,
    parts: 1,
};

/// The bytes of a file.
pub fn file_of(rt: &impl Abort, alloc: Global, sample: &Sample<'_>) -> Vec<u8, Global> {
    let made = match sample {
        Sample::Numbers(entries, numbers) => file_of_numbers(alloc, *entries, *numbers),
        Sample::Cut(entries, numbers, _) => file_of_numbers(alloc, *entries, *numbers),
        Sample::Parts(parts, size) => file_of_parts(alloc, *parts, *size),
        Sample::Named(_) => file_of_numbers(alloc, 1, &UNLOADED),
        Sample::Large => large_file(alloc),
        Sample::Endless => endless_ranges_file(alloc),
        Sample::Last => last_file(alloc),
        Sample::Thousand => thousand_entries_file(alloc),
    };
    let mut file = made.expect(rt, "memory for a file");
    match sample {
        Sample::Cut(_, _, size) => file.truncate(*size),
        Sample::Named(name) => {
            file.extend_from_slice(*name)
                .expect(rt, "memory for a name");
        }
        _ => {}
    }
    file
}

/// The entries of these types, or all where none is named.
pub fn choice_of(rt: &impl Abort, types: &[u32]) -> Choice {
    if types.is_empty() {
        Choice::All
    } else {
        Choice::Types(TypeSet::new(types).expect(rt, "types"))
    }
}
