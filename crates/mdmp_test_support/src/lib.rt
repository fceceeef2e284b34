//! Small files and large ones, what is printed of them, how much an output takes, and a heap that counts and refuses,
//! for the tests of the other crates.
//!
//! No function here has a contract, but for those of a trait, so that a test knows nothing of what it
//! called, but compares what it was given, and its own proof stays short.
#![tactic(auto)]

mod constants;
mod files;
mod large_files;
mod memory_files;
mod metered_heap;
mod module_files;
mod outputs;
mod small_files;
mod texts;

pub use crate::files::{
    entry, faulty_file, file_of_numbers, file_of_parts, header_of, thousand_entries_file,
};
pub use crate::large_files::{
    EMPTY_COMMENT, EMPTY_PART, LARGE, LARGE_PART, LONG_COMMENT, LONG_NAME, MANY_ENTRIES,
    MANY_RANGES, MANY_THREADS, OneStream, one_stream_file,
};
pub use crate::memory_files::{
    ABCD_RANGE, FourByteRange, ListedRange, NO_RANGE, WXYZ_RANGE, endless_ranges_file, large_file,
    last_file, memory_file, short_threads_file, two_ranges_file,
};
pub use crate::metered_heap::{HeapCounts, MeteredHeap, Refusal};
pub use crate::module_files::{CODEVIEW_RECORD, module_file};
pub use crate::outputs::{BY_SEVEN, BY_WHOLE, FOR_LONG_TEXT, Room};
pub use crate::small_files::{
    ABSENT_STACK, COMMENT, CRASH, FAR_NAME, FAULTY, MEMORY64, MODULE, OVERLAPPING, SIX, SYSTEM,
    THREAD_NAME, THRICE, UNLOADED,
};
pub use crate::texts::{
    CODEVIEW_LINE, FAULTY_TEXT, FAULTY_TOLD, FAULTY_VERDICTS, MODULE_FILE_TEXT, SYSTEM_TEXT,
    WIDE_TEXT,
};
