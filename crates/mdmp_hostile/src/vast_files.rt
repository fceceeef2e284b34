//! Files of which a few bytes say more than is read or written.

use crate::census::{Census, Counted, OUT_OF_MEMORY};
use crate::copies::{open_view, write};
use crate::draft::Draft;
use crate::runs::count_refusal;
use crate::values::value_of;
use crate::windows::{TwoWindows, open};
use mdmp_dump::{DumpView, ReadFault, read_dump};
use mdmp_lister::{Choice, Limits, OpenFault};
use mdmp_source::{MemoryStore, Source, WriteOut};
use mdmp_writer::{LayoutFault, WriteFault};
use std::alloc::Global;

/// How many entries name one stream.
const ENTRIES: u32 = 20_000;

/// How many ranges that stream has where it is a memory list: together more than 2^28.
const RANGES: u32 = 13_422;

/// Runs through both files, through each window.
pub fn run_vast_files(alloc: Global, windows: TwoWindows, census: &mut Census) {
    run_crowded(alloc, windows.one, census);
    run_swollen(alloc, windows.one, census);
    run_crowded(alloc, windows.other, census);
    run_swollen(alloc, windows.other, census);
}

/// A file that names one memory list too often is refused, with the number of ranges.
fn run_crowded(alloc: Global, limits: Limits, census: &mut Census) {
    let draft = repeated(alloc, 5, census);
    let fault = OpenFault::TooManyRanges {
        count: u128::from(ENTRIES).saturating_mul(u128::from(RANGES)),
    };
    match open(alloc, &draft.bytes, limits) {
        Ok(_) => census.keep_trouble("too many ranges are listed"),
        Err(other) => {
            census.agree(
                other.fault == fault,
                "too many ranges are refused otherwise",
            );
            count_refusal(census, other.fault);
        },
    }
    match value_of(alloc, &draft.bytes, limits) {
        Ok(_) => census.keep_trouble("too many ranges are read"),
        Err(other) => census.agree(
            other == ReadFault::Opening(fault),
            "too many ranges are not read otherwise",
        ),
    }
}

/// A file that names one stream so often that its copy would be too large is read up to the limit on
/// parts, and refused to be written.
fn run_swollen(alloc: Global, limits: Limits, census: &mut Census) {
    let draft = repeated(alloc, 0x10000, census);
    if has_too_large_parts(alloc, &draft.bytes, limits) {
        census.count(Counted::PartsTooLarge);
    } else {
        census.keep_trouble("parts that are too large are read");
    }
    match open_view(alloc, &draft.bytes, limits) {
        Ok(mut view) => refuse_copy(alloc, &mut view, census),
        Err(_) => census.keep_trouble("a large file has no view"),
    }
}

/// Whether the fifth entry of a file has the parts that pass the limit.
fn has_too_large_parts(alloc: Global, file: &[u8], limits: Limits) -> bool {
    let source = Source::new(MemoryStore::new(file));
    let answer = read_dump(alloc, source, limits, Choice::All, 1 << 20);
    matches!(answer, Err(ReadFault::PartsTooLarge { entry: 4, index: 0 }))
}

/// A copy that is too large is refused, before anything goes out.
fn refuse_copy<V: DumpView>(alloc: Global, view: &mut V, census: &mut Census) {
    let mut out = WriteOut::new(Vec::new(alloc));
    match write(view, &mut out) {
        Err(WriteFault::Layout(LayoutFault::TooLarge)) => census.count(Counted::TooLarge),
        Ok(_) | Err(_) => census.keep_trouble("a copy that is too large is written"),
    }
    census.agree(
        out.into_inner().is_empty(),
        "a copy that is too large goes out",
    );
}

/// A file of entries of this type, which name one stream: a count, and the ranges without bytes.
fn repeated(alloc: Global, stream_type: u32, census: &mut Census) -> Draft {
    let mut file = Draft::new(alloc);
    file.push_words(&[0x504d_444d, 0xa793, ENTRIES, 32, 0, 0, 0, 0]);
    let size = RANGES.saturating_mul(16).saturating_add(4);
    let rva = ENTRIES.saturating_mul(12).saturating_add(32);
    for _ in 0..ENTRIES {
        file.push_words(&[stream_type, size, rva]);
    }
    file.push_word(RANGES);
    for _ in 0..RANGES {
        file.push_bytes(&[0; 16]);
    }
    census.agree(!file.lacks_memory, OUT_OF_MEMORY);
    file
}
