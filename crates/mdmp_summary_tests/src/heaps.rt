//! What the summary of a large file takes of a heap: what its walker does, W + 12s + L bytes, each once; and nothing if the
//! limit of memory is a byte less.
use crate::same::assert_same_at;
use crate::summing::summary_over;
use mdmp_lister::{Limits, OpenFault};
use mdmp_source::MemoryStore;
use mdmp_summary::SummaryFault;
use mdmp_test_support::{
    HeapCounts, LONG_COMMENT, LONG_NAME, MANY_ENTRIES, MANY_RANGES, MANY_THREADS, MeteredHeap,
    OneStream, Refusal, one_stream_file,
};
use std::alloc::Global;
use std::process::Abort;

/// A file, the window W and the longest name L through which it is summed up, the bytes W + 12s + L, and by how many
/// growths they are taken.
type SummaryHeapRow = (OneStream<'static>, u32, u32, u64, u64);

static ROWS: [SummaryHeapRow; 5] = [
    (MANY_ENTRIES, 1 << 20, 4096, (1 << 20) + 12 * 5000 + 4096, 3),
    (MANY_RANGES, 70_000, 0, 70_000 + 12 * 5000, 2),
    (MANY_THREADS, 1 << 20, 0, (1 << 20) + 12, 2),
    (LONG_COMMENT, 168, 4096, 168 + 12 + 4096, 3),
    (LONG_NAME, 168, 70_000, 168 + 12 + 70_000, 3),
];

/// Why there is no summary of a file within so many bytes of memory, and what was taken of a heap.
fn summed_within(
    rt: &impl Abort,
    alloc: Global,
    file: &[u8],
    row: &SummaryHeapRow,
    memory: u64,
) -> (Option<SummaryFault>, HeapCounts) {
    let (_, window, name, _, _) = *row;
    let limits = Limits::new(window, name)
        .expect(rt, "limits")
        .limit_memory(memory);
    let heap = MeteredHeap::new(alloc, Refusal::Never);
    let fault = summary_over(&heap, MemoryStore::new(file), limits).err();
    (fault, heap.counts())
}

/// Asserts what the summary of a row takes at its limit of memory, and with a byte less.
fn assert_row(rt: &impl Abort, alloc: Global, number: usize, row: &SummaryHeapRow) {
    let (file, _, _, most, growths) = *row;
    let bytes = one_stream_file(alloc, file).expect(rt, "memory for a file");
    let found = summed_within(rt, alloc, &bytes, row, most);
    assert_same_at(
        rt,
        &(number, most),
        found,
        (None, HeapCounts::once(most, growths)),
    );
    let held = u128::from(most);
    let over = SummaryFault::Opening(OpenFault::MemoryLimit { held });
    let found = summed_within(rt, alloc, &bytes, row, most.saturating_sub(1));
    assert_same_at(
        rt,
        &(number, most),
        found,
        (Some(over), HeapCounts::once(0, 0)),
    );
}

#[test]
fn summary_of_a_large_file_takes_what_its_walker_does(rt: HostRuntime) {
    for (number, row) in ROWS.iter().enumerate() {
        assert_row(&rt, rt.alloc(), number, row);
    }
}
