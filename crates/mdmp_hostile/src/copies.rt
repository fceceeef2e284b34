//! Copies of a file: of its value, and through views of it.

use crate::census::{Census, Counted, OUT_OF_MEMORY};
use crate::values::value_of;
use crate::windows::TwoWindows;
use mdmp_dump::{Dump, DumpView, FileView, ReadFault};
use mdmp_lister::{Choice, Limits};
use mdmp_source::{MemoryStore, Source, WriteOut};
use mdmp_writer::{WriteFault, write_dump};
use std::alloc::Global;

/// Compares the copy of a file's value with those through views, and with what is read of it again.
pub fn copy_file(
    alloc: Global,
    file: &[u8],
    windows: TwoWindows,
    value: Result<Dump<Global>, ReadFault>,
    census: &mut Census,
) {
    let one = view_copy(alloc, file, windows.one, census);
    let other = view_copy(alloc, file, windows.other, census);
    match (value, one, other) {
        (Ok(value), Ok(one), Ok(other)) => {
            let copy = written(alloc, &mut value.view(), census);
            census.agree(
                copy == one && copy == other,
                "a view is copied otherwise than its value",
            );
            census.count(Counted::Copies);
            census.add(Counted::CopyBytes, copy.len() as u64);
            read_again(alloc, &copy, windows, &value, census);
        },
        (Err(value), Err(one), Err(other)) => census.agree(
            value == one && value == other,
            "a view is refused otherwise than its value",
        ),
        _ => census.keep_trouble("one of a view and its value is refused"),
    }
}

/// Compares a value with what is read of its copy.
fn read_again(
    alloc: Global,
    copy: &[u8],
    windows: TwoWindows,
    value: &Dump<Global>,
    census: &mut Census,
) {
    match value_of(alloc, copy, windows.one) {
        Ok(again) => census.agree(again == *value, "a copy is read as another value"),
        Err(_) => census.keep_trouble("a copy is not read"),
    }
}

/// The copy through a view of a file, or why there is no view.
fn view_copy(
    alloc: Global,
    file: &[u8],
    limits: Limits,
    census: &mut Census,
) -> Result<Vec<u8>, ReadFault> {
    match open_view(alloc, file, limits) {
        Ok(mut view) => Ok(written(alloc, &mut view, census)),
        Err(fault) => Err(fault),
    }
}

/// A view of all entries of a file.
pub fn open_view<'a>(
    alloc: Global,
    file: &'a [u8],
    limits: Limits,
) -> Result<FileView<MemoryStore<'a>, Global>, ReadFault> {
    FileView::open(
        alloc,
        Source::new(MemoryStore::new(file)),
        limits,
        Choice::All,
    )
}

/// The bytes that are written of what a view gives.
fn written<V: DumpView>(alloc: Global, view: &mut V, census: &mut Census) -> Vec<u8> {
    let mut out = WriteOut::new(Vec::new(alloc));
    let answer = write(view, &mut out);
    let bytes = out.into_inner();
    match answer {
        Ok(size) => census.agree(
            bytes.len() as u64 == size,
            "a copy has another size than is told",
        ),
        Err(WriteFault::Out) => census.keep_trouble(OUT_OF_MEMORY),
        Err(WriteFault::Layout(_)) => census.keep_trouble("a dump of a file has no layout"),
        Err(WriteFault::View(_)) => census.keep_trouble("a view is at fault"),
    }
    bytes
}

/// Writes what a view gives, and gives how many bytes it has.
pub fn write<V: DumpView>(view: &mut V, out: &mut WriteOut<Vec<u8>>) -> Result<u64, WriteFault> {
    let mut buffer = [0; 512];
    write_dump(view, out, &mut buffer)
}
