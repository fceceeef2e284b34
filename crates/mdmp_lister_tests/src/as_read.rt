//! What `next_read` gives: the items of `next` as they were read, with their records and names.
use crate::given::{Named, SERVICE_PACK, plain_name};
use crate::opening::{close, opened};
use crate::same::{assert_same, assert_same_at};
use crate::script::{LEAST, NAMED};
use mdmp_lister::{Choice, ItemRead, ListFault, Lister};
use mdmp_source::MemoryStore;
use mdmp_test_support::{MEMORY64, SYSTEM};
use mdmp_wire::{AnyRecord, Descriptor64};
use std::alloc::Global;
use std::process::Abort;

/// Entry, index, record, offset of its bytes, and name; of an entry of the directory its number alone.
type RecordAsRead = (u32, u64, Option<AnyRecord>, u128, Named);

/// What the next call of a lister answers, as it was read.
fn next_of(
    rt: &impl Abort,
    alloc: Global,
    lister: &mut Lister<MemoryStore<'_>, Global>,
) -> Result<Option<RecordAsRead>, ListFault> {
    match lister.next_read() {
        Ok(Some(ItemRead::Stream(item))) => Ok(Some((item.entry, 0, None, 0, Named::None))),
        Ok(Some(ItemRead::Record(record, name))) => {
            let name = plain_name(rt, alloc, &name);
            let fields = Some(record.fields);
            Ok(Some((record.entry, record.index, fields, record.offset, name)))
        }
        Ok(None) => Ok(None),
        Err(fault) => Err(fault),
    }
}

/// A range of four bytes that begins here, whose bytes stand there.
macro_rules! range {
    ($index:expr, $start:expr, $offset:expr) => {
        Ok(Some((
            0,
            $index,
            Some(AnyRecord::Memory64(Descriptor64 {
                start_of_memory_range: $start,
                data_size: 4,
            })),
            $offset,
            Named::None,
        )))
    };
}

/// What is read of two 64-bit ranges: their records, and where their bytes stand.
static RANGES: [Result<Option<RecordAsRead>, ListFault>; 4] = [
    Ok(Some((0, 0, None, 0, Named::None))),
    range!(0, 0x1000, 92),
    range!(1, 0x2000, 96),
    Ok(None),
];

#[test]
fn next_read_gives_ranges_as_they_were_read(rt: HostRuntime) {
    let store = MemoryStore::new(&MEMORY64);
    let mut lister = opened(&rt, rt.alloc(), store, LEAST, Choice::All);
    for i in 0..4 {
        let found = next_of(&rt, rt.alloc(), &mut lister);
        assert_same_at(&rt, &i, found, RANGES[i]);
    }
    close(lister);
}

#[test]
fn next_read_lends_the_name_of_a_record(rt: HostRuntime) {
    let store = MemoryStore::new(&SYSTEM);
    let mut lister = opened(&rt, rt.alloc(), store, NAMED, Choice::All);
    assert_same(&rt, next_of(&rt, rt.alloc(), &mut lister).is_ok(), true);
    let told = match next_of(&rt, rt.alloc(), &mut lister) {
        Ok(Some((_, _, Some(AnyRecord::System(system)), _, name))) => {
            Some((system.build_number, name))
        }
        _ => None,
    };
    assert_same(&rt, told, Some((0x1db1, SERVICE_PACK)));
    close(lister);
}
