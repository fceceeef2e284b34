//! The CodeView record of a module, read beside the listing.
use crate::files::file_of;
use crate::given::{Text, sixteen};
use crate::opening::{close, counts_of, limits_of, opened, patchy};
use crate::same::{assert_same, assert_same_at};
use crate::script::STANDARD;
use mdmp_lister::{Choice, Lister};
use mdmp_source::{Location, MemoryStore, SourceFault, Store, inside};
use mdmp_test_support::{CODEVIEW_RECORD, module_file};
use mdmp_wire::CodeView;
use std::alloc::{Allocator, Global};
use std::process::Abort;

/// A symbol file: its identity, its age, its name, and whether a zero byte ends that.
pub type SymbolFile = ([u8; 16], u32, Text, bool);

/// Another record: its signature, where it has one, and its size.
pub type OtherRecord = (Option<[u8; 4]>, u32);

/// What a record tells.
pub type RecordTold = Result<SymbolFile, OtherRecord>;

/// The same as a plain value.
fn plain(record: CodeView<'_>) -> RecordTold {
    match record {
        CodeView::Rsds {
            guid,
            age,
            name,
            ended,
        } => {
            let text = Text {
                len: name.len(),
                bytes: sixteen(name),
            };
            Ok((guid.into_bytes(), age, text, ended))
        }
        CodeView::Other { signature, size } => Err((Some(signature), size)),
        CodeView::Short { size } => Err((None, size)),
    }
}

/// What a record of the file tells, or the fault of the store; none where it does not lie inside the file.
pub fn told_at<S: Store + Drop, A: Allocator + Copy>(
    lister: &mut Lister<S, A>,
    at: Location,
) -> Option<Result<RecordTold, SourceFault>> {
    if !inside(u64::from(at.rva), u64::from(at.size), lister.size()) {
        return None;
    }
    match lister.codeview(at) {
        Ok(bytes) => Some(Ok(plain(bytes.read()))),
        Err(fault) => Some(Err(fault)),
    }
}

/// What the first `size` bytes of a record tell, whose first four are this number, where names have at most
/// `name` bytes; and how many bytes are fetched for it.
fn told_of(
    rt: &impl Abort,
    alloc: Global,
    signature: u32,
    size: u32,
    name: u32,
) -> (Option<Result<RecordTold, SourceFault>>, u128) {
    // An identity, an age of 1, and `a.pdb` with its zero byte.
    let numbers = [
        signature, 0x00112233, 0x66774455, 0xbbaa9988, 0xffeeddcc, 1, 0x64702e61, 0x00000062,
    ];
    let file = file_of(rt, alloc, 0, &numbers);
    let limits = limits_of(rt, 168, name);
    let mut lister = opened(rt, alloc, MemoryStore::new(&file), limits, Choice::All);
    let told = told_at(&mut lister, Location { size, rva: 32 });
    let fetched = counts_of(&lister).aside;
    close(lister);
    (told, fetched)
}

/// The signature of a record, its size, and the most bytes of a name; what it tells, and how many bytes are
/// fetched.
type ToldRow = (u32, u32, u32, RecordTold, u128);

/// A symbol file whose name has so many bytes, and whether a zero byte ends it.
macro_rules! symbol_file {
    ($size:expr, $limit:expr, $len:expr, $name:expr, $ended:expr, $fetched:expr) => {
        (
            0x53445352,
            $size,
            $limit,
            Ok((
                *b"\x00\x11\x22\x33\x44\x55\x66\x77\x88\x99\xaa\xbb\xcc\xdd\xee\xff",
                1,
                Text {
                    len: $len,
                    bytes: $name,
                },
                $ended,
            )),
            $fetched,
        )
    };
}

static TOLD: [ToldRow; 6] = [
    // A symbol file is named up to the limit.
    symbol_file!(30, 4096, 5, *b"a.pdb\0\0\0\0\0\0\0\0\0\0\0", true, 30),
    symbol_file!(30, 3, 3, *b"a.p\0\0\0\0\0\0\0\0\0\0\0\0\0", false, 27),
    symbol_file!(30, 0, 0, [0; 16], false, 24),
    symbol_file!(24, 4096, 0, [0; 16], false, 24),
    // Short and other records name none.
    (0x53445352, 23, 4096, Err((None, 23)), 23),
    (0x5344534e, 30, 4096, Err((Some(*b"NSDS"), 30)), 24),
];

#[test]
fn symbol_file_is_named_up_to_the_limit_and_other_records_name_none(rt: HostRuntime) {
    for (signature, size, name, told, fetched) in &TOLD {
        let found = told_of(&rt, rt.alloc(), *signature, *size, *name);
        assert_same_at(&rt, &(*size, *name), found, (Some(Ok(*told)), *fetched));
    }
}

/// What a record tells of its symbol file in a store: a fault of the store, or the size of the name.
type NameTold = Option<Result<usize, SourceFault>>;

/// That of the record of 30 bytes at 156.
fn named_in<S: Store + Drop, A: Allocator + Copy>(lister: &mut Lister<S, A>) -> NameTold {
    match told_at(lister, Location { size: 30, rva: 156 }) {
        Some(Ok(Ok((_, _, Text { len, .. }, _)))) => Some(Ok(len)),
        Some(Err(fault)) => Some(Err(fault)),
        _ => None,
    }
}

/// What is told of that record in a store that gives one byte a call and fails at this one, first and then once
/// more.
fn told_twice(rt: &impl Abort, alloc: Global, fail_at: u64) -> [NameTold; 2] {
    let file = module_file(alloc, 30, CODEVIEW_RECORD).expect(rt, "memory");
    let store = patchy(rt, &file, &[1], Some(fail_at));
    let mut lister = opened(rt, alloc, store, STANDARD, Choice::All);
    let first = named_in(&mut lister);
    let second = named_in(&mut lister);
    close(lister);
    [first, second]
}

#[test]
fn each_call_of_a_record_may_fail(rt: HostRuntime) {
    // 44 calls open the file; 24 are of the head, and six of the name.
    for call in 0..30 {
        let failed = Some(Err(SourceFault::Failed { at: 156 + call }));
        let told = told_twice(&rt, rt.alloc(), 44 + call);
        assert_same_at(&rt, &call, told, [failed, Some(Ok(5))]);
    }
    // The call behind them is of the record that is read then.
    let failed = Some(Err(SourceFault::Failed { at: 156 }));
    let told = told_twice(&rt, rt.alloc(), 74);
    assert_same(&rt, told, [Some(Ok(5)), failed]);
}
