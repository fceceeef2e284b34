//! What is read of the dumped process's memory.
ghost use Rattle.std.specs.Prelude.{◌≡◌, ◌≤◌, ◌<◌, ◌+◌, ◌*◌, length};
ghost use Rattle.mdmp_map.specs.Ranges.{AreSorted};

use crate::files::{FileOf, made};
use crate::given::{range, sixteen, stream};
use crate::opening::{close, counts_of, fetched_by, list_all, opened};
use crate::playing::{assert_scripts, bits_of};
use crate::same::{assert_same, assert_same_at};
use crate::script::{BY_LEAST, Call, STANDARD, Script};
use mdmp_lister::{Choice, Lister};
use mdmp_map::Steps;
use mdmp_source::{Extent, MemoryStore, SourceFault, Store};
use mdmp_test_support::{MEMORY64, OVERLAPPING};
use std::alloc::Global;
use std::marker::Brand;
use std::process::Abort;
use std::sync::ledger::{Blank, Ledger};

/// Three sorted ranges, of which the second begins where the first one ends: ABCD, EFGH, IJ.
const TOUCHING: FileOf = FileOf::Numbers(
    1,
    &[
        5, 52, 44, 3, 0x1000, 0, 4, 96, 0x1004, 0, 4, 100, 0x100c, 0, 2, 104,
        // and then their bytes
        0x44434241, 0x48474645, 0x4a49,
    ],
);

/// The ranges of `OVERLAPPING`, exchanged.
const EXCHANGED: FileOf = FileOf::Numbers(
    1,
    &[
        5, 36, 44, 2, 0x1002, 0, 4, 84, 0x1000, 0, 4, 80, 0x44434241, 0x7a797877,
    ],
);

/// A range about an earlier one, ABCDEF about cd, and a third that has no address of its own.
const AROUND: FileOf = FileOf::Numbers(
    1,
    &[
        5, 52, 44, 3, 0x1002, 0, 2, 96, 0x1000, 0, 6, 98, 0x1001, 0, 4, 96, 0x42416463, 0x46454443,
    ],
);

/// Two ranges that overlap.
const TWO: FileOf = FileOf::Numbers(1, &OVERLAPPING);

/// What a lister answers while a read of four bytes of the first range fails: calls 4 to 7 give one byte each.
macro_rules! read_fails {
    ($fail_at:expr, $at:expr) => {
        Script {
            shows: "a fault of the store in a read changes no item",
            file: TWO,
            caps: &[4096, 4096, 4096, 4096, 1, 1, 1, 1],
            fail_at: Some($fail_at),
            calls: &[
                Call::Gives(stream!(0, 5, 36, 44)),
                Call::Gives(range!(0, 0x1000, 4, Extent::Inside, 80)),
                Call::ReadFails(0x1000, 4, SourceFault::Failed { at: $at }),
                Call::HasRoom(1, 1),
                Call::Gives(range!(1, 0x1002, 4, Extent::Inside, 84)),
                Call::Reads(0x1002, b"CDyz", 0b1111),
                Call::Ends,
                Call::HasRoom(2, 0),
            ],
            ..BY_LEAST
        }
    };
}

static READ_BETWEEN: [Script<'static>; 8] = [
    Script {
        shows: "nothing is known before a range is given",
        file: TWO,
        calls: &[
            Call::Reads(0x1000, &[0; 2], 0),
            Call::Gives(stream!(0, 5, 36, 44)),
            Call::Reads(0x1000, &[0; 2], 0),
            Call::Gives(range!(0, 0x1000, 4, Extent::Inside, 80)),
            Call::Reads(0x1003, b"D\0", 0b01),
            Call::Gives(range!(1, 0x1002, 4, Extent::Inside, 84)),
            Call::Reads(0x1003, b"Dy", 0b11),
            Call::Reads(0x1003, b"", 0),
        ],
        ..BY_LEAST
    },
    Script {
        shows: "the range that was given first decides",
        file: TWO,
        calls: &[
            Call::Runs(u64::MAX, None, 3),
            Call::Reads(0xfff, b"\0ABCDyz\0", 0b0111_1110),
        ],
        ..BY_LEAST
    },
    Script {
        shows: "the range that was given first decides, where the other one was",
        file: EXCHANGED,
        calls: &[
            Call::Runs(u64::MAX, None, 3),
            Call::Reads(0xfff, b"\0ABwxyz\0", 0b0111_1110),
        ],
        ..BY_LEAST
    },
    Script {
        // The file has two bytes where the second range should stand.
        shows: "a range outside the file is not known",
        file: FileOf::Bytes(&MEMORY64),
        calls: &[
            Call::Runs(u64::MAX, None, 3),
            Call::Reads(0x1000, b"ABCD", 0b1111),
            Call::Reads(0x2000, &[0; 2], 0),
        ],
        ..BY_LEAST
    },
    Script {
        shows: "addresses do not wrap: of a range of 16 bytes eight have one",
        file: FileOf::Numbers(
            1,
            &[
                5, 20, 44, 1, 0xfffffff8, 0xffffffff, 16, 64, // and then ABCDEFGHIJKLMNOP
                0x44434241, 0x48474645, 0x4c4b4a49, 0x504f4e4d,
            ],
        ),
        calls: &[
            Call::Runs(u64::MAX, None, 2),
            Call::HasRoom(1, 0),
            Call::Reads(0xfffffffffffffff8, b"ABCDEFGH\0", 0b0_1111_1111),
            Call::Reads(u64::MAX, b"H\0", 0b01),
            Call::Reads(0, &[0; 8], 0),
        ],
        ..BY_LEAST
    },
    // Header, entry and count are read by calls 0 to 2, and the stream by call 3.
    read_fails!(4, 80),
    read_fails!(5, 81),
    read_fails!(7, 83),
];

#[test]
fn memory_is_read_between_items(rt: HostRuntime) {
    assert_scripts(&rt, rt.alloc(), &READ_BETWEEN);
}

/// Memory that was read once all items were given, which of its bytes are known, and by how many
/// fetches.
type Read<const N: usize> = ([u8; N], [bool; N], u128);

/// A lister that has given all items of a file.
fn listed<'a>(rt: &impl Abort, alloc: Global, file: &'a [u8]) -> Lister<MemoryStore<'a>, Global> {
    let mut lister = opened(rt, alloc, MemoryStore::new(file), STANDARD, Choice::All);
    let _ = list_all(&mut lister);
    lister
}

/// Reads memory at an address of a file.
fn read<const N: usize>(rt: &impl Abort, alloc: Global, file: &[u8], address: u64) -> Read<N> {
    let mut lister = listed(rt, alloc, file);
    let before = counts_of(&lister).calls;
    let mut out = [0xee; N];
    let mut known = [address % 2 == 0; N];
    let read = lister.read_address(address, &mut out, &mut known);
    read.expect(rt, "memory that is read");
    let (_, calls) = fetched_by(lister);
    (out, known, calls.saturating_sub(before))
}

/// A file and an address; the bytes that are read, a bit for each known one from the lowest on, and the number of fetches.
type MemoryRead = (FileOf, u64, &'static [u8], u16, u128);

static READS: [MemoryRead; 13] = [
    // Each stretch of bytes is one fetch.
    (TWO, 0xfff, b"\0ABCDyz\0", 0b0111_1110, 2),
    (TWO, 0x1002, b"CDyz", 0b1111, 2),
    (TWO, 0x1004, b"yz\0", 0b011, 1),
    // Touching ranges are a fetch each, and a gap is none.
    (
        TOUCHING,
        0xfff,
        b"\0ABCDEFGH\0\0\0\0IJ\0",
        0b0110_0001_1111_1110,
        3,
    ),
    (TOUCHING, 0x1006, b"GH\0\0\0\0I", 0b100_0011, 2),
    // A range about an earlier one is a fetch on either side.
    (AROUND, 0xfff, b"\0ABcdEF\0", 0b0111_1110, 3),
    (AROUND, 0x1003, b"dE", 0b11, 2),
    (AROUND, 0x1004, b"EF\0", 0b011, 1),
    // What no range holds is not fetched.
    (TWO, 0, &[0; 16], 0, 0),
    (TWO, 0xff0, &[0; 16], 0, 0),
    (TWO, 0x1006, &[0; 16], 0, 0),
    (TWO, u64::MAX - 2, &[0; 16], 0, 0),
    (TWO, u64::MAX, &[0; 16], 0, 0),
];

/// Reads so many bytes of memory at an address of a file, at most sixteen.
fn read_at(
    rt: &impl Abort,
    alloc: Global,
    file: &[u8],
    address: u64,
    len: usize,
) -> ([u8; 16], u16, u128) {
    let mut lister = listed(rt, alloc, file);
    let before = counts_of(&lister).calls;
    let len = len.min(16);
    let mut out = [0; 16];
    let mut known = [false; 16];
    out[..len].fill(0xee);
    known[..len].fill(address % 2 == 0);
    let read = lister.read_address(address, &mut out[..len], &mut known[..len]);
    read.expect(rt, "memory that is read");
    let (_, calls) = fetched_by(lister);
    (out, bits_of(&known), calls.saturating_sub(before))
}

#[test]
fn each_stretch_of_bytes_is_one_fetch(rt: HostRuntime) {
    for (file, address, bytes, known, fetches) in &READS {
        let file = made(&rt, rt.alloc(), file);
        let found = read_at(&rt, rt.alloc(), &file, *address, bytes.len());
        assert_same_at(&rt, address, found, (sixteen(bytes), *known, *fetches));
    }
}

/// Reads memory by three sorted ranges, at most two of which are looked at for each byte.
fn read_among_three<S: Store + Drop, G: Ledger>(
    lister: &mut Lister<S, Global>,
    address: u64,
    out: &mut [u8],
    known: &mut [bool],
    steps: &mut Steps<G>,
) -> Result<(), SourceFault>
    requires same { length out.old ≡ length known.old }
    requires three { length lister.old.ranges ≡ 3 }
    requires sorted { AreSorted lister.old.ranges }
    ensures { steps.new ≤ steps.old + 2 * length out.new }
{
    lister.read_address_counted(address, out, known, steps)
}

/// The same under a ledger that nothing reads.
fn read_under<S: Store + Drop, G: Ledger>(
    lister: &mut Lister<S, Global>,
    address: u64,
    out: &mut [u8],
    known: &mut [bool],
    blank: Blank,
) -> Result<(), SourceFault>
    requires same { length out.old ≡ length known.old }
    requires three { length lister.old.ranges ≡ 3 }
    requires sorted { AreSorted lister.old.ranges }
    requires name { blank.name ≡ G.name }
    requires parts { blank.parts ≡ G.parts }
    requires some { 0 < blank.parts }
{
    read_among_three(lister, address, out, known, &mut Steps::<G>::new(blank))
}

/// Reads memory at an address by a lister that has to have three ranges, sorted.
fn read_counted<S: Store + Drop, const N: usize>(
    rt: &impl Abort,
    lister: &mut Lister<S, Global>,
    address: u64,
) -> Result<([u8; N], [bool; N]), SourceFault> {
    assert!(rt; lister.map().len() == 3);
    assert!(rt; lister.map().is_sorted());
    let mut out = [0xee; N];
    let mut known = [address % 2 == 0; N];
    read_under::<S, Brand>(lister, address, &mut out, &mut known, Blank::new(1))?;
    Ok((out, known))
}

/// Four bytes at addresses of `TOUCHING`, and which of them are known.
static COUNTED: [(u64, [u8; 4], [bool; 4]); 3] = [
    (0xfff, *b"\0ABC", [false, true, true, true]),
    (0x1003, *b"DEFG", [true; 4]),
    (0x100b, *b"\0IJ\0", [false, true, true, false]),
];

#[test]
fn counted_read_is_the_same(rt: HostRuntime) {
    let file = made(&rt, rt.alloc(), &TOUCHING);
    let mut lister = listed(&rt, rt.alloc(), &file);
    for (address, bytes, known) in &COUNTED {
        let found = read_counted(&rt, &mut lister, *address);
        assert_same_at(&rt, address, found, Ok((*bytes, *known)));
    }
    close(lister);
}

/// Two ranges, of which the second lies lower: ABCD about the end of a block, and wxyz at its start.
const APART: FileOf = FileOf::Numbers(
    1,
    &[
        5, 36, 44, 2, 0x8ffe, 0, 4, 80, 0x1000, 0, 4, 84, 0x44434241, 0x7a797877,
    ],
);

/// What is read of them in two blocks: the first range is cut where a block ends.
fn read_apart() -> Read<32772> {
    let mut out = [0; 32772];
    let mut known = [false; 32772];
    out[..4].copy_from_slice(b"wxyz");
    known[..4].fill(true);
    out[0x7ffe..0x8002].copy_from_slice(b"ABCD");
    known[0x7ffe..0x8002].fill(true);
    (out, known, 3)
}

#[test]
fn unsorted_ranges_are_read_by_blocks(rt: HostRuntime) {
    let file = made(&rt, rt.alloc(), &APART);
    assert_same(&rt, read(&rt, rt.alloc(), &file, 0x1000), read_apart());
}

/// The head of a range of 4096 bytes.
const LONG: FileOf = FileOf::Numbers(1, &[5, 20, 44, 1, 0x1000, 0, 4096, 64]);

#[test]
fn long_range_is_one_fetch(rt: HostRuntime) {
    let mut file = made(&rt, rt.alloc(), &LONG);
    file.resize(64 + 4096, b'm').expect(&rt, "memory");
    let whole = ([b'm'; 4096], [true; 4096], 1);
    assert_same(&rt, read(&rt, rt.alloc(), &file, 0x1000), whole);
}
