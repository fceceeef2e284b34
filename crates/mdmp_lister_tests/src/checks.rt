//! The verdicts on the entries of a file.
use crate::files::{FileOf, file_of};
use crate::given::stream;
use crate::opening::{FAULTY_NAME, FAULTY_STREAM, chosen, close, opened, store_fault};
use crate::playing::assert_scripts;
use crate::same::assert_same_at;
use crate::script::{BY_LEAST, BY_STANDARD, Call, LEAST, Script};
use mdmp_lister::{RunFault, Stopped, Verdict, VerdictSink};
use mdmp_source::MemoryStore;
use mdmp_test_support::{FAULTY, OVERLAPPING, THRICE};
use std::alloc::Global;
use std::process::Abort;

/// Keeps the first four verdicts.
#[derive(Drop)]
struct KeptVerdicts {
    verdicts: [Option<Verdict>; 4],
    calls: usize,
}

impl VerdictSink for KeptVerdicts {
    ghost step = { λ _ _ _ _. Unit {0} };

    fn take(&mut self, verdict: &Verdict) -> Result<(), Stopped> {
        if self.calls < 4 {
            self.verdicts[self.calls] = Some(*verdict);
            self.calls += 1;
        }
        Ok(())
    }
}

/// How a check ended, and its first verdicts.
type Checked = (Option<RunFault>, [Option<Verdict>; 4]);

/// The verdicts on the entries of these types in `FAULTY`, and how their check ends.
fn checked_of(rt: &impl Abort, alloc: Global, types: &[u32]) -> Checked {
    let file = file_of(rt, alloc, 3, &FAULTY);
    let store = MemoryStore::new(&file);
    let mut lister = opened(rt, alloc, store, LEAST, chosen(rt, types));
    let mut sink = KeptVerdicts {
        verdicts: [None; 4],
        calls: 0,
    };
    assert!(rt; lister.is_fresh());
    let fault = lister.check_into(&mut sink).err();
    close(lister);
    (fault, sink.verdicts)
}

/// The verdict on an entry.
macro_rules! told {
    ($entry:expr, $fault:expr) => {
        Some(Verdict {
            entry: $entry,
            fault: $fault,
        })
    };
}

/// What is checked, by which types, and the verdicts.
struct CheckedTypes {
    shows: &'static str,
    types: &'static [u32],
    verdicts: [Option<Verdict>; 4],
}

static CHECKS: [CheckedTypes; 2] = [
    CheckedTypes {
        shows: "a check goes on behind a bad entry: one with a fault in a name, and one outside",
        types: &[],
        verdicts: [
            told!(0, None),
            told!(1, Some(FAULTY_NAME)),
            told!(2, Some(FAULTY_STREAM)),
            None,
        ],
    },
    CheckedTypes {
        shows: "entries that are not chosen have no verdict",
        types: &[10, 7],
        verdicts: [told!(0, None), told!(2, Some(FAULTY_STREAM)), None, None],
    },
];

#[test]
fn check_has_a_verdict_on_each_chosen_entry(rt: HostRuntime) {
    for row in &CHECKS {
        let found = checked_of(&rt, rt.alloc(), row.types);
        assert_same_at(&rt, &row.shows, found, (None, row.verdicts));
    }
}

/// What is answered where this call of a store, of a byte of the second list, ends the check for good.
macro_rules! check_ends {
    ($fail_at:expr, $offset:expr) => {
        Script {
            shows: "a check ends where the store fails",
            file: FileOf::Numbers(3, &THRICE),
            caps: &[1],
            fail_at: Some($fail_at),
            calls: &[
                Call::Checks(u64::MAX, Some(RunFault::At(store_fault!(1, $offset))), 1),
                Call::Fails(store_fault!(1, $offset)),
                Call::Skips,
                Call::Fails(store_fault!(1, $offset)),
            ],
            ..BY_STANDARD
        }
    };
}

static SCRIPTS: [Script<'static>; 6] = [
    Script {
        shows: "a check that is stopped leaves the entries behind it",
        file: FileOf::Numbers(3, &FAULTY),
        calls: &[
            Call::Checks(1, Some(RunFault::Stopped), 2),
            Call::HasBegun,
            Call::Gives(stream!(2, 10, 5, 236)),
        ],
        ..BY_STANDARD
    },
    Script {
        shows: "a check that is stopped at the last verdict leaves none",
        file: FileOf::Numbers(3, &THRICE),
        calls: &[Call::Checks(2, Some(RunFault::Stopped), 3), Call::Ends],
        ..BY_STANDARD
    },
    Script {
        shows: "an empty directory has no verdicts",
        file: FileOf::Numbers(0, &[]),
        calls: &[Call::Checks(0, None, 0), Call::Ends, Call::HasBegun],
        ..BY_LEAST
    },
    // One byte a call: 68 calls are of the header and the directory, 52 of each list. The head of
    // the second is read by call 120, the last byte of its thread by call 171.
    check_ends!(120, 68),
    check_ends!(171, 119),
    Script {
        shows: "the ranges of a file that was checked are mapped",
        file: FileOf::Numbers(1, &OVERLAPPING),
        calls: &[
            Call::HasRoom(0, 2),
            Call::Checks(u64::MAX, None, 1),
            Call::HasRoom(2, 0),
            Call::Finds(0x1000, 80, 4),
            Call::Finds(0x1004, 86, 2),
            Call::Ends,
        ],
        ..BY_LEAST
    },
];

#[test]
fn check_ends_where_its_sink_or_the_store_does(rt: HostRuntime) {
    assert_scripts(&rt, rt.alloc(), &SCRIPTS);
}
