//! Summaries of the first parts of a file.
use crate::files::{LINUX, crash_file};
use crate::same::assert_same_at;
use crate::summing::summary_in;
use mdmp_lister::FaultKind;
use mdmp_wire::PartName;

/// How many entries are bad, the first of them, how many parts are outside, and the first of them.
type Lost = (u64, Option<(u32, FaultKind)>, u128, Option<(u32, PartName)>);

/// The first entry, which is bad however long the file is.
const OUTSIDE: Option<(u32, FaultKind)> = Some((0, FaultKind::StreamOutside));

/// The second exception, whose context is cut.
const CONTEXT: Option<(u32, PartName)> = Some((2, PartName::Context));

/// How many bytes a file has, and what is lost.
static LENGTHS: [(usize, Lost); 6] = [
    (868, (1, OUTSIDE, 0, None)),
    (867, (1, OUTSIDE, 1, CONTEXT)),
    (596, (1, OUTSIDE, 1, CONTEXT)),
    (595, (2, OUTSIDE, 1, CONTEXT)),
    (427, (4, OUTSIDE, 0, None)),
    (92, (5, OUTSIDE, 0, None)),
];

#[test]
fn cut_file_tells_what_is_lost(rt: HostRuntime) {
    let file = crash_file(&rt, rt.alloc(), &LINUX);
    for (len, expected) in &LENGTHS {
        let first = file.get(..*len).expect(&rt, "a first part");
        let summary = summary_in(&rt, rt.alloc(), first);
        let bad = match summary.bad.first {
            Some(fault) => Some((fault.entry, fault.kind)),
            None => None,
        };
        let part = match summary.outside.first {
            Some(part) => Some((part.entry, part.part)),
            None => None,
        };
        let lost = (summary.bad.count, bad, summary.outside.count, part);
        assert_same_at(&rt, len, lost, *expected);
    }
}
