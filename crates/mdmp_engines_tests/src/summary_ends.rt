//! How the end of a summary is reported: its status, and the line of an error, which names the file.
use crate::runs::{bytes_in, out_of};
use crate::same::assert_same_at;
use mdmp_engines::{OpenFault, ToolFault, report_summary};
use mdmp_test_support::Room;

/// What a summary of the file `a.dmp` answers, the status, and what is told of it.
type SummaryEndRow<'a> = (Result<u64, ToolFault>, u8, &'a str);

static ENDS: [SummaryEndRow<'static>; 4] = [
    (Ok(0), 0, ""),
    (Ok(2), 1, ""),
    (
        Err(ToolFault::Opening(OpenFault::BadSignature)),
        1,
        "mdmp: a.dmp: bad signature\n",
    ),
    (Err(ToolFault::Memory), 3, "mdmp: a.dmp: out of memory\n"),
];

#[test]
fn output_has_the_first_bytes_of_a_summary_end(rt: HostRuntime) {
    for (answer, code, line) in &ENDS {
        // To an output that takes so many bytes.
        for room in 0..line.len() + 1 {
            let mut out = out_of(
                &rt,
                rt.alloc(),
                Room {
                    all: room,
                    call: 1000,
                },
                None,
            );
            let status = report_summary(*answer, b"a.dmp", &mut out);
            assert_same_at(&rt, line, status, *code);
            let bytes = bytes_in(&rt, rt.alloc(), &out);
            let is_start = line.as_bytes().starts_with(&bytes);
            assert_same_at(&rt, line, (is_start, bytes.len()), (true, room));
        }
    }
}
