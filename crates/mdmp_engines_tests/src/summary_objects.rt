//! The object that a summary prints in the form of JSON.
use crate::commands::{CallWay, CommandRun, Task};
use crate::files::{File, bytes_of};
use crate::prints::{PrintRow, assert_rows};
use crate::runs::{USUAL, assert_wrote, run_bytes, run_within};
use crate::texts::{CRASH_OBJECT, NAMED, NAMED_OBJECT};
use mdmp_engines::LineForm;
use mdmp_test_support::{CODEVIEW_RECORD, CRASH, Room};
use std::alloc::Global;
use std::process::Abort;

/// The summary of a file, as an object.
pub const OBJECT: Task<'static> = Task::Summary(LineForm::Json);

/// The object of the module of `CODEVIEW_RECORD`.
const MODULE_OBJECT: &str =
    "{\"line\":\"summary\",\"file\":\"a.dmp\",\"status\":\"OK\",\"time\":0,\"system_info\":null,\"sys\
tem\":null,\"crash\":null,\"program\":{\"name\":null,\"file\":null,\"version\":\"0.0.0.0\"},\"co\
unts\":{\"streams\":\"1\",\"threads\":\"0\",\"modules\":\"1\",\"exceptions\":\"0\",\"ranges\":\"\
0\",\"memory\":\"0\"},\"bad_entries\":0,\"first_error\":null,\"parts_outside\":0,\"first_outside\
\":null,\"main_module\":0,\"modules\":[{\"filename\":null,\"base_addr\":\"0x0000000000000000\",\
\"end_addr\":\"0x0000000000000000\",\"version\":\"0.0.0.0\",\"code_id\":null,\"debug_file\":\"a.\
pdb\",\"debug_id\":\"00112233445566778899AABBCCDDEEFF1\"}],\"threads\":[],\"crash_info\":null}\n";

/// The same with two bytes of the name of its symbol file.
const CUT_OBJECT: &str =
    "{\"line\":\"summary\",\"file\":\"a.dmp\",\"status\":\"OK\",\"time\":0,\"system_info\":null,\"sys\
tem\":null,\"crash\":null,\"program\":{\"name\":null,\"file\":null,\"version\":\"0.0.0.0\"},\"co\
unts\":{\"streams\":\"1\",\"threads\":\"0\",\"modules\":\"1\",\"exceptions\":\"0\",\"ranges\":\"\
0\",\"memory\":\"0\"},\"bad_entries\":0,\"first_error\":null,\"parts_outside\":0,\"first_outside\
\":null,\"main_module\":0,\"modules\":[{\"filename\":null,\"base_addr\":\"0x0000000000000000\",\
\"end_addr\":\"0x0000000000000000\",\"version\":\"0.0.0.0\",\"code_id\":null,\"debug_file\":\"a.\",\"debug_id\":\"00112233445566778899AABBCCDDEEFF1\"}],\"threads\":[],\"crash_info\":null}\n";

/// The object of a module, over a source.
const OF_MODULE: PrintRow<'static> = PrintRow {
    file: File::Module(30, CODEVIEW_RECORD),
    task: OBJECT,
    way: CallWay::Source,
    within: USUAL,
    answer: Ok(0),
    text: MODULE_OBJECT,
    fetched: None,
};

/// That of a crash.
const OF_CRASH: PrintRow<'static> = PrintRow {
    file: File::Numbers(2, &CRASH),
    text: CRASH_OBJECT,
    ..OF_MODULE
};

/// That of a file with names.
const OF_NAMED: PrintRow<'static> = PrintRow {
    file: File::Numbers(1, &NAMED),
    text: NAMED_OBJECT,
    ..OF_MODULE
};

static OBJECTS: [PrintRow<'static>; 7] = [
    OF_NAMED,
    // A name limit above the size of the file gives the same object.
    PrintRow {
        way: CallWay::Blocks(1031),
        within: (65536, 1000, None, None, None),
        ..OF_NAMED
    },
    PrintRow {
        way: CallWay::Blocks(4096),
        within: (168, 28, None, None, None),
        ..OF_CRASH
    },
    OF_CRASH,
    OF_MODULE,
    // What is read aside is 24 bytes of the record, and as many of the name as the limit still allows.
    PrintRow {
        within: (168, 28, None, None, Some(26)),
        text: CUT_OBJECT,
        ..OF_MODULE
    },
    PrintRow {
        within: (168, 28, None, None, Some(30)),
        ..OF_MODULE
    },
];

#[test]
fn objects_succeed_in_each_way(rt: HostRuntime) {
    assert_rows(&rt, rt.alloc(), &OBJECTS);
}

/// Asserts that an object that fits a block reaches its output by one call.
fn assert_one_write(rt: &impl Abort, alloc: Global) {
    let room = Room {
        all: 4000,
        call: 4000,
    };
    let run = run_within(OBJECT, CallWay::Blocks(4096), USUAL);
    let out_fail_at = Some(1);
    let bytes = bytes_of(rt, alloc, &File::Numbers(1, &NAMED));
    let outcome = run_bytes(
        rt,
        alloc,
        &bytes,
        &CommandRun {
            room,
            out_fail_at,
            ..run
        },
    );
    assert_wrote(rt, &1, &outcome, Ok(0), NAMED_OBJECT.as_bytes());
}

#[test]
fn object_is_one_write(rt: HostRuntime) {
    assert_one_write(&rt, rt.alloc());
}
