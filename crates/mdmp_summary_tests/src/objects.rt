//! The objects of summaries.
use crate::files::LINUX;
use crate::given::{
    CPAD, EXE, GivenName, STACK_OUTSIDE, name, names, summary_of, summary_of_write,
};
use crate::same::assert_same_at;
use mdmp_lister::{CodeViewBytes, ModuleItem, Name};
use mdmp_print::Printer;
use mdmp_source::{Extent, OutFailed, PatchyOut};
use mdmp_summary::{FileSummary, Registers};
use mdmp_summary_lines::{
    SummaryNames, print_module_front, print_module_ids, print_summary_end, print_summary_head,
    print_thread_object, print_threads_front,
};
use mdmp_wire::ModuleRecord;
use std::alloc::Global;
use std::process::Abort;

/// What is printed of a module.
#[derive(Clone, Copy)]
struct GivenModule<'a> {
    name: GivenName,
    fields: ModuleRecord,
    codeview: Option<CodeViewBytes<'a>>,
}

/// The program of a summary, with this CodeView record.
fn program_of<'a>(
    rt: &impl Abort,
    summary: &FileSummary,
    codeview: CodeViewBytes<'a>,
) -> GivenModule<'a> {
    GivenModule {
        name: GivenName::Units(CPAD),
        fields: summary.program.expect(rt, "a program"),
        codeview: Some(codeview),
    }
}

/// Prints the objects of some modules.
fn print_modules<O: Printer>(modules: &[GivenModule<'_>], out: &mut O) -> Result<(), OutFailed> {
    let mut is_first = true;
    for module in modules {
        let item = ModuleItem {
            entry: 0,
            index: 0,
            fields: module.fields,
            codeview: Extent::Empty,
            misc: Extent::Empty,
            name: name(module.name),
        };
        print_module_front(is_first, &item, out)?;
        print_module_ids(&item.fields, module.codeview, out)?;
        is_first = false;
    }
    Ok(())
}

/// Prints the object of a summary with two threads, of which the first crashed.
fn print_object<O: Printer>(
    file: &[u8],
    summary: &FileSummary,
    names: &SummaryNames<'_>,
    modules: &[GivenModule<'_>],
    out: &mut O,
) -> Result<(), OutFailed> {
    let mut registers = None;
    let mut index = None;
    if let Some(crash) = summary.crash {
        registers = crash.registers;
        index = Some(0);
    }
    print_summary_head(file, summary, names, out)?;
    print_modules(modules, out)?;
    print_threads_front(out)?;
    print_thread_object(true, 7, &names.thread, registers, out)?;
    print_thread_object(false, u32::MAX, &Name::None, None, out)?;
    print_summary_end(&summary.crash, &summary.system, index, out)
}

/// Asserts that the object of a summary is printed so.
fn assert_object(
    rt: &impl Abort,
    alloc: Global,
    file: &[u8],
    summary: &FileSummary,
    names: &SummaryNames<'_>,
    modules: &[GivenModule<'_>],
    expected: &str,
) {
    let mut out = PatchyOut::with_room(alloc, 4096, 7, None).expect(rt, "room");
    let answer = print_object(file, summary, names, modules, &mut out);
    assert_same_at(
        rt,
        &expected,
        (answer, out.bytes()),
        (Ok(()), expected.as_bytes()),
    );
}

/// A CodeView record with these first bytes, which has no others.
fn record_of(bytes: &[u8; 24], size: u32) -> CodeViewBytes<'static> {
    CodeViewBytes {
        head: *bytes,
        rest: b"",
        size,
    }
}

/// A record of the kind RSDS with this name.
fn rsds(name: &'static [u8]) -> CodeViewBytes<'static> {
    CodeViewBytes {
        head: *b"RSDS\x00\x11\x22\x33\x44\x55\x66\x77\x88\x99\xaa\xbb\xcc\xdd\xee\xff\x1a\0\0\0",
        rest: name,
        size: 24 + name.len().min(1000) as u32,
    }
}

#[test]
fn object_of_a_crash_succeeds(rt: HostRuntime) {
    let summary = summary_of_write(&rt, rt.alloc());
    let build = record_of(
        b"LEpB\x2d\x1f\x3c\x4b\x5a\x69\x78\x87\x96\xa5\xb4\xc3\xd2\xe1\xf0\x0f\x1e\x2e\x3e\x4e",
        24,
    );
    let module = program_of(&rt, &summary, build);
    let cpad = GivenName::Units(CPAD);
    assert_object(
        &rt,
        rt.alloc(),
        b"a\"\xff.dmp",
        &summary,
        &names(cpad, cpad, GivenName::Units(b"c\0\"\0")),
        &[module],
        "{\"line\":\"summary\",\"file\":\"a\\\"\u{fffd}.dmp\",\"status\":\"OK\",\"time\":1735689600,\"system_info\":{\"os\":\"Linux\",\"os_ver\":\"0.0.0\",\"cpu_arch\":\"amd64\",\"cpu_count\":0},\"system\":{\"platform_id\":33281,\"processor_architecture\":9,\"processor_level\":0,\"processor_revision\":0,\"number_of_processors\":0,\"product_type\":0,\"major_version\":0,\"minor_version\":0,\"build_number\":0,\"suite_mask\":0},\"crash\":{\"code\":\"0x0000000b\",\"code_name\":\"SIGSEGV\",\"flags\":\"0x00000001\",\"flags_name\":\"SEGV_MAPERR\",\"thread\":7,\"thread_name\":\"c\\\"\",\"address\":\"0x0000000000005010\",\"exception_address\":\"0x0000000000000010\",\"registers\":{\"instruction\":\"0x0000000000005010\",\"stack\":\"0x0000000000000000\",\"frame\":\"0x0000000000000000\"},\"reached\":{\"address\":\"0x0000000000000010\",\"access\":\"write\"},\"module\":{\"name\":\"/usr/bin/cpad\",\"file\":\"cpad\",\"version\":\"0.0.0.0\",\"offset\":\"16\"},\"near\":null},\"program\":{\"name\":\"/usr/bin/cpad\",\"file\":\"cpad\",\"version\":\"0.0.0.0\"},\"counts\":{\"streams\":\"5\",\"threads\":\"0\",\"modules\":\"1\",\"exceptions\":\"2\",\"ranges\":\"0\",\"memory\":\"0\"},\"bad_entries\":0,\"first_error\":null,\"parts_outside\":0,\"first_outside\":null,\"main_module\":0,\"modules\":[{\"filename\":\"/usr/bin/cpad\",\"base_addr\":\"0x0000000000005000\",\"end_addr\":\"0x0000000000005100\",\"version\":\"0.0.0.0\",\"code_id\":\"2d1f3c4b5a69788796a5b4c3d2e1f00f1e2e3e4e\",\"debug_file\":null,\"debug_id\":\"4B3C1F2D695A877896A5B4C3D2E1F00F0\"}],\"threads\":[{\"thread_id\":7,\"thread_name\":\"c\\\"\",\"frames\":[{\"frame\":0,\"offset\":\"0x0000000000005010\",\"trust\":\"context\"}]},{\"thread_id\":4294967295,\"thread_name\":null,\"frames\":[]}],\"crash_info\":{\"type\":\"SIGSEGV / SEGV_MAPERR\",\"address\":\"0x0000000000000010\",\"crashing_thread\":0}}\n",
    );
}

#[test]
fn object_without_a_crash_succeeds(rt: HostRuntime) {
    let mut summary = summary_of(&rt, rt.alloc(), &LINUX);
    summary.crash = None;
    summary.system = None;
    summary.program = None;
    summary.outside.count = 1;
    summary.outside.first = Some(STACK_OUTSIDE);
    assert_object(
        &rt,
        rt.alloc(),
        b"",
        &summary,
        &names(GivenName::None, GivenName::None, GivenName::None),
        &[],
        "{\"line\":\"summary\",\"file\":\"\",\"status\":\"OK\",\"time\":0,\"system_info\":null,\"system\":null,\"crash\":null,\"program\":null,\"counts\":{\"streams\":\"5\",\"threads\":\"0\",\"modules\":\"1\",\"exceptions\":\"2\",\"ranges\":\"0\",\"memory\":\"0\"},\"bad_entries\":0,\"first_error\":null,\"parts_outside\":1,\"first_outside\":\"entry 2 item 0: stack outside the file: offset 4720 size 7264\",\"main_module\":null,\"modules\":[],\"threads\":[{\"thread_id\":7,\"thread_name\":null,\"frames\":[]},{\"thread_id\":4294967295,\"thread_name\":null,\"frames\":[]}],\"crash_info\":null}\n",
    );
}

#[test]
fn modules_have_the_ids_of_their_records(rt: HostRuntime) {
    let summary = summary_of(&rt, rt.alloc(), &LINUX);
    let Some(mut fields) = summary.program else {
        return assert!(&rt; false);
    };
    fields.time_date_stamp = 0x0a53f100;
    fields.version_info.file_version_ms = 0x1_0002;
    fields.version_info.file_version_ls = 0x3_ffff;
    let mut last = fields;
    last.base_of_image = u64::MAX - 1;
    let other = record_of(
        b"\x01\x02\x03\x04\0\0\0\0\0\0\0\0\0\0\0\0\0\0\0\0\0\0\0\0",
        24,
    );
    let nb10 = record_of(b"NB10\0\0\0\0\x10\x84\x7d\x0b\x1f\0\0\0a.pdb\0\0\0", 22);
    let modules = [
        GivenModule {
            name: GivenName::Units(EXE),
            fields,
            codeview: Some(rsds(b"C:\\a\xff.pdb\0more")),
        },
        GivenModule {
            name: GivenName::None,
            fields,
            codeview: Some(nb10),
        },
        GivenModule {
            name: GivenName::Long(8000),
            fields,
            codeview: Some(other),
        },
        GivenModule {
            name: GivenName::Units(b"\0\xd8"),
            fields: last,
            codeview: Some(record_of(&[0; 24], 3)),
        },
        GivenModule {
            name: GivenName::None,
            fields,
            codeview: None,
        },
    ];
    let mut out = PatchyOut::with_room(rt.alloc(), 4096, 7, None).expect(&rt, "room");
    let answer = print_modules(&modules, &mut out);
    let expected =
        "{\"filename\":\"C:\\\\\u{e9}.exe\",\"base_addr\":\"0x0000000000005000\",\"end_addr\":\"0x0000000000005100\",\"version\":\"1.2.3.65535\",\"code_id\":\"0A53F100100\",\"debug_file\":\"C:\\\\a\u{fffd}.pdb\",\"debug_id\":\"33221100554477668899AABBCCDDEEFF1a\"},{\"filename\":null,\"base_addr\":\"0x0000000000005000\",\"end_addr\":\"0x0000000000005100\",\"version\":\"1.2.3.65535\",\"code_id\":\"0A53F100100\",\"debug_file\":null,\"debug_id\":\"0B7D84101f\"},{\"filename\":null,\"base_addr\":\"0x0000000000005000\",\"end_addr\":\"0x0000000000005100\",\"version\":\"1.2.3.65535\",\"code_id\":\"0A53F100100\",\"debug_file\":null,\"debug_id\":null},{\"filename\":\"\u{fffd}\",\"base_addr\":\"0xfffffffffffffffe\",\"end_addr\":\"0xffffffffffffffff\",\"version\":\"1.2.3.65535\",\"code_id\":\"0A53F100100\",\"debug_file\":null,\"debug_id\":null},{\"filename\":null,\"base_addr\":\"0x0000000000005000\",\"end_addr\":\"0x0000000000005100\",\"version\":\"1.2.3.65535\",\"code_id\":\"0A53F100100\",\"debug_file\":null,\"debug_id\":null}";
    assert_same_at(
        &rt,
        &expected,
        (answer, out.bytes()),
        (Ok(()), expected.as_bytes()),
    );
}

#[test]
fn crash_near_a_module_has_its_place(rt: HostRuntime) {
    let mut made = LINUX;
    made.module_size = 16;
    made.architecture = 12;
    made.code = 999;
    let mut summary = summary_of(&rt, rt.alloc(), &made);
    if let Some(crash) = &mut summary.crash {
        crash.reached = None;
        crash.registers = Some(Registers {
            instruction: 1,
            stack: 2,
            frame: u64::MAX,
        });
    }
    let mut out = PatchyOut::with_room(rt.alloc(), 4096, 7, None).expect(&rt, "room");
    let exe = GivenName::Units(EXE);
    let given = names(GivenName::Long(8000), exe, GivenName::Long(9));
    let answer = print_object(b"a.dmp", &summary, &given, &[], &mut out);
    assert_same_at(&rt, &"a crash near a module", answer, Ok(()));
    let told = out.bytes();
    let front =
        b"{\"line\":\"summary\",\"file\":\"a.dmp\",\"status\":\"OK\",\"time\":0,\"system_info\":{\"os\":\"Linux\",\"os_ver\":\"0.0.0\",\"cpu_arch\":\"arm64\",\"cpu_count\":0},\"system\":{\"platform_id\":33281,\"processor_architecture\":12,\"processor_level\":0,\"processor_revision\":0,\"number_of_processors\":0,\"product_type\":0,\"major_version\":0,\"minor_version\":0,\"build_number\":0,\"suite_mask\":0},\"crash\":{\"code\":\"0x000003e7\",\"code_name\":null,\"flags\":\"0x00000000\",\"flags_name\":null,\"thread\":7,\"thread_name\":null,\"address\":\"0x0000000000005010\",\"exception_address\":\"0x0000000000000010\",\"registers\":{\"instruction\":\"0x0000000000000001\",\"stack\":\"0x0000000000000002\",\"frame\":\"0xffffffffffffffff\"},\"reached\":null,\"module\":null,\"near\":{\"name\":\"C:\\\\\xc3\xa9.exe\",\"file\":\"\xc3\xa9.exe\",\"version\":\"0.0.0.0\",\"offset\":\"16\"}},\"program\":{\"name\":null,\"file\":null,\"version\":\"0.0.0.0\"},";
    let end =
        b"\"crash_info\":{\"type\":\"0x000003e7\",\"address\":\"0x0000000000000010\",\"crashing_thread\":0}}\n";
    assert!(&rt; told.len() >= front.len() && told.len() >= end.len());
    assert_same_at(&rt, &"its front", &told[..front.len()], &front[..]);
    assert_same_at(&rt, &"its end", &told[told.len() - end.len()..], &end[..]);
}

/// How many calls of an output, of 100 bytes at most, an object takes if the output fails at none of them.
fn calls_of_object(
    rt: &impl Abort,
    alloc: Global,
    summary: &FileSummary,
    names: &SummaryNames<'_>,
    modules: &[GivenModule<'_>],
) -> u64 {
    for call in 0..1000u64 {
        let mut out = PatchyOut::with_room(alloc, 4096, 100, Some(call)).expect(rt, "room");
        let answer = print_object(b"a.dmp", summary, names, modules, &mut out);
        if answer.is_ok() {
            return call;
        }
        assert!(rt; out.bytes().len() <= 100 * call as usize);
    }
    1000
}

#[test]
fn output_that_fails_has_a_first_part_of_the_object(rt: HostRuntime) {
    let summary = summary_of(&rt, rt.alloc(), &LINUX);
    let module = program_of(&rt, &summary, rsds(b"a.pdb"));
    let cpad = GivenName::Units(CPAD);
    let given = names(cpad, cpad, cpad);
    let calls = calls_of_object(&rt, rt.alloc(), &summary, &given, &[module, module]);
    assert!(&rt; 40 < calls && calls < 100, "{calls} calls");
}
