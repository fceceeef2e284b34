//! Limits, and which entries are listed.
use crate::opening::chosen;
use crate::same::{assert_same, assert_same_at};
use mdmp_lister::{Choice, Form, Limits, StreamKind, TypeSet};

/// A window, a name, and whether they are within the bounds.
static WITHIN: [(u32, u32, bool); 5] = [
    (167, 0, false),
    ((1 << 30) + 1, 0, false),
    (168, (1 << 30) + 1, false),
    (168, 0, true),
    (1 << 30, 1 << 30, true),
];

#[test]
fn limits_have_bounds(rt: HostRuntime) {
    for (window, name, expected) in &WITHIN {
        let is_within = Limits::new(*window, *name).is_some();
        assert_same_at(&rt, &(*window, *name), is_within, *expected);
    }
    let standard = Limits::default();
    assert_same(&rt, (standard.window, standard.name), (65536, 4096));
}

/// Types, and whether they are a set, which has them in order; none where they are not a set.
static SETS: [(&[u32], Option<bool>); 4] = [
    (&[], None),
    (&[3], Some(true)),
    (
        &[3, 4, 5, 6, 7, 9, 14, 16, 0, 10, 11, 12, 13, 15, 17, 3],
        Some(true),
    ),
    (
        &[3, 4, 5, 6, 7, 9, 14, 16, 0, 10, 11, 12, 13, 15, 17, 3, 24],
        None,
    ),
];

#[test]
fn one_to_sixteen_types_are_a_set(rt: HostRuntime) {
    for (types, expected) in &SETS {
        let found = match TypeSet::new(types) {
            Some(set) => Some(set.types() == *types),
            None => None,
        };
        assert_same_at(&rt, types, found, *expected);
    }
}

#[test]
fn choice_has_its_types(rt: HostRuntime) {
    let choice = chosen(&rt, &[7, 0, 7]);
    let has = (choice.has(7), choice.has(0), choice.has(3));
    assert_same(&rt, has, (true, true, false));
    assert_same(&rt, Choice::All.has(u32::MAX), true);
}

/// A stream type, its kind and form, the sizes of its head and record, whether it has names, and whether it is
/// 64-bit memory.
static KINDS: [(u32, StreamKind, Form, u32, u32, bool, bool); 9] = [
    (3, StreamKind::Threads, Form::Counted, 4, 48, false, false),
    (4, StreamKind::Modules, Form::Counted, 4, 108, true, false),
    (5, StreamKind::Memory, Form::Counted, 4, 16, false, false),
    (6, StreamKind::Exception, Form::Single, 0, 168, false, false),
    (7, StreamKind::System, Form::Single, 0, 56, true, false),
    (9, StreamKind::Memory64, Form::Ranges64, 16, 16, false, true),
    (14, StreamKind::Unloaded, Form::Sized32, 12, 24, true, false),
    (
        16,
        StreamKind::MemoryInfo,
        Form::Sized64,
        16,
        48,
        false,
        false,
    ),
    (
        24,
        StreamKind::ThreadNames,
        Form::Counted,
        4,
        12,
        true,
        false,
    ),
];

/// What a kind tells of itself: its type, form, head, record, names, and whether it is 64-bit memory.
fn told_of(kind: StreamKind) -> (u32, Form, u32, u32, bool, bool) {
    let form = kind.form();
    let (head, record) = (form.head_cost(), kind.record_size());
    (
        kind.stream_type(),
        form,
        head,
        record,
        kind.has_names(),
        kind.is_memory64(),
    )
}

#[test]
fn kind_tells_its_type_its_head_its_records_and_its_names(rt: HostRuntime) {
    for (stream_type, kind, form, head, record, has_names, is_memory64) in &KINDS {
        let expected = (
            *stream_type,
            *form,
            *head,
            *record,
            *has_names,
            *is_memory64,
        );
        assert_same_at(&rt, stream_type, told_of(*kind), expected);
    }
}

/// Types that have no kind.
static OTHERS: [u32; 8] = [0, 1, 8, 10, 15, 17, 0x10000, u32::MAX];

#[test]
fn nine_stream_types_have_a_kind(rt: HostRuntime) {
    for (stream_type, kind, ..) in &KINDS {
        assert_same_at(
            &rt,
            stream_type,
            StreamKind::of_type(*stream_type),
            Some(*kind),
        );
    }
    for stream_type in &OTHERS {
        assert_same_at(&rt, stream_type, StreamKind::of_type(*stream_type), None);
    }
}
