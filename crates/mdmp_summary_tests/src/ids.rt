//! Ids of modules.
use crate::same::assert_same_at;
use mdmp_summary::{BuildId, DebugIdentifier, Pdb20};
use std::process::Abort;

/// A CodeView record of an ELF file with a build id of 20 bytes.
static ELF: [u8; 24] =
    *b"LEpB\x2d\x1f\x3c\x4b\x5a\x69\x78\x87\x96\xa5\xb4\xc3\xd2\xe1\xf0\x0f\x1e\x2e\x3e\x4e";

/// One of a symbol file of PDB 2.0, with the first byte of its name.
static NB10: [u8; 17] = *b"NB10\0\0\0\0\x10\x84\x7d\x3b\x05\0\0\0a";

/// How many bytes of a build id a record of `size` bytes has, and whether it has more.
fn build_id(rt: &impl Abort, head: &[u8], size: u32) -> Option<(usize, bool)> {
    assert!(rt; head.len() == size.min(24) as usize);
    match BuildId::read(head, size) {
        Some(id) => Some((id.bytes.len(), id.cut)),
        None => None,
    }
}

#[test]
fn build_id_is_cut_at_20_bytes(rt: HostRuntime) {
    for (len, size, expected) in [
        (24, 24, Some((20, false))),
        (24, 36, Some((20, true))),
        (12, 12, Some((8, false))),
        (4, 4, Some((0, false))),
        (3, 3, None),
    ] {
        assert_same_at(&rt, &size, build_id(&rt, &ELF[..len], size), expected);
    }
    assert_same_at(&rt, &"PDB 2.0", build_id(&rt, &NB10, 17), None);
}

#[test]
fn symbol_file_has_a_debug_id(rt: HostRuntime) {
    let built = DebugIdentifier::of_build_id(&ELF[4..]);
    let guid = *b"\x4b\x3c\x1f\x2d\x69\x5a\x87\x78\x96\xa5\xb4\xc3\xd2\xe1\xf0\x0f";
    assert_same_at(
        &rt,
        &"a build id",
        (built.guid.into_bytes(), built.age),
        (guid, 0),
    );
    let pdb = Pdb20 {
        time: 0x3b7d8410,
        age: 5,
    };
    assert_same_at(&rt, &17, Pdb20::read(&NB10, 17), Some(pdb));
    assert_same_at(&rt, &15, Pdb20::read(&NB10[..15], 15), None);
}
