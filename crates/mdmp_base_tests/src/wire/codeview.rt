//! What a module tells of its debug information.
use crate::same::assert_same_at;
use crate::source::part;
use mdmp_wire::CodeView;

/// The first 24 bytes of a CodeView record of 30, whose name is `a.pdb` and a zero byte.
const HEAD: [u8; 24] =
    *b"RSDS\x33\x22\x11\x00\x55\x44\x77\x66\x88\x99\xaa\xbb\xcc\xdd\xee\xff\x01\0\0\0";

/// The bytes of its GUID, the most significant ones of each number first.
const GUID: [u8; 16] = *b"\x00\x11\x22\x33\x44\x55\x66\x77\x88\x99\xaa\xbb\xcc\xdd\xee\xff";

/// The first bytes of such a record with another signature.
const OTHER_HEAD: [u8; 24] =
    *b"NSDS\x33\x22\x11\x00\x55\x44\x77\x66\x88\x99\xaa\xbb\xcc\xdd\xee\xff\x01\0\0\0";

/// What a record tells: a symbol file, by its identity, its age, its name and whether that has ended; or another record, by
/// its signature, where it has one, and its size.
type CodeViewTold<'a> = Result<([u8; 16], u32, &'a [u8], bool), (Option<[u8; 4]>, u32)>;

/// The first 24 bytes of a record, which has fewer if it is short, what was fetched of the rest, its size, and what it
/// tells.
static CODEVIEWS: &[(&[u8; 24], &[u8], u32, CodeViewTold<'static>)] = &[
    // A symbol file is named up to its zero byte, or as far as it was fetched.
    (&HEAD, b"a.pdb\0", 30, Ok((GUID, 1, b"a.pdb", true))),
    (&HEAD, b"a.p", 30, Ok((GUID, 1, b"a.p", false))),
    (&HEAD, b"", 30, Ok((GUID, 1, b"", false))),
    // A short record is told by its size, and another one by its signature.
    (&HEAD, b"", 3, Err((None, 3))),
    (&HEAD, b"", 23, Err((None, 23))),
    (&OTHER_HEAD, b"a.pdb\0", 30, Err((Some(*b"NSDS"), 30))),
];

#[test]
fn symbol_file_is_named_up_to_its_zero_byte(rt: HostRuntime) {
    for (head, rest, size, expected) in CODEVIEWS {
        let first = part(&rt, head.as_slice(), 0, (*size as usize).min(24));
        assert!(rt; first.len() == (*size as usize).min(24));
        let told = match CodeView::read(first, *rest, *size) {
            CodeView::Rsds {
                guid,
                age,
                name,
                ended,
            } => Ok((guid.into_bytes(), age, name, ended)),
            CodeView::Other { signature, size } => Err((Some(signature), size)),
            CodeView::Short { size } => Err((None, size)),
        };
        assert_same_at(&rt, &(rest, size), told, *expected);
    }
}
