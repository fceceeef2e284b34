//! The test of a file's first bytes.
use crate::same::assert_same_at;
use mdmp_wire::{Header, HeaderFault};

/// The head of a file, and what the test of it answers. The signature is tested before the version, whose high half is
/// the producer's.
static HEADS: &[(&[u8; 32], Result<Header, HeaderFault>)] = &[
    (
        b"PMDM\x94\xa7\0\0\0\0\0\0\0\0\0\0\0\0\0\0\0\0\0\0\0\0\0\0\0\0\0\0",
        Err(HeaderFault::BadSignature),
    ),
    (
        b"MDMP\x94\xa7\0\0\0\0\0\0\0\0\0\0\0\0\0\0\0\0\0\0\0\0\0\0\0\0\0\0",
        Err(HeaderFault::BadVersion { low: 0xa794 }),
    ),
    (
        b"MDMP\x93\xa7\xaa\x12\0\0\0\0\0\0\0\0\0\0\0\0\0\0\0\0\0\0\0\0\0\0\0\0",
        Ok(Header {
            signature: 0x504d444d,
            version: 0x12aa_a793,
            number_of_streams: 0,
            stream_directory_rva: 0,
            checksum: 0,
            time_date_stamp: 0,
            flags: 0,
        }),
    ),
];

#[test]
fn signature_is_tested_before_the_version(rt: HostRuntime) {
    for (head, answer) in HEADS {
        assert_same_at(&rt, head, Header::check(*head), *answer);
    }
}
