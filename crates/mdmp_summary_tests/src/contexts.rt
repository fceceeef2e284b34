//! Registers of contexts, each of which is cut at each length.
use crate::same::assert_same_at;
use mdmp_summary::registers_in;

#[test]
fn context_has_registers_from_its_least_length_on(rt: HostRuntime) {
    let x86 = Some((0xbbbab9b8, 0xc7c6c5c4, 0xb7b6b5b4));
    let arm = Some((0x43424140, 0x3b3a3938, 0x33323130));
    let x64 = Some((0xfffefdfcfbfaf9f8, 0x9f9e9d9c9b9a9998, 0xa7a6a5a4a3a2a1a0));
    let arm64 = Some((0x0f0e0d0c0b0a0908, 0x0706050403020100, 0xf7f6f5f4f3f2f1f0));
    // Byte k is k, counted anew from 256 on.
    let mut bytes = [0; 300];
    for k in 0..300usize {
        bytes[k] = (k % 256) as u8;
    }
    for (architecture, least, expected) in [
        (0, 200, x86),
        (10, 200, x86),
        (5, 68, arm),
        (9, 256, x64),
        (12, 272, arm64),
        (0x8003, 272, arm64),
        (1, 301, None),
    ] {
        for len in 0..=300usize {
            let found = match registers_in(architecture, &bytes[..len]) {
                Some(x) => Some((x.instruction, x.stack, x.frame)),
                None => None,
            };
            let wanted = if len < least { None } else { expected };
            assert_same_at(&rt, &(architecture, len), found, wanted);
        }
    }
}
