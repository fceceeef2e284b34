//! Tests of `mdmp_writer`.
mod outputs;
mod refused;
mod round_trip;
mod views;

use crate::same::assert_same_at;
use mdmp_dump::{Dump, DumpView};
use mdmp_lister::Limits;
use mdmp_source::PatchyOut;
use mdmp_writer::{
    LayoutFault, RoundTripFault, ToMemoryFault, WriteFault, to_memory, write_and_read, write_dump,
    written_size,
};
use std::alloc::{Allocator, Global};
use std::process::Abort;

/// An output in memory that takes so many bytes in all, so many in a call, and fails at a call, if it does.
pub fn patchy_out(
    rt: &impl Abort,
    alloc: Global,
    room: usize,
    cap: usize,
    fail_at: Option<u64>,
) -> PatchyOut<Global> {
    PatchyOut::with_room(alloc, room, cap, fail_at).expect(rt, "memory for an output")
}

/// How many bytes a dump has as it is written, or why it can't be.
pub fn size_of<V: DumpView>(view: &mut V) -> Result<u64, LayoutFault> {
    written_size(view)
}

/// Writes what a view gives through a buffer of so many bytes, from 1 to 4096.
pub fn write_view<V: DumpView>(
    view: &mut V,
    out: &mut PatchyOut<Global>,
    room: usize,
) -> Result<u64, WriteFault> {
    let mut buffer = [0; 4096];
    write_dump(view, out, &mut buffer[..room.clamp(1, 4096)])
}

/// Writes a view to an output through a buffer of so many bytes, and asserts what is answered and what the
/// output took.
pub fn assert_wrote<V: DumpView>(
    rt: &impl Abort,
    view: &mut V,
    out: PatchyOut<Global>,
    room: usize,
    expected: Result<u64, WriteFault>,
    bytes: &[u8],
) {
    let mut taking = out;
    let answer = write_view(view, &mut taking, room);
    assert_same_at(rt, &room, (answer, taking.bytes()), (expected, bytes));
}

/// How many bytes a dump has in memory, or why it is not written there.
pub fn stored_size<A: Allocator + Copy>(alloc: A, dump: &Dump<A>) -> Result<usize, ToMemoryFault> {
    match to_memory(alloc, dump) {
        Ok(bytes) => Ok(bytes.len()),
        Err(fault) => Err(fault),
    }
}

/// Why a dump is not written and read back.
pub fn fault_back<A: Allocator + Copy>(
    alloc: A,
    dump: &Dump<A>,
    limits: Limits,
    parts: u64,
) -> Option<RoundTripFault> {
    match write_and_read(alloc, dump, limits, parts) {
        Ok(_) => None,
        Err(fault) => Some(fault),
    }
}
