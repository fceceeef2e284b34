//! An exception of the dumped process.

use crate::record::{Record, get_at, put_at};
use mdmp_source::Location;

/// An exception of the dumped process: `MINIDUMP_EXCEPTION_STREAM`, with the
/// `MINIDUMP_EXCEPTION` inside it, 168 bytes.
#[derive(Clone, Copy, Debug, PartialEq, Eq)]
pub struct ExceptionRecord {
    /// `ThreadId`.
    pub thread_id: u32,
    /// `ExceptionCode`.
    pub exception_code: u32,
    /// `ExceptionFlags`.
    pub exception_flags: u32,
    /// `ExceptionRecord`, an address of the dumped process.
    pub exception_record: u64,
    /// `ExceptionAddress`, an address of the dumped process.
    pub exception_address: u64,
    /// `NumberParameters`, how many of the values below are of use; it may be over 15.
    pub number_parameters: u32,
    /// `ExceptionInformation`, all of which are kept.
    pub exception_information: [u64; 15],
    /// `ThreadContext`, of the registers, which are not read.
    pub thread_context: Location,
}

impl Record for ExceptionRecord {
    ghost use Rattle.mdmp_wire.specs.Exception.{exception_at, exception_bytes, exception_size, exception_at-part};

    ghost SIZE = { exception_size };

    const SIZE: usize = 168;

    ghost at = { exception_at };

    ghost bytes_of = { exception_bytes };

    ghost part = { exception_at-part };

    fn read(bytes: &[u8]) -> Self {
        ExceptionRecord {
            thread_id: get_at(bytes, 0),
            exception_code: get_at(bytes, 8),
            exception_flags: get_at(bytes, 12),
            exception_record: get_at(bytes, 16),
            exception_address: get_at(bytes, 24),
            number_parameters: get_at(bytes, 32),
            exception_information: get_at(bytes, 40),
            thread_context: get_at(bytes, 160),
        }
    }

    fn write(&self, out: &mut [u8]) {
        put_at(out, 0, &self.thread_id);
        put_at(out, 4, &0u32);
        put_at(out, 8, &self.exception_code);
        put_at(out, 12, &self.exception_flags);
        put_at(out, 16, &self.exception_record);
        put_at(out, 24, &self.exception_address);
        put_at(out, 32, &self.number_parameters);
        put_at(out, 36, &0u32);
        put_at(out, 40, &self.exception_information);
        put_at(out, 160, &self.thread_context);
    }
}
