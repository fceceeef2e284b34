//! The exception of a dump.
//! Made by bindings/generate from bindings/kinds.toml.
ghost use Rattle.mdmp_lister.specs.declared.kind.StreamKind.TheVariants as kinds;
ghost use Rattle.mdmp_dump.specs.Exception.{IsException, exception_seen};

use crate::given::{Given, bytes_of, nowhere, size_of};
use crate::part::Part;
use crate::record_parts::{RecordParts, take_part};
use crate::row::Row;
use crate::view::{Fields, PartSize};
use mdmp_wire::{AnyRecord, ExceptionRecord};
use std::alloc::Allocator;

/// An exception of the dumped process: `MINIDUMP_EXCEPTION_STREAM`, with the `MINIDUMP_EXCEPTION`
/// inside it.
#[derive(Drop)]
#[derive_where(Debug, PartialEq, Eq)]
pub struct Exception<A: Allocator> {
    /// `ThreadId`.
    pub thread_id: u32,
    /// `ExceptionCode`.
    pub exception_code: u32,
    /// `ExceptionFlags`.
    pub exception_flags: u32,
    /// `ExceptionRecord`, an address of the dumped process.
    pub exception_record: u64,
    /// `ExceptionAddress`, an address of the dumped process.
    pub exception_address: u64,
    /// `NumberParameters`, how many of the values below are of use; it may be over 15.
    pub number_parameters: u32,
    /// `ExceptionInformation`, all of which are kept.
    pub exception_information: [u64; 15],
    /// The registers of its thread, its `ThreadContext`.
    pub context: Part<A>,
}

impl<A: Allocator + Copy> Row<A> for Exception<A> {
    ghost kind = { kinds.Exception };

    ghost IsAt = { λ file at k. IsException file };

    fn of(wire: AnyRecord, parts: &mut RecordParts<A>) -> Option<Self> {
        let AnyRecord::Exception(exception) = wire else {
            return None;
        };
        let exception_information = exception.exception_information;
        Some(Exception {
            thread_id: exception.thread_id,
            exception_code: exception.exception_code,
            exception_flags: exception.exception_flags,
            exception_record: exception.exception_record,
            exception_address: exception.exception_address,
            number_parameters: exception.number_parameters,
            exception_information,
            context: take_part(&mut parts.first, parts.alloc),
        })
    }
}

impl<A: Allocator> Given for Exception<A> {
    ghost see = { exception_seen };

    fn fields(&self) -> Fields {
        Fields {
            wire: AnyRecord::Exception(ExceptionRecord {
                thread_id: self.thread_id,
                exception_code: self.exception_code,
                exception_flags: self.exception_flags,
                exception_record: self.exception_record,
                exception_address: self.exception_address,
                number_parameters: self.number_parameters,
                exception_information: self.exception_information,
                thread_context: nowhere(),
            }),
            parts: [size_of(&self.context), PartSize::NoPart, PartSize::NoPart],
        }
    }

    fn part(&self, which: usize) -> &[u8] {
        match which {
            0 => bytes_of(&self.context),
            _ => &[],
        }
    }
}
