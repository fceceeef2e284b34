//! A record of any kind of stream.
ghost use Rattle.std.specs.Prelude.{◌≡◌, ◌≤◌, length, take};

use crate::descriptor::Descriptor;
use crate::descriptor64::Descriptor64;
use crate::exception::ExceptionRecord;
use crate::memory_info::MemoryInfoRecord;
use crate::module::ModuleRecord;
use crate::record::Record;
use crate::slot::{PartName, Slot};
use crate::system::SystemRecord;
use crate::thread::ThreadRecord;
use crate::thread_name::ThreadNameRecord;
use crate::unloaded::UnloadedRecord;

/// A record of a stream, of any kind that has records.
#[derive(Clone, Copy, Debug, PartialEq, Eq)]
pub enum AnyRecord {
    /// A thread: `MINIDUMP_THREAD`.
    Thread(ThreadRecord),
    /// A module: `MINIDUMP_MODULE`.
    Module(ModuleRecord),
    /// A range of memory: `MINIDUMP_MEMORY_DESCRIPTOR`.
    Memory(Descriptor),
    /// An exception: `MINIDUMP_EXCEPTION_STREAM`.
    Exception(ExceptionRecord),
    /// The system: `MINIDUMP_SYSTEM_INFO`.
    System(SystemRecord),
    /// A range of memory whose bytes follow those of the ranges before it:
    /// `MINIDUMP_MEMORY_DESCRIPTOR64`.
    Memory64(Descriptor64),
    /// A module that was unloaded: `MINIDUMP_UNLOADED_MODULE`.
    Unloaded(UnloadedRecord),
    /// A region of memory: `MINIDUMP_MEMORY_INFO`.
    MemoryInfo(MemoryInfoRecord),
    /// The name of a thread: `MINIDUMP_THREAD_NAME`.
    ThreadName(ThreadNameRecord),
}

impl AnyRecord {
    ghost use Rattle.mdmp_wire.specs.AnyRecord.{AreSlotsOf, any_bytes, any_size, bare, greatest_size, name_rva, slots_of, with_slots};

    /// Where its name stands, from the start of the file, if records of its kind have one: of a
    /// module and an unloaded module `ModuleNameRva`, of a system `CSDVersionRva`, of the name of a
    /// thread `RvaOfThreadName`. 0 says that this record has none.
    pub fn name_rva(&self) -> Option<u64>
        ensures { result ≡ name_rva self.now }
    {
        let [first, _, _] = self.slots();
        first.name_rva()
    }

    /// What it points at, in the order of its fields: a name stands before the parts. Of a thread
    /// these are its stack and its registers, of a module its name, its CodeView record and its
    /// miscellaneous debug record, of a range of memory its bytes, of an exception its registers, of
    /// a system, an unloaded module and the name of a thread the name. A region of memory points at
    /// nothing, and of a 64-bit range only how many bytes it has stands in its record.
    pub fn slots(&self) -> [Slot; 3]
        ensures { result ≡ slots_of self.now }
    {
        match self {
            AnyRecord::Thread(thread) => [
                Slot::Part(PartName::Stack, thread.stack.memory),
                Slot::Part(PartName::Context, thread.thread_context),
                Slot::Empty,
            ],
            AnyRecord::Module(module) => [
                Slot::Name(u64::from(module.module_name_rva)),
                Slot::Part(PartName::CodeView, module.cv_record),
                Slot::Part(PartName::Misc, module.misc_record),
            ],
            AnyRecord::Memory(range) => [
                Slot::Part(PartName::Memory, range.memory),
                Slot::Empty,
                Slot::Empty,
            ],
            AnyRecord::Exception(exception) => [
                Slot::Part(PartName::Context, exception.thread_context),
                Slot::Empty,
                Slot::Empty,
            ],
            AnyRecord::System(system) => [
                Slot::Name(u64::from(system.csd_version_rva)),
                Slot::Empty,
                Slot::Empty,
            ],
            AnyRecord::Unloaded(module) => [
                Slot::Name(u64::from(module.module_name_rva)),
                Slot::Empty,
                Slot::Empty,
            ],
            AnyRecord::ThreadName(thread) => [
                Slot::Name(thread.rva_of_thread_name),
                Slot::Empty,
                Slot::Empty,
            ],
            AnyRecord::Memory64(range) => [Slot::Behind(range.data_size), Slot::Empty, Slot::Empty],
            AnyRecord::MemoryInfo(_) => [Slot::Empty; 3],
        }
    }
    /// The record with these slots in place of its own: a name for a name, whose RVA fits its field, a
    /// part for a part, and nothing else.
    #[tactic(auto, using(crate::proofs::Slots::slots_put, crate::proofs::Slots::own_slots))]
    pub fn with_slots(&self, slots: [Slot; 3]) -> AnyRecord
        requires { AreSlotsOf self.now slots }
        ensures value { result ≡ with_slots self.now slots }
        ensures put { slots_of result ≡ slots }
        ensures same { slots ≡ slots_of self.now → result ≡ self.now }
    {
        self.put_slots(slots)
    }

    fn put_slots(&self, slots: [Slot; 3]) -> AnyRecord
        requires { AreSlotsOf self.now slots }
        ensures { result ≡ with_slots self.now slots }
    {
        let [first, second, third] = slots;
        match *self {
            AnyRecord::Thread(thread) => AnyRecord::Thread(ThreadRecord {
                stack: Descriptor {
                    memory: first.location(),
                    ..thread.stack
                },
                thread_context: second.location(),
                ..thread
            }),
            AnyRecord::Module(module) => AnyRecord::Module(ModuleRecord {
                module_name_rva: first.rva() as u32,
                cv_record: second.location(),
                misc_record: third.location(),
                ..module
            }),
            AnyRecord::Memory(range) => AnyRecord::Memory(Descriptor {
                memory: first.location(),
                ..range
            }),
            AnyRecord::Exception(exception) => AnyRecord::Exception(ExceptionRecord {
                thread_context: first.location(),
                ..exception
            }),
            AnyRecord::System(system) => AnyRecord::System(SystemRecord {
                csd_version_rva: first.rva() as u32,
                ..system
            }),
            AnyRecord::Unloaded(module) => AnyRecord::Unloaded(UnloadedRecord {
                module_name_rva: first.rva() as u32,
                ..module
            }),
            AnyRecord::ThreadName(thread) => AnyRecord::ThreadName(ThreadNameRecord {
                rva_of_thread_name: first.rva(),
                ..thread
            }),
            AnyRecord::Memory64(range) => AnyRecord::Memory64(Descriptor64 {
                data_size: first.behind(),
                ..range
            }),
            AnyRecord::MemoryInfo(_) => *self,
        }
    }

    /// The record with no place in it: its RVAs and locations are 0.
    pub fn bare(&self) -> AnyRecord
        ensures { result ≡ bare self.now }
    {
        let [first, second, third] = self.slots();
        self.with_slots([first.bare(), second.bare(), third.bare()])
    }

    /// Writes it at the front of a buffer that has room for the longest, and tells how many bytes it
    /// takes.
    pub fn write(&self, buffer: &mut [u8]) -> usize
        requires { greatest_size ≤ length buffer.old }
        ensures size { result ≡ any_size self.now }
        ensures within { result ≤ length buffer.new }
        ensures bytes { take result buffer.new ≡ any_bytes self.now }
    {
        match self {
            AnyRecord::Thread(thread) => put_first(buffer, thread),
            AnyRecord::Module(module) => put_first(buffer, module),
            AnyRecord::Memory(range) => put_first(buffer, range),
            AnyRecord::Exception(exception) => put_first(buffer, exception),
            AnyRecord::System(system) => put_first(buffer, system),
            AnyRecord::Memory64(range) => put_first(buffer, range),
            AnyRecord::Unloaded(module) => put_first(buffer, module),
            AnyRecord::MemoryInfo(region) => put_first(buffer, region),
            AnyRecord::ThreadName(thread) => put_first(buffer, thread),
        }
    }
}

/// Writes a record at the front of a buffer, and tells how many bytes it takes.
fn put_first<R: Record>(buffer: &mut [u8], value: &R) -> usize
    requires { R.SIZE ≤ length buffer.old }
    ensures size { result ≡ R.SIZE }
    ensures within { result ≤ length buffer.new }
    ensures bytes { take result buffer.new ≡ R.bytes_of value.now }
{
    value.write(&mut buffer[..R::SIZE]);
    R::SIZE
}
