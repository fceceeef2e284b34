//! The crash in the object of a summary.
ghost use Rattle.std.specs.Prelude.{◌++◌, refl};
ghost use Rattle.mdmp_source.specs.Output.{Puts};
ghost use Rattle.mdmp_summary_lines.specs.JsonCrash.{access_word_text, crash_addresses_text, crash_code_text, crash_members_text, crash_object_text, crash_places_text, module_members_text, place_object_text, reached_object_text, registers_object_text};

use crate::json_text::{FileString, NameString};
use crate::number_words::{CodeNameString, FlagsNameString};
use mdmp_lister::Name;
use mdmp_print::{
    Hex8, Hex16, InQuotes, LongText, Piece, Prefixed, Printer, Version, print_around, row,
};
use mdmp_source::OutFailed;
use mdmp_summary::{AccessKind, Crash, PlaceInModule, Reached, Registers};
use mdmp_wire::{ExceptionRecord, ModuleRecord, SystemRecord};

/// The registers of a thread, if they are known.
#[derive(Clone, Copy)]
struct RegistersObject(Option<Registers>);

impl Piece for RegistersObject {
    ghost text = { λ p. registers_object_text p.0 };

    ghost before = { λ p more. registers_object_text p.0 ++ more };

    ghost most = { 110 };

    ghost joined = { λ p more. refl };

    fn write_at(&self, buffer: &mut [u8], at: usize) -> usize {
        match self.0 {
            Some(registers) => row![
                b"{\"instruction\":",
                InQuotes(Prefixed(Hex16(registers.instruction))),
                b",\"stack\":",
                InQuotes(Prefixed(Hex16(registers.stack))),
                b",\"frame\":",
                InQuotes(Prefixed(Hex16(registers.frame))),
                b"}",
            ]
            .write_at(buffer, at),
            None => b"null".write_at(buffer, at),
        }
    }
}

/// How a thread tried to reach an address, as a string, if that is known.
#[derive(Clone, Copy)]
struct AccessString(AccessKind);

impl Piece for AccessString {
    ghost text = { λ p. access_word_text p.0 };

    ghost before = { λ p more. access_word_text p.0 ++ more };

    ghost most = { 9 };

    ghost joined = { λ p more. refl };

    fn write_at(&self, buffer: &mut [u8], at: usize) -> usize {
        match self.0 {
            AccessKind::Read => b"\"read\"".write_at(buffer, at),
            AccessKind::Write => b"\"write\"".write_at(buffer, at),
            AccessKind::Execute => b"\"execute\"".write_at(buffer, at),
            AccessKind::Unknown => b"null".write_at(buffer, at),
        }
    }
}

/// The address that a thread tried to reach, if it is known.
#[derive(Clone, Copy)]
struct ReachedObject(Option<Reached>);

impl Piece for ReachedObject {
    ghost text = { λ p. reached_object_text p.0 };

    ghost before = { λ p more. reached_object_text p.0 ++ more };

    ghost most = { 60 };

    ghost joined = { λ p more. refl };

    fn write_at(&self, buffer: &mut [u8], at: usize) -> usize {
        match self.0 {
            Some(reached) => row![
                b"{\"address\":",
                InQuotes(Prefixed(Hex16(reached.address))),
                b",\"access\":",
                AccessString(reached.access),
                b"}",
            ]
            .write_at(buffer, at),
            None => b"null".write_at(buffer, at),
        }
    }
}

/// The first members of a crash: its code, its flags and its thread, up to the name of the thread.
#[derive(Clone, Copy)]
struct CrashCode {
    system: Option<SystemRecord>,
    fields: ExceptionRecord,
}

impl Piece for CrashCode {
    ghost text = { λ p. crash_code_text p.system p.fields };

    ghost before = { λ p more. crash_code_text p.system p.fields ++ more };

    ghost most = { 260 };

    ghost joined = { λ p more. refl };

    fn write_at(&self, buffer: &mut [u8], at: usize) -> usize {
        let code = self.fields.exception_code;
        let flags = self.fields.exception_flags;
        row![
            b"{\"code\":",
            InQuotes(Prefixed(Hex8(code))),
            b",\"code_name\":",
            CodeNameString {
                system: self.system,
                code,
            },
            b",\"flags\":",
            InQuotes(Prefixed(Hex8(flags))),
            b",\"flags_name\":",
            FlagsNameString {
                system: self.system,
                code,
                flags,
            },
            b",\"thread\":",
            self.fields.thread_id,
            b",\"thread_name\":",
        ]
        .write_at(buffer, at)
    }
}

/// The members of a crash with its addresses, up to the modules.
#[derive(Clone, Copy)]
struct CrashAddresses(Crash);

impl Piece for CrashAddresses {
    ghost text = { λ p. crash_addresses_text p.0 };

    ghost before = { λ p more. crash_addresses_text p.0 ++ more };

    ghost most = { 290 };

    ghost joined = { λ p more. refl };

    fn write_at(&self, buffer: &mut [u8], at: usize) -> usize {
        row![
            b",\"address\":",
            InQuotes(Prefixed(Hex16(self.0.address))),
            b",\"exception_address\":",
            InQuotes(Prefixed(Hex16(self.0.exception.fields.exception_address))),
            b",\"registers\":",
            RegistersObject(self.0.registers),
            b",\"reached\":",
            ReachedObject(self.0.reached),
            b",\"module\":",
        ]
        .write_at(buffer, at)
    }
}

/// The members of a module.
#[derive(Drop)]
pub(crate) struct ModuleMembers<'n, 'a> {
    pub(crate) fields: ModuleRecord,
    pub(crate) name: &'n Name<'a>,
}

impl<'n, 'a> LongText for ModuleMembers<'n, 'a> {
    ghost text = { λ t. module_members_text t.fields t.name.now };

    fn print<O: Printer>(&self, out: &mut O) -> Result<(), OutFailed> {
        let version = self.fields.version_info;
        print_around(
            out,
            &row![b"\"name\":"],
            &NameString(self.name),
            &row![b",\"file\":"],
        )?;
        print_around(
            out,
            &row![],
            &FileString(self.name),
            &row![
                b",\"version\":",
                InQuotes(Version(version.file_version_ms, version.file_version_ls)),
            ],
        )
    }
}

/// A module and the offset of an address in it, if there is one.
#[derive(Drop)]
struct PlaceObject<'n, 'a> {
    place: Option<PlaceInModule>,
    name: &'n Name<'a>,
}

impl<'n, 'a> LongText for PlaceObject<'n, 'a> {
    ghost text = { λ t. place_object_text t.place t.name.now };

    fn print<O: Printer>(&self, out: &mut O) -> Result<(), OutFailed> {
        match self.place {
            Some(place) => print_around(
                out,
                &row![b"{"],
                &ModuleMembers {
                    fields: place.fields,
                    name: self.name,
                },
                &row![b",\"offset\":", InQuotes(place.offset), b"}"],
            ),
            None => out.print(&b"null"),
        }
    }
}

/// The crash of a summary, with the names of its module and its thread.
#[derive(Drop)]
pub(crate) struct CrashObject<'s, 'n, 'a> {
    pub(crate) system: Option<SystemRecord>,
    pub(crate) crash: &'s Option<Crash>,
    pub(crate) owner: &'n Name<'a>,
    pub(crate) thread: &'n Name<'a>,
}

impl<'s, 'n, 'a> LongText for CrashObject<'s, 'n, 'a> {
    ghost text = { λ t. crash_object_text t.system t.crash.now t.owner.now t.thread.now };

    fn print<O: Printer>(&self, out: &mut O) -> Result<(), OutFailed> {
        match self.crash {
            Some(crash) => print_crash(self.system, crash, self.owner, self.thread, out),
            None => out.print(&b"null"),
        }
    }
}

/// Prints a crash.
fn print_crash<O: Printer>(
    system: Option<SystemRecord>,
    crash: &Crash,
    owner: &Name<'_>,
    thread: &Name<'_>,
    out: &mut O,
) -> Result<(), OutFailed>
    ensures { Puts result (O.state out.old) (crash_members_text system crash.now owner.now thread.now) (O.state out.new) }
{
    let code = CrashCode {
        system,
        fields: crash.exception.fields,
    };
    print_around(out, &code, &NameString(thread), &CrashAddresses(*crash))?;
    print_places(crash, owner, out)
}

/// Prints the module that holds the address that ran, and the nearest one.
fn print_places<O: Printer>(crash: &Crash, owner: &Name<'_>, out: &mut O) -> Result<(), OutFailed>
    ensures { Puts result (O.state out.old) (crash_places_text crash.now owner.now) (O.state out.new) }
{
    let holder = PlaceObject {
        place: crash.holder,
        name: owner,
    };
    let near = PlaceObject {
        place: crash.near,
        name: owner,
    };
    holder.print(out)?;
    print_around(out, &b",\"near\":", &near, &b"}")
}
