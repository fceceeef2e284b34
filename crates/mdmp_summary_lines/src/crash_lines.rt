//! The lines of a crash.
ghost use Rattle.std.specs.Prelude.{◌++◌, refl};
ghost use Rattle.mdmp_source.specs.Output.{Puts};
ghost use Rattle.mdmp_summary_lines.specs.CrashText.{access_text, crash_text, headline_text, near_text, reached_text, registers_text};
ghost use Rattle.mdmp_summary_lines.specs.NumberWords.{code_text};

use crate::file_name::FileName;
use crate::number_words::{CodeWords, FlagsWords};
use crate::thread_name::NameOfThread;
use mdmp_lister::Name;
use mdmp_print::{Hex8, Hex16, LongText, Piece, Prefixed, Printer, ShortHex, print_around, row};
use mdmp_source::OutFailed;
use mdmp_summary::{AccessKind, Crash, Reached, Registers};
use mdmp_wire::SystemRecord;

/// How a thread tried to reach an address.
#[derive(Clone, Copy)]
struct AccessWords(AccessKind);

impl Piece for AccessWords {
    ghost text = { λ p. access_text p.0 };

    ghost before = { λ p more. access_text p.0 ++ more };

    ghost most = { 13 };

    ghost joined = { λ p more. refl };

    fn write_at(&self, buffer: &mut [u8], at: usize) -> usize {
        match self.0 {
            AccessKind::Read => b" by a read".write_at(buffer, at),
            AccessKind::Write => b" by a write".write_at(buffer, at),
            AccessKind::Execute => b" by execution".write_at(buffer, at),
            AccessKind::Unknown => at,
        }
    }
}

/// The line of the address that a thread tried to reach, if it is told.
#[derive(Clone, Copy)]
struct ReachedLine(Option<Reached>);

impl Piece for ReachedLine {
    ghost text = { λ p. reached_text p.0 };

    ghost before = { λ p more. reached_text p.0 ++ more };

    ghost most = { 50 };

    ghost joined = { λ p more. refl };

    fn write_at(&self, buffer: &mut [u8], at: usize) -> usize {
        match self.0 {
            Some(reached) => row![
                b"\n  reached ",
                Prefixed(Hex16(reached.address)),
                AccessWords(reached.access),
            ]
            .write_at(buffer, at),
            None => at,
        }
    }
}

/// The registers of a thread, if they are told.
#[derive(Clone, Copy)]
struct RegistersWords(Option<Registers>);

impl Piece for RegistersWords {
    ghost text = { λ p. registers_text p.0 };

    ghost before = { λ p more. registers_text p.0 ++ more };

    ghost most = { 90 };

    ghost joined = { λ p more. refl };

    fn write_at(&self, buffer: &mut [u8], at: usize) -> usize {
        match self.0 {
            Some(registers) => row![
                b" instruction ",
                Prefixed(Hex16(registers.instruction)),
                b" stack ",
                Prefixed(Hex16(registers.stack)),
                b" frame ",
                Prefixed(Hex16(registers.frame)),
            ]
            .write_at(buffer, at),
            None => at,
        }
    }
}

/// Where a crash is in a module, and the id of its thread.
macro_rules! place_and_thread {
    ($place:expr, $crash:expr) => {
        row![
            b"+",
            Prefixed(ShortHex($place.offset)),
            b", thread ",
            $crash.exception.fields.thread_id,
        ]
    };
}

/// Prints what crashed where, and the id of the thread.
fn print_headline<O: Printer>(
    system: Option<SystemRecord>,
    crash: &Crash,
    owner: &Name<'_>,
    out: &mut O,
) -> Result<(), OutFailed>
    ensures { Puts result (O.state out.old) (headline_text system crash.now owner.now) (O.state out.new) }
{
    let code = CodeWords {
        system,
        code: crash.exception.fields.exception_code,
    };
    match crash.holder {
        Some(place) => print_around(
            out,
            &row![code, b" at "],
            &FileName(owner),
            &place_and_thread![place, crash],
        ),
        None => print_near(code, crash, owner, out),
    }
}

/// Prints what crashed where no module is, and the id of the thread.
fn print_near<O: Printer>(
    code: CodeWords,
    crash: &Crash,
    owner: &Name<'_>,
    out: &mut O,
) -> Result<(), OutFailed>
    ensures { Puts result (O.state out.old) (near_text (code_text code.system code.code) crash.now owner.now) (O.state out.new) }
{
    let address = Prefixed(Hex16(crash.address));
    match crash.near {
        Some(place) => print_around(
            out,
            &row![code, b" at ", address, b" near "],
            &FileName(owner),
            &place_and_thread![place, crash],
        ),
        None => out.print(&row![
            code,
            b" at ",
            address,
            b", thread ",
            crash.exception.fields.thread_id,
        ]),
    }
}

/// Prints the lines of a crash.
pub(crate) fn print_crash<O: Printer>(
    system: Option<SystemRecord>,
    crash: &Crash,
    owner: &Name<'_>,
    thread: &Name<'_>,
    out: &mut O,
) -> Result<(), OutFailed>
    ensures { Puts result (O.state out.old) (crash_text system crash.now owner.now thread.now) (O.state out.new) }
{
    print_headline(system, crash, owner, out)?;
    NameOfThread(thread).print(out)?;
    let fields = &crash.exception.fields;
    out.print(&row![
        b"\n  code ",
        Prefixed(Hex8(fields.exception_code)),
        b" flags ",
        Prefixed(Hex8(fields.exception_flags)),
        FlagsWords {
            front: b" ",
            system,
            code: fields.exception_code,
            flags: fields.exception_flags,
        },
        ReachedLine(crash.reached),
        b"\n  address ",
        Prefixed(Hex16(fields.exception_address)),
        RegistersWords(crash.registers),
    ])
}
