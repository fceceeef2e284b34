//! The end of the object of a summary.
ghost use Rattle.std.specs.Prelude.{◌≡◌, ◌++◌, refl};
ghost use Rattle.mdmp_source.specs.Output.{Puts};
ghost use Rattle.mdmp_summary_lines.specs.JsonEnd.{crash_info_text, fault_address, summary_end_text};

use crate::json_text::IndexOrNull;
use crate::number_words::{CodeWords, FlagsWords};
use mdmp_print::{Hex16, InQuotes, Piece, Prefixed, Printer, row};
use mdmp_source::OutFailed;
use mdmp_summary::Crash;
use mdmp_wire::SystemRecord;

/// The address that a thread tried to reach, or that of the exception.
fn fault_address(crash: &Crash) -> u64
    ensures { result ≡ fault_address crash.now.reached crash.now.exception.fields }
{
    match crash.reached {
        Some(reached) => reached.address,
        None => crash.exception.fields.exception_address,
    }
}

/// The crash with the keys of minidump-stackwalk, if there is one.
#[derive(Clone, Copy)]
struct CrashInfo {
    system: Option<SystemRecord>,
    crash: Option<Crash>,
    crashing_thread: Option<u64>,
}

impl Piece for CrashInfo {
    ghost text = { λ p. crash_info_text p.system p.crash p.crashing_thread };

    ghost before = { λ p more. crash_info_text p.system p.crash p.crashing_thread ++ more };

    ghost most = { 240 };

    ghost joined = { λ p more. refl };

    fn write_at(&self, buffer: &mut [u8], at: usize) -> usize {
        let Some(crash) = self.crash else {
            return b"null".write_at(buffer, at);
        };
        let system = self.system;
        let code = crash.exception.fields.exception_code;
        let flags = FlagsWords {
            front: b" / ",
            system,
            code,
            flags: crash.exception.fields.exception_flags,
        };
        row![
            b"{\"type\":",
            InQuotes((CodeWords { system, code }, flags)),
            b",\"address\":",
            InQuotes(Prefixed(Hex16(fault_address(&crash)))),
            b",\"crashing_thread\":",
            IndexOrNull(self.crashing_thread),
            b"}",
        ]
        .write_at(buffer, at)
    }
}

/// Prints the last part of the object of a summary: the crash, and a line feed. `crashing_thread` is the index among
/// the threads of the thread that crashed.
pub fn print_summary_end<O: Printer>(
    crash: &Option<Crash>,
    system: &Option<SystemRecord>,
    crashing_thread: Option<u64>,
    out: &mut O,
) -> Result<(), OutFailed>
    ensures { Puts result (O.state out.old) (summary_end_text crash.now system.now crashing_thread) (O.state out.new) }
{
    let info = CrashInfo {
        system: *system,
        crash: *crash,
        crashing_thread,
    };
    out.print(&row![b"],\"crash_info\":", info, b"}\n"])
}
