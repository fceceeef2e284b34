//! The threads in the object of a summary.
ghost use Rattle.std.specs.Prelude.{◌++◌, refl};
ghost use Rattle.mdmp_source.specs.Output.{Puts};
ghost use Rattle.mdmp_summary_lines.specs.JsonThreads.{frame_text, thread_object_text, threads_front_text};

use crate::json_modules::CommaUnless;
use crate::json_text::NameString;
use mdmp_lister::Name;
use mdmp_print::{Hex16, InQuotes, Piece, Prefixed, Printer, print_around, row};
use mdmp_source::OutFailed;
use mdmp_summary::Registers;

/// The frame that the context of a thread tells, if it does.
#[derive(Clone, Copy)]
struct ContextFrame(Option<Registers>);

impl Piece for ContextFrame {
    ghost text = { λ p. frame_text p.0 };

    ghost before = { λ p more. frame_text p.0 ++ more };

    ghost most = { 70 };

    ghost joined = { λ p more. refl };

    fn write_at(&self, buffer: &mut [u8], at: usize) -> usize {
        match self.0 {
            Some(registers) => row![
                b"{\"frame\":0,\"offset\":",
                InQuotes(Prefixed(Hex16(registers.instruction))),
                b",\"trust\":\"context\"}",
            ]
            .write_at(buffer, at),
            None => at,
        }
    }
}

/// Prints what stands between the modules and the threads of a summary.
pub fn print_threads_front<O: Printer>(out: &mut O) -> Result<(), OutFailed>
    ensures { Puts result (O.state out.old) threads_front_text (O.state out.new) }
{
    out.print(&b"],\"threads\":[")
}

/// Prints the object of a thread. A comma comes first, unless `is_first` is true. The registers of its context, if
/// they are known, are its only frame.
pub fn print_thread_object<O: Printer>(
    is_first: bool,
    thread_id: u32,
    name: &Name<'_>,
    registers: Option<Registers>,
    out: &mut O,
) -> Result<(), OutFailed>
    ensures { Puts result (O.state out.old) (thread_object_text is_first thread_id name.now registers) (O.state out.new) }
{
    print_around(
        out,
        &row![
            CommaUnless { is_first },
            b"{\"thread_id\":",
            thread_id,
            b",\"thread_name\":",
        ],
        &NameString(name),
        &row![b",\"frames\":[", ContextFrame(registers), b"]}"],
    )
}
