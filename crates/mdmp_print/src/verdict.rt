//! The line of a verdict: that an entry is good, or its fault.
ghost use Rattle.mdmp_source.specs.Output.{Puts};
ghost use Rattle.mdmp_print.specs.Forms.{verdict_line_in};
ghost use Rattle.mdmp_print.specs.Json.{object_line};
ghost use Rattle.mdmp_print.specs.JsonLines.{verdict_object};
ghost use Rattle.mdmp_print.specs.VerdictLines.{verdict_line};

use crate::fault_words::{ItemMember, KindWords, ListWords};
use crate::form::LineForm;
use crate::object_line::print_object;
use crate::printer::Printer;
use crate::values::{InQuotes, JsonMember, NextMember, Null, Object};
use crate::{members, row};
use mdmp_lister::Verdict;
use mdmp_source::OutFailed;

/// Prints the line of a verdict.
pub fn print_verdict<O: Printer>(
    form: LineForm,
    verdict: &Verdict,
    out: &mut O,
) -> Result<(), OutFailed>
    ensures { Puts result (O.state out.old) (verdict_line_in form verdict.now) (O.state out.new) }
{
    match form {
        LineForm::Text => print_text(verdict, out),
        LineForm::Json => print_json(verdict, out),
    }
}

fn print_text<O: Printer>(verdict: &Verdict, out: &mut O) -> Result<(), OutFailed>
    ensures { Puts result (O.state out.old) (verdict_line verdict.now) (O.state out.new) }
{
    match verdict.fault {
        None => out.print(&(row![b"entry ", verdict.entry, b": ok"], b"\n")),
        Some(fault) => out.print(&(ListWords(fault), b"\n")),
    }
}

fn print_json<O: Printer>(verdict: &Verdict, out: &mut O) -> Result<(), OutFailed>
    ensures { Puts result (O.state out.old) (object_line (verdict_object verdict.now)) (O.state out.new) }
{
    match verdict.fault {
        None => print_object(
            out,
            b"entry",
            members![
                JsonMember(b"entry", verdict.entry),
                JsonMember(b"fault", Null)
            ],
        ),
        Some(fault) => print_object(
            out,
            b"entry",
            members![
                JsonMember(b"entry", verdict.entry),
                JsonMember(
                    b"fault",
                    Object(
                        JsonMember(b"kind", InQuotes(KindWords(fault.kind))),
                        row![
                            ItemMember(fault.index),
                            NextMember(JsonMember(b"offset", InQuotes(fault.offset))),
                            NextMember(JsonMember(b"size", InQuotes(fault.size))),
                        ]
                    )
                ),
            ],
        ),
    }
}
