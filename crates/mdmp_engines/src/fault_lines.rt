//! The lines that tell faults.
ghost use Rattle.mdmp_source.specs.Output.{Puts};
ghost use Rattle.mdmp_print.specs.Lines.{error_line};
ghost use Rattle.mdmp_engines.specs.Faults.{fault_text};
ghost use Rattle.mdmp_engines.specs.Reports.{file_fault_text};

use crate::fault::{ToolFault, fault_as_told};
use crate::fault_words::ToolWords;
use mdmp_print::{LongBytes, print_around, print_error, row};
use mdmp_source::{Out, OutFailed};

/// Writes the line of a fault, `mdmp: ` and what it says; a fault of the store or the budget and want of memory
/// say the same inside `Opening`, `List` or `Reading`. Where the output refuses, the first part of the line
/// went out.
pub fn fault_line<O: Out>(fault: &ToolFault, out: &mut O) -> Result<(), OutFailed>
    ensures { Puts result (O.state out.old) (error_line (fault_text fault.now)) (O.state out.new) }
{
    print_error(out, ToolWords(fault_as_told(*fault)))
}

/// Writes the line of a fault behind the name of its file, `mdmp: <file>: ` and what it says. If the output refuses,
/// the first part of the line went out.
pub(crate) fn named_fault_line<O: Out>(
    file: &[u8],
    fault: &ToolFault,
    out: &mut O,
) -> Result<(), OutFailed>
    ensures { Puts result (O.state out.old) (error_line (file_fault_text file.now fault.now)) (O.state out.new) }
{
    print_around(
        out,
        &row![b"mdmp: "],
        &LongBytes(file),
        &row![b": ", ToolWords(fault_as_told(*fault)), b"\n"],
    )
}
