//! What a command comes to, reported: a line, and the exit status.
ghost use Rattle.std.specs.Prelude.{◌≡◌};
ghost use Rattle.mdmp_engines.specs.Reports.{IsCheckEnd, IsEnd, IsSummaryEnd};

use crate::fault::{ToolFault, status};
use crate::fault_lines::{fault_line, named_fault_line};
use mdmp_print::{print_error, row};
use mdmp_source::Out;

/// Writes the line of an error to `err`, or nothing on success, and returns the exit status: 0, or that of
/// [`status`]. If `err` refuses, the status is the same.
pub fn report<T: Copy, W: Out>(answer: Result<T, ToolFault>, err: &mut W) -> u8
    ensures { IsEnd answer result (W.state err.old) (W.state err.new) }
{
    match answer {
        Ok(_) => 0,
        Err(fault) => {
            let _ = fault_line(&fault, err);
            status(&fault)
        }
    }
}

/// Reports the error of a check, or how many entries are bad, and returns the exit status.
pub(crate) fn report_check<W: Out>(answer: Result<u64, ToolFault>, err: &mut W) -> u8
    ensures { IsCheckEnd answer result (W.state err.old) (W.state err.new) }
{
    match answer {
        Ok(0) => 0,
        Ok(bad) => {
            let _ = print_error(err, row![bad, b" bad entries"]);
            1
        }
        Err(fault) => report::<u64, W>(Err(fault), err),
    }
}

/// Reports the error of a summary behind the name of its file, and returns the exit status: 1 if entries are bad, of
/// which the summary tells.
pub fn report_summary<W: Out>(answer: Result<u64, ToolFault>, file: &[u8], err: &mut W) -> u8
    ensures { IsSummaryEnd file.now answer result (W.state err.old) (W.state err.new) }
{
    match answer {
        Ok(0) => 0,
        Ok(_) => 1,
        Err(fault) => {
            let _ = named_fault_line(file, &fault, err);
            status(&fault)
        }
    }
}
