//! The call that gives the words of a fault.
ghost use Rattle.std.specs.Prelude.{◌≡◌, Some};
ghost use Rattle.mdmp_engines.specs.declared.fault.ToolFault.{ToolFault};
ghost use Rattle.mdmp_engines.specs.Faults.{fault_text};
ghost use Rattle.mdmp_c.specs.FaultText.{FitsTool, TellsWords, words_of};
ghost use Rattle.mdmp_c.specs.ToolFault.{tool_fault};

use crate::fault::PlainFault;
use crate::wording::give_words;
use std::alloc::Global;

/// Gives the message of an error, as the command prints it, without `mdmp: ` before it or a line feed after
/// it. The message of no error is empty. An error that no call reports is a bad argument.
#[unsafe(no_mangle)]
pub extern "C" fn mdmp_fault_text_(
    alloc: Global,
    fault: &PlainFault,
    out: &mut [u8],
    size: &mut u64,
) -> u32
    ensures tells { TellsWords fault.now result size.new out.old out.new }
    ensures words { (f : ToolFault) → FitsTool f → fault.now ≡ tool_fault f → words_of fault.now ≡ Some (fault_text f) }
{
    give_words(alloc, fault, out, size)
}
