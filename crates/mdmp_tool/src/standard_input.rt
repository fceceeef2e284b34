//! The name of standard input, how much of it is read, and how a fault of it is told.
ghost use Rattle.std.specs.Prelude.{◌≡◌};
ghost use Rattle.mdmp_tool.specs.Words.{input_fault, input_most, is_input};

use mdmp_disk::InputRefused;
use mdmp_engines::ToolFault;
use mdmp_lister::Limits;
use mdmp_source::SourceFault;

/// How many bytes of standard input are read at most if memory has no limit: 64 MiB.
const INPUT_MOST: u64 = 64 << 20;

/// Whether the FILE of this name is standard input.
pub(crate) fn is_input(file: &str) -> bool
    ensures { result ≡ is_input file.now }
{
    file == "-"
}

/// How many bytes of standard input are read at most, by the limit of memory.
pub(crate) fn input_most(limits: Limits) -> u64
    ensures { result ≡ input_most limits }
{
    limits.memory.unwrap_or(INPUT_MOST)
}

/// Why standard input of at most so many bytes was not read, as a command tells it. The bytes behind the first that is
/// too many are not counted.
pub(crate) fn input_fault(most: u64, why: InputRefused) -> ToolFault
    ensures { result ≡ input_fault most why }
{
    match why {
        InputRefused::Failed { at } => ToolFault::Source(SourceFault::Failed { at }),
        InputRefused::TooLong => ToolFault::MemoryLimit {
            held: most as u128 + 1,
        },
        InputRefused::Memory => ToolFault::Memory,
    }
}
