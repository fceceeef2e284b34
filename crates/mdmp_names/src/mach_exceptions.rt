//! Mach exceptions. Made by bindings/generate from bindings/names.toml.
ghost use Rattle.std.specs.Prelude.{◌≡◌, ◌≤◌, IfSome, length};
ghost use Rattle.std.specs.Option.{option_map};
ghost use Rattle.mdmp_names.specs.MachExceptions.{mach_exception};

use crate::table::name_in;

/// A number, and its name.
static MACH_EXCEPTIONS: [(u32, &str); 15] = [
    (1, "EXC_BAD_ACCESS"),
    (2, "EXC_BAD_INSTRUCTION"),
    (3, "EXC_ARITHMETIC"),
    (4, "EXC_EMULATION"),
    (5, "EXC_SOFTWARE"),
    (6, "EXC_BREAKPOINT"),
    (7, "EXC_SYSCALL"),
    (8, "EXC_MACH_SYSCALL"),
    (9, "EXC_RPC_ALERT"),
    (10, "EXC_CRASH"),
    (11, "EXC_RESOURCE"),
    (12, "EXC_GUARD"),
    (13, "EXC_CORPSE_NOTIFY"),
    (0x43506E78, "kMachExceptionFromNSException"),
    (0x43507378, "kMachExceptionSimulated"),
];

/// The name of a Mach exception.
pub(crate) fn mach_exception(number: u32) -> Option<&'static str>
    ensures named { option_map (λ name. name.now) result ≡ mach_exception number }
    ensures short { IfSome result (λ name. length name.now ≤ 64) }
{
    name_in(&MACH_EXCEPTIONS, number)
}
