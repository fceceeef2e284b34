//! Codes of one Mach exception. Made by bindings/generate from bindings/names.toml.
ghost use Rattle.std.specs.Prelude.{◌≡◌, ◌≤◌, IfSome, length};
ghost use Rattle.std.specs.Option.{option_map};
ghost use Rattle.mdmp_names.specs.MachCodes.{mach_code};

use crate::table::flags_in;

/// The code of an exception, its flags, and their name.
static MACH_CODES: [(u32, u32, &str); 10] = [
    (1, 0x00001, "KERN_INVALID_ADDRESS"),
    (1, 0x00002, "KERN_PROTECTION_FAILURE"),
    (1, 0x00008, "KERN_NO_ACCESS"),
    (1, 0x00009, "KERN_MEMORY_FAILURE"),
    (1, 0x0000A, "KERN_MEMORY_ERROR"),
    (1, 0x00032, "KERN_CODESIGN_ERROR"),
    (5, 0x10000, "EXC_UNIX_BAD_SYSCALL"),
    (5, 0x10001, "EXC_UNIX_BAD_PIPE"),
    (5, 0x10002, "EXC_UNIX_ABORT"),
    (5, 0x10003, "EXC_SOFT_SIGNAL"),
];

/// The name of the flags of an exception with this code.
pub(crate) fn mach_code(code: u32, flags: u32) -> Option<&'static str>
    ensures named { option_map (λ name. name.now) result ≡ mach_code code flags }
    ensures short { IfSome result (λ name. length name.now ≤ 64) }
{
    flags_in(&MACH_CODES, code, flags)
}
