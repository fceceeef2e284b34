//! Codes of one Mach exception, on x86 and x64. Made by bindings/generate from bindings/names.toml.
ghost use Rattle.std.specs.Prelude.{◌≡◌, ◌≤◌, IfSome, length};
ghost use Rattle.std.specs.Option.{option_map};
ghost use Rattle.mdmp_names.specs.MachX86Codes.{mach_x86_code};

use crate::table::flags_in;

/// The code of an exception, its flags, and their name.
static MACH_X86_CODES: [(u32, u32, &str); 15] = [
    (1, 13, "EXC_I386_GPFLT"),
    (2, 1, "EXC_I386_INVOP"),
    (2, 10, "EXC_I386_INVTSSFLT"),
    (2, 11, "EXC_I386_SEGNPFLT"),
    (2, 12, "EXC_I386_STKFLT"),
    (3, 1, "EXC_I386_DIV"),
    (3, 2, "EXC_I386_INTO"),
    (3, 3, "EXC_I386_NOEXT"),
    (3, 4, "EXC_I386_EXTOVR"),
    (3, 5, "EXC_I386_EXTERR"),
    (3, 6, "EXC_I386_EMERR"),
    (3, 7, "EXC_I386_BOUND"),
    (3, 8, "EXC_I386_SSEEXTERR"),
    (6, 1, "EXC_I386_SGL"),
    (6, 2, "EXC_I386_BPT"),
];

/// The name of the flags of an exception with this code.
pub(crate) fn mach_x86_code(code: u32, flags: u32) -> Option<&'static str>
    ensures named { option_map (λ name. name.now) result ≡ mach_x86_code code flags }
    ensures short { IfSome result (λ name. length name.now ≤ 64) }
{
    flags_in(&MACH_X86_CODES, code, flags)
}
