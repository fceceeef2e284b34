//! Codes of one Mach exception, on ARM and ARM64. Made by bindings/generate from bindings/names.toml.
ghost use Rattle.std.specs.Prelude.{◌≡◌, ◌≤◌, IfSome, length};
ghost use Rattle.std.specs.Option.{option_map};
ghost use Rattle.mdmp_names.specs.MachArmCodes.{mach_arm_code};

use crate::table::flags_in;

/// The code of an exception, its flags, and their name.
static MACH_ARM_CODES: [(u32, u32, &str); 13] = [
    (1, 0x101, "EXC_ARM_DA_ALIGN"),
    (1, 0x102, "EXC_ARM_DA_DEBUG"),
    (1, 0x103, "EXC_ARM_SP_ALIGN"),
    (1, 0x104, "EXC_ARM_SWP"),
    (1, 0x105, "EXC_ARM_PAC_FAIL"),
    (2, 0x001, "EXC_ARM_UNDEFINED"),
    (3, 0x001, "EXC_ARM_FP_IO"),
    (3, 0x002, "EXC_ARM_FP_DZ"),
    (3, 0x003, "EXC_ARM_FP_OF"),
    (3, 0x004, "EXC_ARM_FP_UF"),
    (3, 0x005, "EXC_ARM_FP_IX"),
    (3, 0x006, "EXC_ARM_FP_ID"),
    (6, 0x001, "EXC_ARM_BREAKPOINT"),
];

/// The name of the flags of an exception with this code.
pub(crate) fn mach_arm_code(code: u32, flags: u32) -> Option<&'static str>
    ensures named { option_map (λ name. name.now) result ≡ mach_arm_code code flags }
    ensures short { IfSome result (λ name. length name.now ≤ 64) }
{
    flags_in(&MACH_ARM_CODES, code, flags)
}
