//! Processor architectures. Made by bindings/generate from bindings/names.toml.
ghost use Rattle.std.specs.Prelude.{◌≡◌, ◌≤◌, IfSome, length};
ghost use Rattle.std.specs.Option.{option_map};
ghost use Rattle.mdmp_names.specs.Architectures.{architecture_words};

use crate::table::name_in;

/// A number, and its name.
static ARCHITECTURES: [(u32, &str); 22] = [
    (0, "x86"),
    (1, "MIPS"),
    (2, "Alpha"),
    (3, "PowerPC"),
    (4, "SuperH"),
    (5, "ARM"),
    (6, "IA-64"),
    (7, "64-bit Alpha"),
    (8, "MSIL"),
    (9, "x64"),
    (10, "x86 on x64"),
    (11, "any processor"),
    (12, "ARM64"),
    (13, "ARM on 64-bit Windows"),
    (14, "x86 on ARM64"),
    (0x8001, "SPARC"),
    (0x8002, "64-bit PowerPC"),
    (0x8003, "ARM64"),
    (0x8004, "64-bit MIPS"),
    (0x8005, "RISC-V"),
    (0x8006, "64-bit RISC-V"),
    (0xFFFF, "unknown processor"),
];

/// What a processor architecture is called.
pub fn architecture_words(number: u16) -> Option<&'static str>
    ensures named { option_map (λ name. name.now) result ≡ architecture_words number }
    ensures short { IfSome result (λ name. length name.now ≤ 64) }
{
    name_in(&ARCHITECTURES, u32::from(number))
}
