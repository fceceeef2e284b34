//! Codes of any signal. Made by bindings/generate from bindings/names.toml.
ghost use Rattle.std.specs.Prelude.{◌≡◌, ◌≤◌, IfSome, length};
ghost use Rattle.std.specs.Option.{option_map};
ghost use Rattle.mdmp_names.specs.SiCodes.{signal_code};

use crate::table::name_in;

/// A number, and its name.
static SI_CODES: [(u32, &str); 10] = [
    (0x00000000, "SI_USER"),
    (0x00000080, "SI_KERNEL"),
    (0xFFFFFFC4, "SI_ASYNCNL"),
    (0xFFFFFFF9, "SI_DETHREAD"),
    (0xFFFFFFFA, "SI_TKILL"),
    (0xFFFFFFFB, "SI_SIGIO"),
    (0xFFFFFFFC, "SI_ASYNCIO"),
    (0xFFFFFFFD, "SI_MESGQ"),
    (0xFFFFFFFE, "SI_TIMER"),
    (0xFFFFFFFF, "SI_QUEUE"),
];

/// The name of a code of any signal.
pub(crate) fn signal_code(number: u32) -> Option<&'static str>
    ensures named { option_map (λ name. name.now) result ≡ signal_code number }
    ensures short { IfSome result (λ name. length name.now ≤ 64) }
{
    name_in(&SI_CODES, number)
}
