//! Platforms. Made by bindings/generate from bindings/names.toml.
ghost use Rattle.std.specs.Prelude.{◌≡◌, ◌≤◌, IfSome, length};
ghost use Rattle.std.specs.Option.{option_map};
ghost use Rattle.mdmp_names.specs.Platforms.{platform_words};

use crate::table::name_in;

/// A number, and its name.
static PLATFORMS: [(u32, &str); 13] = [
    (0, "Win32s"),
    (1, "Windows 95 to Me"),
    (2, "Windows"),
    (0x0003, "Windows CE"),
    (0x8000, "Unix"),
    (0x8101, "macOS"),
    (0x8102, "iOS"),
    (0x8201, "Linux"),
    (0x8202, "Solaris"),
    (0x8203, "Android"),
    (0x8204, "PS3"),
    (0x8205, "NaCl"),
    (0x8206, "Fuchsia"),
];

/// What a platform is called.
pub fn platform_words(number: u32) -> Option<&'static str>
    ensures named { option_map (λ name. name.now) result ≡ platform_words number }
    ensures short { IfSome result (λ name. length name.now ≤ 64) }
{
    name_in(&PLATFORMS, number)
}
