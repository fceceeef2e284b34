//! The system in the object of a summary.
ghost use Rattle.std.specs.Prelude.{◌≡◌, ◌≤◌, ◌++◌, IfSome, length, refl};
ghost use Rattle.std.specs.Option.{option_map};
ghost use Rattle.mdmp_summary_lines.specs.JsonSystem.{cpu_word, system_info_text, system_object_text};
ghost use Rattle.mdmp_summary_lines.specs.JsonText.{word_or_null};

use crate::number_words::{PlatformString, put_string};
use mdmp_print::{Build, InQuotes, Piece, row};
use mdmp_wire::SystemRecord;

/// What minidump-stackwalk calls a processor architecture.
fn cpu_word(architecture: u16) -> Option<&'static str>
    ensures named { option_map (λ name. name.now) result ≡ cpu_word architecture }
    ensures short { IfSome result (λ name. length name.now ≤ 64) }
{
    match architecture {
        0 | 10 => Some("x86"),
        9 => Some("amd64"),
        5 => Some("arm"),
        12 | 0x8003 => Some("arm64"),
        _ => None,
    }
}

/// That as a string, if it has a name.
#[derive(Clone, Copy)]
struct CpuString(u16);

impl Piece for CpuString {
    ghost text = { λ p. word_or_null (cpu_word p.0) };

    ghost before = { λ p more. word_or_null (cpu_word p.0) ++ more };

    ghost most = { 66 };

    ghost joined = { λ p more. refl };

    fn write_at(&self, buffer: &mut [u8], at: usize) -> usize {
        put_string(buffer, at, cpu_word(self.0))
    }
}

/// The system with the keys of minidump-stackwalk, if it is known.
#[derive(Clone, Copy)]
pub(crate) struct SystemInfo(pub(crate) Option<SystemRecord>);

impl Piece for SystemInfo {
    ghost text = { λ p. system_info_text p.0 };

    ghost before = { λ p more. system_info_text p.0 ++ more };

    ghost most = { 240 };

    ghost joined = { λ p more. refl };

    fn write_at(&self, buffer: &mut [u8], at: usize) -> usize {
        match self.0 {
            Some(system) => row![
                b"{\"os\":",
                PlatformString(system.platform_id),
                b",\"os_ver\":",
                InQuotes(Build(
                    system.major_version,
                    system.minor_version,
                    system.build_number
                )),
                b",\"cpu_arch\":",
                CpuString(system.processor_architecture),
                b",\"cpu_count\":",
                u32::from(system.number_of_processors),
                b"}",
            ]
            .write_at(buffer, at),
            None => b"null".write_at(buffer, at),
        }
    }
}

/// The system with all its numbers, if it is known.
#[derive(Clone, Copy)]
pub(crate) struct SystemObject(pub(crate) Option<SystemRecord>);

impl Piece for SystemObject {
    ghost text = { λ p. system_object_text p.0 };

    ghost before = { λ p more. system_object_text p.0 ++ more };

    ghost most = { 330 };

    ghost joined = { λ p more. refl };

    fn write_at(&self, buffer: &mut [u8], at: usize) -> usize {
        match self.0 {
            Some(system) => row![
                b"{\"platform_id\":",
                system.platform_id,
                b",\"processor_architecture\":",
                u32::from(system.processor_architecture),
                b",\"processor_level\":",
                u32::from(system.processor_level),
                b",\"processor_revision\":",
                u32::from(system.processor_revision),
                b",\"number_of_processors\":",
                u32::from(system.number_of_processors),
                b",\"product_type\":",
                u32::from(system.product_type),
                b",\"major_version\":",
                system.major_version,
                b",\"minor_version\":",
                system.minor_version,
                b",\"build_number\":",
                system.build_number,
                b",\"suite_mask\":",
                u32::from(system.suite_mask),
                b"}",
            ]
            .write_at(buffer, at),
            None => b"null".write_at(buffer, at),
        }
    }
}
