//! The system of a dump, and when the dump was written.
ghost use Rattle.std.specs.Prelude.{◌++◌, refl};
ghost use Rattle.mdmp_summary_lines.specs.SummaryText.{system_text, written_text};

use crate::number_words::{ArchitectureWords, PlatformWords};
use mdmp_print::{Build, Piece, row};
use mdmp_wire::SystemRecord;

/// The line of a system, if there is one.
#[derive(Clone, Copy)]
pub(crate) struct SystemLine(pub(crate) Option<SystemRecord>);

impl Piece for SystemLine {
    ghost text = { λ p. system_text p.0 };

    ghost before = { λ p more. system_text p.0 ++ more };

    ghost most = { 260 };

    ghost joined = { λ p more. refl };

    fn write_at(&self, buffer: &mut [u8], at: usize) -> usize {
        match self.0 {
            Some(system) => row![
                b"\n  system ",
                PlatformWords(system.platform_id),
                b" ",
                Build(
                    system.major_version,
                    system.minor_version,
                    system.build_number
                ),
                b", ",
                ArchitectureWords(system.processor_architecture),
                b", processors ",
                u32::from(system.number_of_processors),
            ]
            .write_at(buffer, at),
            None => at,
        }
    }
}

/// When a dump was written.
#[derive(Clone, Copy)]
pub(crate) struct WrittenLine(pub(crate) u32);

impl Piece for WrittenLine {
    ghost text = { λ p. written_text p.0 };

    ghost before = { λ p more. written_text p.0 ++ more };

    ghost most = { 50 };

    ghost joined = { λ p more. refl };

    fn write_at(&self, buffer: &mut [u8], at: usize) -> usize {
        if self.0 == 0 {
            return b"\n  written not set".write_at(buffer, at);
        }
        row![b"\n  written ", self.0, b" seconds after 1970 in UTC"].write_at(buffer, at)
    }
}
