//! How much a dump has.
ghost use Rattle.std.specs.Prelude.{◌++◌, refl};
ghost use Rattle.mdmp_summary_lines.specs.SummaryText.{counts_text};

use mdmp_print::{Piece, row};
use mdmp_summary::ItemCounts;

/// How many items of each kind a dump has, and how many bytes of memory.
#[derive(Clone, Copy)]
pub(crate) struct CountsLine(pub(crate) ItemCounts);

impl Piece for CountsLine {
    ghost text = { λ p. counts_text p.0 };

    ghost before = { λ p more. counts_text p.0 ++ more };

    ghost most = { 300 };

    ghost joined = { λ p more. refl };

    fn write_at(&self, buffer: &mut [u8], at: usize) -> usize {
        let counts = self.0;
        row![
            b"\n  streams ",
            counts.streams,
            b" threads ",
            counts.threads,
            b" modules ",
            counts.modules,
            b" exceptions ",
            counts.exceptions,
            b" ranges ",
            counts.ranges,
            b" memory ",
            counts.memory,
        ]
        .write_at(buffer, at)
    }
}
