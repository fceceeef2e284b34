//! Whether a file is good.
ghost use Rattle.std.specs.Prelude.{◌++◌, refl};
ghost use Rattle.mdmp_summary_lines.specs.HealthText.{bad_count_text, health_text, parts_count_text};

use mdmp_print::{ListWords, OutsideWords, Piece, row};
use mdmp_summary::{BadEntries, PartsOutside};

/// The line that says whether a file is good.
#[derive(Clone, Copy)]
pub(crate) struct HealthLine {
    pub(crate) bad: BadEntries,
    pub(crate) outside: PartsOutside,
}

impl Piece for HealthLine {
    ghost text = { λ p. health_text p.bad p.outside };

    ghost before = { λ p more. health_text p.bad p.outside ++ more };

    ghost most = { 320 };

    ghost joined = { λ p more. refl };

    fn write_at(&self, buffer: &mut [u8], at: usize) -> usize {
        match self.bad.first {
            Some(fault) => row![
                b"\n  file damaged, ",
                BadCount(self.bad.count),
                b": ",
                ListWords(fault),
            ]
            .write_at(buffer, at),
            None => match self.outside.first {
                Some(part) => row![
                    b"\n  file readable, ",
                    PartsCount(self.outside.count),
                    b" outside the file: ",
                    OutsideWords(part),
                ]
                .write_at(buffer, at),
                None => b"\n  file good".write_at(buffer, at),
            },
        }
    }
}

/// How many entries are bad.
#[derive(Clone, Copy)]
struct BadCount(u64);

impl Piece for BadCount {
    ghost text = { λ p. bad_count_text p.0 };

    ghost before = { λ p more. bad_count_text p.0 ++ more };

    ghost most = { 40 };

    ghost joined = { λ p more. refl };

    fn write_at(&self, buffer: &mut [u8], at: usize) -> usize {
        if self.0 == 1 {
            return b"1 bad entry".write_at(buffer, at);
        }
        row![self.0, b" bad entries"].write_at(buffer, at)
    }
}

/// How many parts there are.
#[derive(Clone, Copy)]
struct PartsCount(u128);

impl Piece for PartsCount {
    ghost text = { λ p. parts_count_text p.0 };

    ghost before = { λ p more. parts_count_text p.0 ++ more };

    ghost most = { 50 };

    ghost joined = { λ p more. refl };

    fn write_at(&self, buffer: &mut [u8], at: usize) -> usize {
        if self.0 == 1 {
            return b"1 part".write_at(buffer, at);
        }
        row![self.0, b" parts"].write_at(buffer, at)
    }
}
