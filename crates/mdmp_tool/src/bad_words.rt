//! Words of a command line that are bad, told with what was expected.
ghost use Rattle.std.specs.Prelude.{◌≡◌, ◌++◌, option_map, refl};
ghost use Rattle.mdmp_source.specs.Output.{Puts};
ghost use Rattle.mdmp_print.specs.Lines.{error_line};
ghost use Rattle.mdmp_engines.specs.Reports.{IsLineTold};
ghost use Rattle.mdmp_tool.specs.BadWordText.{bad_word_text, bounds_text, expected_text, hint_line, meant_type, place_name};

use crate::shown::ShownText;
use mdmp_print::{LongBytes, Piece, Printer, print_around, row};
use mdmp_source::{Out, OutFailed};
use mdmp_words::{BadWord, NumberBounds, WordPlace, bounds_of, nearest_type};

/// Tells the word that is bad, and what was expected, and returns the exit status.
pub(crate) fn refuse_word<E: Out>(bad: BadWord<'_>, err: &mut E) -> u8
    ensures status { result ≡ 2 }
    ensures told { IsLineTold (E.state err.old) (bad_word_text bad.entry.place bad.entry.word.now) (E.state err.new) }
{
    let _ = print_bad_word(bad.place, bad.word, err);
    2
}

/// Prints the line of a bad word.
fn print_bad_word<O: Printer>(place: WordPlace, word: &str, out: &mut O) -> Result<(), OutFailed>
    ensures { Puts result (O.state out.old) (error_line (bad_word_text place word.now)) (O.state out.new) }
{
    print_around(
        out,
        &row![b"mdmp: bad command line: ", PlaceName(place), b" '"],
        &ShownText(word.as_bytes()),
        &row![b"': expected ", Expected(place)],
    )?;
    print_hint(meant_type(place, word), out)
}

/// The type that was probably meant by a bad word.
fn meant_type(place: WordPlace, word: &str) -> Option<&'static str>
    ensures { option_map (λ name. name.now) result ≡ meant_type place word.now }
{
    match place {
        WordPlace::StreamType => nearest_type(word),
        WordPlace::Window
        | WordPlace::Name
        | WordPlace::Budget
        | WordPlace::Memory
        | WordPlace::Aside
        | WordPlace::Address
        | WordPlace::Length => None,
    }
}

/// Prints the end of the line: the name that was probably meant, if there is one.
fn print_hint<O: Printer>(hint: Option<&'static str>, out: &mut O) -> Result<(), OutFailed>
    ensures { Puts result (O.state out.old) (hint_line (option_map (λ name. name.now) hint.entry)) (O.state out.new) }
{
    match hint {
        Some(name) => {
            let name = name.as_bytes();
            print_around(
                out,
                &row![b"; did you mean "],
                &LongBytes(name),
                &row![b"?\n"],
            )
        }
        None => out.print(&row![b"\n"]),
    }
}

/// The name of a place: its option, or its name in the help.
#[derive(Clone, Copy)]
struct PlaceName(WordPlace);

impl Piece for PlaceName {
    ghost text = { λ p. place_name p.0 };

    ghost before = { λ p more. place_name p.0 ++ more };

    ghost most = { 8 };

    ghost joined = { λ p more. refl };

    fn write_at(&self, buffer: &mut [u8], at: usize) -> usize {
        match self.0 {
            WordPlace::Window => b"--window".write_at(buffer, at),
            WordPlace::Name => b"--name".write_at(buffer, at),
            WordPlace::Budget => b"--budget".write_at(buffer, at),
            WordPlace::Memory => b"--memory".write_at(buffer, at),
            WordPlace::Aside => b"--aside".write_at(buffer, at),
            WordPlace::Address => b"ADDRESS".write_at(buffer, at),
            WordPlace::Length => b"LENGTH".write_at(buffer, at),
            WordPlace::StreamType => b"TYPE".write_at(buffer, at),
        }
    }
}

/// What is expected at a place.
#[derive(Clone, Copy)]
struct Expected(WordPlace);

impl Piece for Expected {
    ghost text = { λ p. expected_text p.0 };

    ghost before = { λ p more. expected_text p.0 ++ more };

    ghost most = { 100 };

    ghost joined = { λ p more. refl };

    fn write_at(&self, buffer: &mut [u8], at: usize) -> usize {
        match self.0 {
            WordPlace::StreamType => b"the number or the name of a stream type".write_at(
                buffer, at,
            ),
            WordPlace::Address => {
                b"'0x' and 1 to 16 hexadecimal digits, a decimal number, or 00000000`7ffe0000".write_at(
                    buffer, at,
                )
            }
            WordPlace::Window
            | WordPlace::Name
            | WordPlace::Budget
            | WordPlace::Memory
            | WordPlace::Aside
            | WordPlace::Length => BoundsWords(bounds_of(self.0)).write_at(buffer, at),
        }
    }
}

/// Which numbers are expected.
#[derive(Clone, Copy)]
struct BoundsWords(Option<NumberBounds>);

impl Piece for BoundsWords {
    ghost text = { λ p. bounds_text p.0 };

    ghost before = { λ p more. bounds_text p.0 ++ more };

    ghost most = { 98 };

    ghost joined = { λ p more. refl };

    fn write_at(&self, buffer: &mut [u8], at: usize) -> usize {
        match self.0 {
            Some(bounds) => {
                row![b"a decimal number, ", bounds.least, b" to ", bounds.most].write_at(buffer, at)
            }
            None => at,
        }
    }
}
