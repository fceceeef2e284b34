//! Words that are not what is expected at their place.
ghost use Rattle.std.specs.Prelude.{◌≡◌, option_map, map};
ghost use Rattle.mdmp_words.specs.OptionWords.{texts_of};
ghost use Rattle.mdmp_words.specs.BadWords.{bad_at, bad_limit, bad_type, bounds_of, is_expected, is_number_within, plain_bad};

use crate::number_words::{LENGTH_LIMIT, address_of, decimal_of};
use crate::option_words::LimitWords;
use crate::type_names::type_of;

/// The least window, in bytes: the largest record.
const LEAST_WINDOW: u64 = 168;

/// How many bytes a window and a name have, at most.
const MOST_BYTES: u64 = 1 << 30;

/// Where a word stands that is judged: behind an option that takes a number, or as an argument of `hex` or `copy`.
#[derive(Clone, Copy, Debug, PartialEq, Eq)]
pub enum WordPlace {
    /// Behind `--window`.
    Window,
    /// Behind `--name`.
    Name,
    /// Behind `--budget`.
    Budget,
    /// Behind `--memory`.
    Memory,
    /// Behind `--aside`.
    Aside,
    /// ADDRESS of `hex`.
    Address,
    /// LENGTH of `hex`.
    Length,
    /// A TYPE of `copy`.
    StreamType,
}

/// A word that is not what is expected at its place.
#[derive(Clone, Copy, Debug, PartialEq, Eq)]
pub struct BadWord<'a> {
    /// Where the word stands.
    pub place: WordPlace,
    /// The word, as it was given.
    pub word: &'a str,
}

/// The least and the greatest number that may stand at a place.
#[derive(Clone, Copy, Debug, PartialEq, Eq)]
pub struct NumberBounds {
    /// The least number.
    pub least: u64,
    /// The greatest number.
    pub most: u64,
}

/// The numbers that may stand at a place, if it takes a decimal number.
pub fn bounds_of(place: WordPlace) -> Option<NumberBounds>
    ensures { result ≡ bounds_of place }
{
    match place {
        WordPlace::Window => Some(NumberBounds {
            least: LEAST_WINDOW,
            most: MOST_BYTES,
        }),
        WordPlace::Name => Some(NumberBounds {
            least: 0,
            most: MOST_BYTES,
        }),
        WordPlace::Length => Some(NumberBounds {
            least: 0,
            most: LENGTH_LIMIT,
        }),
        WordPlace::Budget | WordPlace::Memory | WordPlace::Aside => Some(NumberBounds {
            least: 0,
            most: u64::MAX,
        }),
        WordPlace::Address | WordPlace::StreamType => None,
    }
}

/// Whether a word is a decimal number within these bounds.
fn is_number_within(bounds: NumberBounds, word: &str) -> bool
    ensures { result ≡ is_number_within bounds word.now }
{
    match decimal_of(word) {
        Some(number) => bounds.least <= number && number <= bounds.most,
        None => false,
    }
}

/// Whether a word is what is expected at a place.
fn is_expected(place: WordPlace, word: &str) -> bool
    ensures { result ≡ is_expected place word.now }
{
    if let Some(bounds) = bounds_of(place) {
        return is_number_within(bounds, word);
    }
    match place {
        WordPlace::StreamType => type_of(word).is_some(),
        _ => address_of(word).is_some(),
    }
}

/// The word that stands at a place, if there is one, and it is not what is expected there.
pub(crate) fn bad_at<'a>(place: WordPlace, word: Option<&'a str>) -> Option<BadWord<'a>>
    ensures { option_map plain_bad result ≡ bad_at place (option_map (λ w. w.now) word.entry) }
{
    let word = word?;
    if is_expected(place, word) {
        return None;
    }
    Some(BadWord { place, word })
}

/// The first bad word among those of the limits.
pub(crate) fn bad_limit_of<'a>(words: LimitWords<'a>) -> Option<BadWord<'a>>
    ensures { option_map plain_bad result ≡ bad_limit (texts_of words.entry) }
{
    if let Some(bad) = bad_at(WordPlace::Window, words.window) {
        return Some(bad);
    }
    if let Some(bad) = bad_at(WordPlace::Name, words.name) {
        return Some(bad);
    }
    if let Some(bad) = bad_at(WordPlace::Budget, words.budget) {
        return Some(bad);
    }
    if let Some(bad) = bad_at(WordPlace::Memory, words.memory) {
        return Some(bad);
    }
    bad_at(WordPlace::Aside, words.aside)
}

/// The first word that names no type.
pub(crate) fn bad_type_of<'a>(words: &[&'a str]) -> Option<BadWord<'a>>
    ensures { option_map plain_bad result ≡ bad_type (map (λ w. w.now) words.now) }
{
    for word in words {
        if !is_expected(WordPlace::StreamType, *word) {
            return Some(BadWord {
                place: WordPlace::StreamType,
                word: *word,
            });
        }
    }
    None
}
