//! The words that say how a file is read, and which streams are copied.
ghost use Rattle.std.specs.Prelude.{◌≡◌, None, option_map, map};
ghost use Rattle.mdmp_words.specs.OptionWords.{limits_named, most_named, number_or, sizes_in_limits, texts_of, types_named};

use crate::number_words::{decimal_of, decimal32_of};
use crate::type_names::type_of;
use mdmp_lister::{Limits, TypeSet};

/// The most types that can be named.
const MOST_TYPES: usize = 16;

/// The limit that `--untrusted` sets for the bytes read, the memory and the bytes of CodeView records: 64 MiB.
const UNTRUSTED_MOST: u64 = 64 << 20;

/// The words of the options that limit what a command may cost.
#[derive(Clone, Copy)]
pub(crate) struct LimitWords<'a> {
    /// The word of `--window`.
    pub window: Option<&'a str>,
    /// The word of `--name`.
    pub name: Option<&'a str>,
    /// The word of `--budget`.
    pub budget: Option<&'a str>,
    /// The word of `--memory`.
    pub memory: Option<&'a str>,
    /// The word of `--aside`.
    pub aside: Option<&'a str>,
    /// Whether `--untrusted` is given.
    pub untrusted: bool,
}

/// The limits that these words name, in bytes. Without an option its default is used: for the budget 2^64 - 1,
/// for the memory and the bytes of CodeView records no limit. `--untrusted` makes these three 64 MiB.
pub(crate) fn limits_of(words: LimitWords<'_>) -> Option<Limits>
    ensures { option_map sizes_in_limits result ≡ limits_named (texts_of words.entry) }
{
    let usual = Limits::default();
    let window = given_or(words.window, usual.window)?;
    let name = given_or(words.name, usual.name)?;
    let budget = most_of(words.budget, words.untrusted)?;
    let memory = most_of(words.memory, words.untrusted)?;
    let aside = most_of(words.aside, words.untrusted)?;
    let limits = Limits::with_budget(window, name, budget.unwrap_or(u64::MAX))?;
    Some(aside_limited(memory_limited(limits, memory), aside))
}

/// The limit that a word names. Without a word there is none, or 64 MiB if the file is untrusted.
fn most_of(word: Option<&str>, untrusted: bool) -> Option<Option<u64>>
    ensures { result ≡ most_named untrusted (option_map (λ w. w.now) word.entry) }
{
    match word {
        Some(word) => Some(Some(decimal_of(word)?)),
        None if untrusted => Some(Some(UNTRUSTED_MOST)),
        None => Some(None),
    }
}

/// The limits, with one on memory if there is one.
fn memory_limited(limits: Limits, most: Option<u64>) -> Limits
    ensures { limits.memory ≡ None → result ≡ record limits { memory = most } }
{
    match most {
        Some(most) => limits.limit_memory(most),
        None => limits,
    }
}

/// The limits, with one on the bytes of CodeView records if there is one.
fn aside_limited(limits: Limits, most: Option<u64>) -> Limits
    ensures { limits.aside ≡ None → result ≡ record limits { aside = most } }
{
    match most {
        Some(most) => limits.limit_aside(most),
        None => limits,
    }
}

/// The number that a word names, or this one where none is given.
fn given_or(word: Option<&str>, usual: u32) -> Option<u32>
    ensures { result ≡ number_or usual (option_map (λ w. w.now) word.entry) }
{
    match word {
        Some(word) => decimal32_of(word),
        None => Some(usual),
    }
}

/// The stream types that one to sixteen words name.
pub(crate) fn types_of(words: &[&str]) -> Option<TypeSet>
    ensures { result ≡ types_named (map (λ w. w.now) words.now) }
{
    if words.len() > MOST_TYPES {
        return None;
    }
    let mut types = [0; MOST_TYPES];
    for i in 0..words.len() {
        types[i] = type_of(words[i])?;
    }
    TypeSet::new(&types[..words.len()])
}
