//! Words that are numbers, and those of `hex` that say which bytes it prints.
ghost use Rattle.std.specs.Prelude.{◌≡◌, ◌+◌, ◌≤◌, IfSome};
ghost use Rattle.mdmp_map.specs.Ranges.{address_end};
ghost use Rattle.mdmp_print.specs.HexText.{length_limit};
ghost use Rattle.mdmp_words.specs.NumberWords.{number_in, decimal_number, decimal32_number, half_number, halves_number, hexadecimal_number, address_named, length_named, plain_address, span_named, without_prefix};

/// How many bytes can be asked for.
pub(crate) const LENGTH_LIMIT: u64 = 1 << 20;

/// One behind the last address.
const ADDRESS_END: u128 = 1 << 64;

/// One behind the last number that half of an address has.
const HALF_END: u64 = 1 << 32;

/// Addresses that follow each other.
#[derive(Clone, Copy, Debug, PartialEq, Eq)]
pub struct Span {
    /// The first address, of the dumped process.
    pub address: u64,
    /// How many addresses there are.
    pub length: u32,
}

/// The span that two words name, an address and a length. It is none where one of them is no such word,
/// and where the span would pass the last address.
pub(crate) fn span_of(address: &str, length: &str) -> Option<Span>
    ensures named { result ≡ span_named address.now length.now }
    ensures limited { IfSome result (λ span. span.length ≤ length_limit) }
    ensures within { IfSome result (λ span. span.address + span.length ≤ address_end) }
{
    let address = address_of(address)?;
    let length = length_of(length)?;
    if u128::from(address) + u128::from(length) > ADDRESS_END {
        return None;
    }
    Some(Span { address, length })
}

/// The address that a word names: `0x` and one to sixteen hexadecimal digits of either case, a decimal
/// number, or an address as WinDbg prints it, with a backtick before the last eight digits. Before that
/// `0x` may be left out.
pub(crate) fn address_of(word: &str) -> Option<u64>
    ensures { result ≡ address_named word.now }
{
    match word.split_once('`') {
        Some((high, low)) => halves_of(without_prefix(high), low),
        None => plain_address(word),
    }
}

/// The address that a word without a backtick names.
fn plain_address(word: &str) -> Option<u64>
    ensures { result ≡ plain_address word.now }
{
    match word.strip_prefix("0x") {
        Some(digits) => hexadecimal_of(digits),
        None => decimal_of(word),
    }
}

/// The word without `0x` at its start, if it begins so.
fn without_prefix(word: &str) -> &str
    ensures { result.now ≡ without_prefix word.now }
{
    match word.strip_prefix("0x") {
        Some(digits) => digits,
        None => word,
    }
}

/// The number whose high half is written by one to eight hexadecimal digits, and whose low half by eight.
fn halves_of(high: &str, low: &str) -> Option<u64>
    ensures { result ≡ halves_number high.now low.now }
{
    if low.len() != 8 {
        return None;
    }
    let high = half_of(high)?;
    let low = half_of(low)?;
    Some(u64::from(high) * HALF_END + u64::from(low))
}

/// The number below 2^32 that one to eight hexadecimal digits write.
fn half_of(digits: &str) -> Option<u32>
    ensures { result ≡ half_number digits.now }
{
    if digits.len() > 8 {
        return None;
    }
    let number = number_of(digits, 16)?;
    if number > u64::from(u32::MAX) {
        return None;
    }
    Some(number as u32)
}

/// The length that a word names: a decimal number up to the limit, in bytes.
pub(crate) fn length_of(word: &str) -> Option<u32>
    ensures named { result ≡ length_named word.now }
    ensures limited { IfSome result (λ length. length ≤ length_limit) }
{
    let length = decimal_of(word)?;
    if length > LENGTH_LIMIT {
        return None;
    }
    Some(length as u32)
}

/// The number that one to sixteen hexadecimal digits write.
fn hexadecimal_of(digits: &str) -> Option<u64>
    ensures { result ≡ hexadecimal_number digits.now }
{
    if digits.len() > 16 {
        return None;
    }
    number_of(digits, 16)
}

/// The number that decimal digits write, however many they are. It is none where the number is 2^64 or
/// more.
pub(crate) fn decimal_of(digits: &str) -> Option<u64>
    ensures { result ≡ decimal_number digits.now }
{
    number_of(digits, 10)
}

/// The same, but none where the number is 2^32 or more.
pub(crate) fn decimal32_of(word: &str) -> Option<u32>
    ensures { result ≡ decimal32_number word.now }
{
    let number = decimal_of(word)?;
    if number > u64::from(u32::MAX) {
        return None;
    }
    Some(number as u32)
}

/// The number that digits of a base write. A plus in front, which the standard library takes, is no
/// digit.
fn number_of(digits: &str, base: u32) -> Option<u64>
    requires low { 2 ≤ base }
    requires high { base ≤ 36 }
    ensures { result ≡ number_in base digits.now }
{
    if digits.starts_with('+') {
        return None;
    }
    u64::from_str_radix(digits, base).ok()
}
