//! Names of numbers, or the numbers.
ghost use Rattle.std.specs.Prelude.{◌≡◌, ◌≤◌, ◌+◌, ◌++◌, IfSome, length, refl};
ghost use Rattle.std.specs.Option.{option_map};
ghost use Rattle.mdmp_print.specs.Buffer.{IsPutBehind};
ghost use Rattle.mdmp_names.specs.Platforms.{platform_words};
ghost use Rattle.mdmp_summary_lines.specs.JsonText.{word_or_null};
ghost use Rattle.mdmp_summary_lines.specs.NumberWords.{architecture_text, code_flags_name, code_name, code_text, name_behind, named_text, platform_text};

use crate::number_name::NumberName;
use mdmp_names::{architecture_words, exception_name, flags_name, platform_words};
use mdmp_print::{Hex8, InQuotes, Piece, Prefixed, row};
use mdmp_wire::SystemRecord;

/// Puts the name of a number behind the first `at` bytes of a buffer, or what stands for it if it has none, and
/// returns where it ends.
fn put_named<P: Piece>(buffer: &mut [u8], at: usize, name: Option<&'static str>, other: &P) -> usize
    requires few { IfSome name (λ name. length name.now ≤ 64) }
    requires room { at + (64 + P.most) ≤ length buffer.old }
    ensures { IsPutBehind buffer.old at (named_text (option_map (λ name. name.now) name.entry) (P.text other.now)) (64 + P.most) buffer.new result }
{
    match name {
        Some(name) => NumberName { name }.write_at(buffer, at),
        None => other.write_at(buffer, at),
    }
}

/// Puts a name as a string behind the first `at` bytes of a buffer, or `null` if there is none, and returns where
/// it ends.
pub(crate) fn put_string(buffer: &mut [u8], at: usize, name: Option<&'static str>) -> usize
    requires few { IfSome name (λ name. length name.now ≤ 64) }
    requires room { at + 66 ≤ length buffer.old }
    ensures { IsPutBehind buffer.old at (word_or_null (option_map (λ name. name.now) name.entry)) 66 buffer.new result }
{
    match name {
        Some(name) => InQuotes(NumberName { name }).write_at(buffer, at),
        None => b"null".write_at(buffer, at),
    }
}

/// The name of the code of an exception on this system.
fn code_name(system: Option<SystemRecord>, code: u32) -> Option<&'static str>
    ensures named { option_map (λ name. name.now) result ≡ code_name system code }
    ensures short { IfSome result (λ name. length name.now ≤ 64) }
{
    let system = system?;
    exception_name(system.platform_id, code)
}

/// The name of the flags of an exception on this system, if both its code and they have one.
fn code_flags_name(system: Option<SystemRecord>, code: u32, flags: u32) -> Option<&'static str>
    ensures named { option_map (λ name. name.now) result ≡ code_flags_name system code flags }
    ensures short { IfSome result (λ name. length name.now ≤ 64) }
{
    let system = system?;
    match exception_name(system.platform_id, code) {
        Some(_) => flags_name(
            system.platform_id,
            system.processor_architecture,
            code,
            flags,
        ),
        None => None,
    }
}

/// The code of an exception by its name, or as a number.
#[derive(Clone, Copy)]
pub(crate) struct CodeWords {
    pub(crate) system: Option<SystemRecord>,
    pub(crate) code: u32,
}

impl Piece for CodeWords {
    ghost text = { λ p. code_text p.system p.code };

    ghost before = { λ p more. code_text p.system p.code ++ more };

    ghost most = { 74 };

    ghost joined = { λ p more. refl };

    fn write_at(&self, buffer: &mut [u8], at: usize) -> usize {
        let number = Prefixed(Hex8(self.code));
        put_named(buffer, at, code_name(self.system, self.code), &number)
    }
}

/// The name of an exception's code as a string, if it has one.
#[derive(Clone, Copy)]
pub(crate) struct CodeNameString {
    pub(crate) system: Option<SystemRecord>,
    pub(crate) code: u32,
}

impl Piece for CodeNameString {
    ghost text = { λ p. word_or_null (code_name p.system p.code) };

    ghost before = { λ p more. word_or_null (code_name p.system p.code) ++ more };

    ghost most = { 66 };

    ghost joined = { λ p more. refl };

    fn write_at(&self, buffer: &mut [u8], at: usize) -> usize {
        put_string(buffer, at, code_name(self.system, self.code))
    }
}

/// The name of an exception's flags behind a text, if code and flags have names.
#[derive(Clone, Copy)]
pub(crate) struct FlagsWords<'a, const N: usize> {
    pub(crate) front: &'a [u8; N],
    pub(crate) system: Option<SystemRecord>,
    pub(crate) code: u32,
    pub(crate) flags: u32,
}

impl<'a, const N: usize> Piece for FlagsWords<'a, N> {
    ghost text = { λ p. name_behind p.front.now (code_flags_name p.system p.code p.flags) };

    ghost before = { λ p more. name_behind p.front.now (code_flags_name p.system p.code p.flags) ++ more };

    ghost most = { N + 64 };

    ghost joined = { λ p more. refl };

    fn write_at(&self, buffer: &mut [u8], at: usize) -> usize {
        match code_flags_name(self.system, self.code, self.flags) {
            Some(name) => row![self.front, NumberName { name }].write_at(buffer, at),
            None => at,
        }
    }
}

/// The name of an exception's flags as a string, if code and flags have names.
#[derive(Clone, Copy)]
pub(crate) struct FlagsNameString {
    pub(crate) system: Option<SystemRecord>,
    pub(crate) code: u32,
    pub(crate) flags: u32,
}

impl Piece for FlagsNameString {
    ghost text = { λ p. word_or_null (code_flags_name p.system p.code p.flags) };

    ghost before = { λ p more. word_or_null (code_flags_name p.system p.code p.flags) ++ more };

    ghost most = { 66 };

    ghost joined = { λ p more. refl };

    fn write_at(&self, buffer: &mut [u8], at: usize) -> usize {
        put_string(
            buffer,
            at,
            code_flags_name(self.system, self.code, self.flags),
        )
    }
}

/// What a platform is called, as a string, if it has a name.
#[derive(Clone, Copy)]
pub(crate) struct PlatformString(pub(crate) u32);

impl Piece for PlatformString {
    ghost text = { λ p. word_or_null (platform_words p.0) };

    ghost before = { λ p more. word_or_null (platform_words p.0) ++ more };

    ghost most = { 66 };

    ghost joined = { λ p more. refl };

    fn write_at(&self, buffer: &mut [u8], at: usize) -> usize {
        put_string(buffer, at, platform_words(self.0))
    }
}

/// What a platform is called, or its number.
#[derive(Clone, Copy)]
pub(crate) struct PlatformWords(pub(crate) u32);

impl Piece for PlatformWords {
    ghost text = { λ p. platform_text p.0 };

    ghost before = { λ p more. platform_text p.0 ++ more };

    ghost most = { 83 };

    ghost joined = { λ p more. refl };

    fn write_at(&self, buffer: &mut [u8], at: usize) -> usize {
        put_named(
            buffer,
            at,
            platform_words(self.0),
            &row![b"platform ", self.0],
        )
    }
}

/// What a processor architecture is called, or its number.
#[derive(Clone, Copy)]
pub(crate) struct ArchitectureWords(pub(crate) u16);

impl Piece for ArchitectureWords {
    ghost text = { λ p. architecture_text p.0 };

    ghost before = { λ p more. architecture_text p.0 ++ more };

    ghost most = { 87 };

    ghost joined = { λ p more. refl };

    fn write_at(&self, buffer: &mut [u8], at: usize) -> usize {
        let number = row![b"architecture ", u32::from(self.0)];
        put_named(buffer, at, architecture_words(self.0), &number)
    }
}
