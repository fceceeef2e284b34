//! What the words of a command line ask for.
ghost use Rattle.std.specs.Prelude.{◌≡◌, [], IfSome, map, option_map};
ghost use Rattle.clap.specs.Words.{all_of, first_of, found_of, rows_of, subcommand_rows_of};
ghost use Rattle.clap.specs.Values.{kind_of};
ghost use Rattle.mdmp_words.specs.BadWords.{plain_bad};
ghost use Rattle.mdmp_words.specs.OptionWords.{texts_of};
ghost use Rattle.mdmp_words.specs.Invocations.{AsksFor, AsksIn, AsksNothing, IsForSome, IsTextOf, IsCommandWithin, IsValid, bad_word, check_named, copy_named, form_named, hex_named, is_set, limit_texts, list_named, named_over, plain_command, request_by, summary_named};

use crate::bad_word::{BadWord, WordPlace, bad_at, bad_limit_of, bad_type_of};
use crate::command_line::command_line;
use crate::invocation::{Command, Invocation};
use crate::number_words::span_of;
use crate::option_words::{LimitWords, limits_of, types_of};
use clap::error::ErrorKind;
use clap::{ArgMatches, Error};
use mdmp_print::LineForm;
use std::alloc::Global;

/// What the words behind the program's name ask for. `clap` parts them into the words of a command
/// and its options; the numbers among them are judged by this crate. A name is lent as it was given.
pub fn invocation_of<'a>(alloc: Global, words: &'a [&'a str]) -> Invocation<'a>
    ensures valid { IsValid result }
    ensures empty { words.entry.now ≡ [] → AsksNothing result }
    ensures asks { AsksFor (map (λ word. word.now) words.entry.now) result }
{
    let Ok(mut commands) = command_line(alloc) else {
        return Invocation::Memory;
    };
    if words.is_empty() {
        return match commands.render_help() {
            Ok(text) => Invocation::Refused(text),
            Err(_) => Invocation::Memory,
        };
    }
    match commands.try_get_matches_from(words) {
        Ok(matches) => asked_by(alloc, &matches),
        Err(error) => told_of(alloc, &error),
    }
}

/// What is asked for where the words ask for help or the version, or are none that `clap` takes.
fn told_of<'a>(alloc: Global, error: &Error) -> Invocation<'a>
    ensures { IsTextOf (kind_of error.now) result }
{
    let kind = error.kind();
    if kind == ErrorKind::OutOfMemory {
        return Invocation::Memory;
    }
    let Ok(text) = error.to_string(alloc) else {
        return Invocation::Memory;
    };
    match kind {
        ErrorKind::DisplayHelp | ErrorKind::DisplayVersion => Invocation::Help(text),
        _ => Invocation::Refused(text),
    }
}

/// What is asked for by the command that was used.
fn asked_by<'a>(alloc: Global, matches: &ArgMatches<'a>) -> Invocation<'a>
    ensures valid { IsValid result }
    ensures asks { AsksIn (subcommand_rows_of matches.now) result }
{
    let Some((name, own)) = matches.subcommand() else {
        return Invocation::InvalidValue;
    };
    if let Some(invocation) = named_invocation(alloc, name, own) {
        return invocation;
    }
    match bad_word_of(own) {
        Some(bad) => Invocation::BadWord(bad),
        None => Invocation::InvalidValue,
    }
}

/// The first word of a command that is not what is expected at its place: those of the options first.
fn bad_word_of<'a>(matches: &ArgMatches<'a>) -> Option<BadWord<'a>>
    ensures { option_map plain_bad result ≡ bad_word (rows_of (found_of matches.now)) }
{
    if let Some(bad) = bad_limit_of(limit_words(matches)) {
        return Some(bad);
    }
    if let Some(bad) = bad_at(WordPlace::Address, word_of(matches, "ADDRESS")) {
        return Some(bad);
    }
    if let Some(bad) = bad_at(WordPlace::Length, word_of(matches, "LENGTH")) {
        return Some(bad);
    }
    bad_type_of(words_of(matches, "TYPE")?)
}

/// What is asked for by the words of the command of this name.
fn named_invocation<'a>(
    alloc: Global,
    name: &str,
    matches: &ArgMatches<'a>,
) -> Option<Invocation<'a>>
    ensures named { IsForSome (request_by name.now (rows_of (found_of matches.now))) result }
    ensures within { IfSome result IsValid }
{
    match name {
        "summary" => summary_invocation(alloc, matches),
        "check" => check_invocation(matches),
        "list" => list_invocation(matches),
        "hex" => hex_invocation(matches),
        "copy" => copy_invocation(matches),
        _ => None,
    }
}

fn summary_invocation<'a>(alloc: Global, matches: &ArgMatches<'a>) -> Option<Invocation<'a>>
    ensures named { IsForSome (summary_named (rows_of (found_of matches.now))) result }
    ensures within { IfSome result IsValid }
{
    let limits = limits_of(limit_words(matches))?;
    let names = words_of(matches, "FILE")?;
    let Ok(files) = Vec::from_slice(alloc, names) else {
        return Some(Invocation::Memory);
    };
    let form = form_of(matches);
    Some(Invocation::Summarize {
        files,
        limits,
        form,
    })
}

fn check_invocation<'a>(matches: &ArgMatches<'a>) -> Option<Invocation<'a>>
    ensures named { IsForSome (check_named (rows_of (found_of matches.now))) result }
    ensures within { IfSome result IsValid }
{
    let form = form_of(matches);
    let parts = is_set(matches, "parts");
    invocation_over(matches, "FILE", Command::Check { form, parts })
}

fn list_invocation<'a>(matches: &ArgMatches<'a>) -> Option<Invocation<'a>>
    ensures named { IsForSome (list_named (rows_of (found_of matches.now))) result }
    ensures within { IfSome result IsValid }
{
    let form = form_of(matches);
    let pdb = is_set(matches, "pdb");
    invocation_over(matches, "FILE", Command::List { form, pdb })
}

/// How the lines are printed.
fn form_of(matches: &ArgMatches<'_>) -> LineForm
    ensures { result ≡ form_named (rows_of (found_of matches.now)) }
{
    if is_set(matches, "json") {
        LineForm::Json
    } else {
        LineForm::Text
    }
}

fn hex_invocation<'a>(matches: &ArgMatches<'a>) -> Option<Invocation<'a>>
    ensures named { IsForSome (hex_named (rows_of (found_of matches.now))) result }
    ensures within { IfSome result IsValid }
{
    let span = span_of(word_of(matches, "ADDRESS")?, word_of(matches, "LENGTH")?)?;
    invocation_over(matches, "FILE", Command::Hex(span))
}

fn copy_invocation<'a>(matches: &ArgMatches<'a>) -> Option<Invocation<'a>>
    ensures named { IsForSome (copy_named (rows_of (found_of matches.now))) result }
    ensures within { IfSome result IsValid }
{
    let target = word_of(matches, "OUT")?;
    let types = types_of(words_of(matches, "TYPE")?)?;
    invocation_over(matches, "IN", Command::Copy { target, types })
}

/// A command over the file whose name stands under this id, within the limits that were given.
fn invocation_over<'a>(
    matches: &ArgMatches<'a>,
    id: &str,
    command: Command<'a>,
) -> Option<Invocation<'a>>
    requires { IsCommandWithin command }
    ensures named { IsForSome (named_over (rows_of (found_of matches.now)) id.now (plain_command command.entry)) result }
    ensures within { IfSome result IsValid }
{
    let limits = limits_of(limit_words(matches))?;
    let file = word_of(matches, id)?;
    Some(Invocation::Run {
        file,
        limits,
        command,
    })
}

/// The words of the options that limit the command. `--aside` is an option of `list` alone.
fn limit_words<'a>(matches: &ArgMatches<'a>) -> LimitWords<'a>
    ensures { texts_of result ≡ limit_texts (rows_of (found_of matches.now)) }
{
    LimitWords {
        window: word_of(matches, "window"),
        name: word_of(matches, "name"),
        budget: word_of(matches, "budget"),
        memory: word_of(matches, "memory"),
        aside: word_of(matches, "aside"),
        untrusted: is_set(matches, "untrusted"),
    }
}

/// Whether the flag under this id is set.
fn is_set(matches: &ArgMatches<'_>, id: &str) -> bool
    ensures { result ≡ is_set (rows_of (found_of matches.now)) id.now }
{
    word_of(matches, id).is_some_and(|flag| flag == "true")
}

/// The word under this id.
fn word_of<'a>(matches: &ArgMatches<'a>, id: &str) -> Option<&'a str>
    ensures { option_map (λ word. word.now) result ≡ first_of id.now (rows_of (found_of matches.now)) }
{
    matches.get_str(id)
}

/// The words under this id.
fn words_of<'m, 'a>(matches: &'m ArgMatches<'a>, id: &str) -> Option<&'m [&'a str]>
    ensures { option_map (λ words. map (λ word. word.now) words.now) result ≡ all_of id.now (rows_of (found_of matches.now)) }
{
    matches.get_strs(id)
}
