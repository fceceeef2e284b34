//! The commands and their words, as `clap` reads them. It takes its memory from `Global` alone.
ghost use Rattle.std.specs.Prelude.{◌≡◌, IfOk, false};
ghost use Rattle.clap.specs.Words.{App, Rule, Shape, app_of, new_app, rule_of, shape_of, with_rule, with_subcommand};
ghost use Rattle.mdmp_words.specs.CommandLine.{IsCommand, check_command, commands, copy_command, flag, has_globals, hex_command, limited, list_command, number_option, program, summary_command, word, words};

use crate::help;
use clap::{Arg, ArgAction, Command};
use std::alloc::{AllocError, Global};

/// The commands of the program.
pub(crate) fn command_line<'a>(alloc: Global) -> Result<Command<'a>, AllocError>
    ensures { IfOk result (λ made. app_of made ≡ commands) }
{
    let made = with_command(program(alloc), summary_command(alloc));
    let made = with_command(made, check_command(alloc));
    let made = with_command(made, list_command(alloc));
    let made = with_command(made, hex_command(alloc));
    with_command(made, copy_command(alloc))
}

/// A program with one more command, where there was memory for both. A chain of `?` has a way out at each step, by
/// which all that was made is given back, so one step stands here, and another in `with_arg`.
fn with_command<'a>(
    program: Result<Command<'a>, AllocError>,
    command: Result<Command<'a>, AllocError>,
) -> Result<Command<'a>, AllocError>
    ensures { (app : App) (shape : Shape) → IfOk program.entry (λ made. app_of made ≡ app)
        → IfOk command.entry (λ made. shape_of made ≡ shape) → IfOk command.entry (λ made. has_globals made ≡ false)
        → IfOk result (λ made. app_of made ≡ with_subcommand app shape) }
{
    program?.subcommand(command?)
}

/// A command with one more word or option.
fn with_arg<'a>(
    command: Result<Command<'a>, AllocError>,
    arg: Arg<'a>,
) -> Result<Command<'a>, AllocError>
    ensures { (app : App) (rule : Rule) → IfOk command.entry (IsCommand app) → rule_of arg.entry ≡ rule
        → arg.entry.global ≡ false → IfOk result (IsCommand (with_rule app rule)) }
{
    command?.arg(arg)
}

/// The program, with no command yet.
fn program<'a>(alloc: Global) -> Result<Command<'a>, AllocError>
    ensures { IfOk result (λ made. app_of made ≡ program) }
{
    let made = described(alloc, "mdmp", help::ABOUT, help::AFTER)
        .version(help::VERSION)
        .no_binary_name(true)
        .subcommand_required(true);
    made.bin_name("mdmp")
}

/// A command of this name, with what help says of it above its words and under them.
fn described<'a>(alloc: Global, name: &'a str, above: &'a str, under: &'a str) -> Command<'a>
    ensures { IsCommand (new_app name.entry.now) result }
{
    Command::new(alloc, name).about(above).after_help(under)
}

fn summary_command<'a>(alloc: Global) -> Result<Command<'a>, AllocError>
    ensures shape { IfOk result (λ made. shape_of made ≡ summary_command) }
    ensures local { IfOk result (λ made. has_globals made ≡ false) }
{
    let made = described(alloc, "summary", help::SUMMARY_ABOUT, help::SUMMARY_AFTER);
    let made = with_arg(Ok(made), words(alloc, "FILE", help::FILES));
    let made = with_arg(made, flag(alloc, "json", help::SUMMARY_JSON));
    with_limits(alloc, made)
}

fn check_command<'a>(alloc: Global) -> Result<Command<'a>, AllocError>
    ensures shape { IfOk result (λ made. shape_of made ≡ check_command) }
    ensures local { IfOk result (λ made. has_globals made ≡ false) }
{
    let made = described(alloc, "check", help::CHECK_ABOUT, help::CHECK_AFTER);
    let made = with_arg(Ok(made), word(alloc, "FILE", help::FILE));
    let made = with_arg(made, flag(alloc, "parts", help::PARTS));
    let made = with_arg(made, flag(alloc, "json", help::JSON));
    with_limits(alloc, made)
}

fn list_command<'a>(alloc: Global) -> Result<Command<'a>, AllocError>
    ensures shape { IfOk result (λ made. shape_of made ≡ list_command) }
    ensures local { IfOk result (λ made. has_globals made ≡ false) }
{
    let made = described(alloc, "list", help::LIST_ABOUT, help::LIST_AFTER);
    let made = with_arg(Ok(made), word(alloc, "FILE", help::FILE));
    let made = with_arg(made, flag(alloc, "pdb", help::PDB));
    let made = with_arg(made, flag(alloc, "json", help::JSON));
    let made = with_arg(made, number_option(alloc, "aside", help::ASIDE));
    with_limits(alloc, made)
}

fn hex_command<'a>(alloc: Global) -> Result<Command<'a>, AllocError>
    ensures shape { IfOk result (λ made. shape_of made ≡ hex_command) }
    ensures local { IfOk result (λ made. has_globals made ≡ false) }
{
    let made = described(alloc, "hex", help::HEX_ABOUT, help::HEX_AFTER);
    let made = with_arg(Ok(made), word(alloc, "FILE", help::FILE));
    let made = with_arg(made, word(alloc, "ADDRESS", help::ADDRESS));
    let made = with_arg(made, word(alloc, "LENGTH", help::LENGTH));
    with_limits(alloc, made)
}

fn copy_command<'a>(alloc: Global) -> Result<Command<'a>, AllocError>
    ensures shape { IfOk result (λ made. shape_of made ≡ copy_command) }
    ensures local { IfOk result (λ made. has_globals made ≡ false) }
{
    let made = described(alloc, "copy", help::COPY_ABOUT, help::COPY_AFTER);
    let made = with_arg(Ok(made), word(alloc, "IN", help::IN));
    let made = with_arg(made, word(alloc, "OUT", help::OUT));
    let made = with_arg(made, words(alloc, "TYPE", help::TYPE));
    with_limits(alloc, made)
}

/// A word that has to be there, at its place.
fn word<'a>(alloc: Global, name: &'a str, help: &'a str) -> Arg<'a>
    ensures rule { rule_of result ≡ word name.entry.now }
    ensures local { result.global ≡ false }
{
    Arg::new(alloc, name)
        .required(true)
        .action(ArgAction::Set)
        .help(help)
}

/// One word or more, behind the others.
fn words<'a>(alloc: Global, name: &'a str, help: &'a str) -> Arg<'a>
    ensures rule { rule_of result ≡ words name.entry.now }
    ensures local { result.global ≡ false }
{
    word(alloc, name, help)
        .action(ArgAction::Append)
        .num_args(1..)
}

/// An option that is there or not.
fn flag<'a>(alloc: Global, name: &'a str, help: &'a str) -> Arg<'a>
    ensures rule { rule_of result ≡ flag name.entry.now }
    ensures local { result.global ≡ false }
{
    Arg::new(alloc, name)
        .long(name)
        .action(ArgAction::SetTrue)
        .help(help)
}

/// A command with the options that limit what it may cost.
fn with_limits<'a>(
    alloc: Global,
    command: Result<Command<'a>, AllocError>,
) -> Result<Command<'a>, AllocError>
    ensures { (app : App) → IfOk command.entry (IsCommand app) → IfOk result (IsCommand (limited app)) }
{
    let made = with_arg(command, number_option(alloc, "window", help::WINDOW));
    let made = with_arg(made, number_option(alloc, "name", help::NAME));
    let made = with_arg(made, number_option(alloc, "budget", help::BUDGET));
    let made = with_arg(made, number_option(alloc, "memory", help::MEMORY));
    with_arg(made, flag(alloc, "untrusted", help::UNTRUSTED))
}

/// An option that takes a number.
fn number_option<'a>(alloc: Global, name: &'a str, help: &'a str) -> Arg<'a>
    ensures rule { rule_of result ≡ number_option name.entry.now }
    ensures local { result.global ≡ false }
{
    Arg::new(alloc, name)
        .long(name)
        .value_name("N")
        .action(ArgAction::Set)
        .help(help)
}
