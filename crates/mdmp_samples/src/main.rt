//! Prints what the commands make of the real dumps of the folder data: their lists, whether their
//! entries are good, the symbol files of their modules, the digests of their lines as objects of JSON, and
//! copies of some of their streams; that small windows and the greatest list the same, and that each entry that is gone
//! to gives what is listed of it; and how many items each has, how its value compares with its list, how
//! that is written anew, and that views of its file are written as it; and what some command lines write
//! to each of their outputs.
#![tactic(auto)]

mod checks;
mod commands;
mod copies;
mod digest;
mod lists;
mod objects;
mod opening;
mod outputs;
mod symbols;
mod value;
mod walks;
mod windows;
mod written;

use crate::checks::tell_check;
use crate::copies::{CHOSEN, tell_copy};
use crate::lists::{list, tell_items};
use crate::objects::tell_objects;
use crate::outputs::tell_outputs;
use crate::symbols::tell_symbols;
use crate::value::tell_totals;
use crate::walks::tell_walk;
use crate::windows::tell_windows;
use crate::written::{tell_value, tell_view};
use std::process::ExitCode;

/// The dumps, each named for the program that wrote it.
static DUMPS: [&str; 6] = [
    "crashpad-one.dmp",
    "lldb19-crash-stack.dmp",
    "llvm-all-kinds.dmp",
    "llvm-empty.dmp",
    "llvm-x86.dmp",
    "wine8-child-normal.dmp",
];

/// What is told of a dump.
#[derive(Clone, Copy)]
enum Aspect {
    List,
    Check,
    Symbols,
    Objects,
    Windows,
    Walk,
    Items,
    Totals,
    Value,
    View,
}

/// What is told of all dumps, one behind the other.
static ASPECTS: [Aspect; 10] = [
    Aspect::List,
    Aspect::Check,
    Aspect::Symbols,
    Aspect::Objects,
    Aspect::Windows,
    Aspect::Walk,
    Aspect::Items,
    Aspect::Totals,
    Aspect::Value,
    Aspect::View,
];

/// Tells this of a dump, or gives none where something differs, or can't be read or printed.
fn tell(rt: &HostRuntime, aspect: Aspect, dump: &str) -> Option<()> {
    match aspect {
        Aspect::List => list(rt, dump),
        Aspect::Check => tell_check(rt, dump),
        Aspect::Symbols => tell_symbols(rt, dump),
        Aspect::Objects => tell_objects(rt, dump),
        Aspect::Windows => tell_windows(rt, dump),
        Aspect::Walk => tell_walk(rt, dump),
        Aspect::Items => tell_items(rt, dump),
        Aspect::Totals => tell_totals(rt, dump),
        Aspect::Value => tell_value(rt, dump),
        Aspect::View => tell_view(rt, dump),
    }
}

/// Prints all of it, up to the first that gives none.
fn tell_all(rt: &HostRuntime) -> Option<()> {
    for aspect in &ASPECTS {
        for dump in &DUMPS {
            tell(rt, *aspect, dump)?;
        }
    }
    for chosen in &CHOSEN {
        tell_copy(rt, chosen)?;
    }
    tell_outputs(rt)
}

fn main(rt: HostRuntime) -> ExitCode {
    match tell_all(&rt) {
        Some(()) => ExitCode::from(0),
        None => ExitCode::from(1),
    }
}
