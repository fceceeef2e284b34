//! Makes files by chance, half of them good and half of them damaged, and runs the public calls over each.
//! What has to agree is compared: lists and verdicts through a small window and a large one, lists within a
//! budget with those without one, values with lists, copies of values with copies through views, and what is
//! read of a copy with what was copied. It prints how often each thing was met, and a line for each file where
//! two calls do not agree. A file is made of its number alone.
#![tactic(auto)]

mod bounds;
mod budgets;
mod census;
mod chance;
mod copies;
mod damage;
mod draft;
mod good_file;
mod lists;
mod pool;
mod records;
mod runs;
mod streams;
mod values;
mod vast_files;
mod verdicts;
mod windows;

use crate::census::Census;
use crate::runs::run_number;
use crate::vast_files::run_vast_files;
use crate::windows::TwoWindows;
use std::io::{Error, Write};
use std::process::ExitCode;

/// How many files are made.
const FILES: u64 = 10_000;

/// Prints what is counted of all files, and gives whether all calls agree.
fn tell_all(rt: &HostRuntime, windows: TwoWindows) -> Result<bool, Error> {
    let mut census = Census::new();
    let mut agrees = true;
    for number in 0..FILES {
        run_number(rt.alloc(), number, windows, &mut census);
        agrees = tell_trouble(rt, number, &mut census)? && agrees;
    }
    run_vast_files(rt.alloc(), windows, &mut census);
    agrees = tell_trouble(rt, FILES, &mut census)? && agrees;
    census.tell(rt)?;
    Ok(agrees)
}

/// Prints what troubles a file, if anything, and gives whether nothing does. The vast ones have the number
/// behind those of all others.
fn tell_trouble(rt: &HostRuntime, number: u64, census: &mut Census) -> Result<bool, Error> {
    let Some(what) = census.trouble.take() else {
        return Ok(true);
    };
    writeln!(rt.stdout(), "file {number}: {what}")?;
    Ok(false)
}

fn main(rt: HostRuntime) -> ExitCode {
    let Some(windows) = TwoWindows::new() else {
        return ExitCode::from(1);
    };
    match tell_all(&rt, windows) {
        Ok(true) => ExitCode::from(0),
        Ok(false) => ExitCode::from(1),
        Err(_) => ExitCode::from(3),
    }
}
