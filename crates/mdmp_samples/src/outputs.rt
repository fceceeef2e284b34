//! What the program writes to each of its two outputs.

use mdmp_disk::SystemDisk;
use mdmp_source::{Out, WriteOut};
use mdmp_tool::run_args;
use std::alloc::Global;
use std::io::Write;

/// Command lines, of which one prints and two tell why they don't.
static LINES: [[&str; 3]; 3] = [
    ["mdmp", "list", "llvm-empty.dmp"],
    ["mdmp", "list", "/dev/null"],
    ["mdmp", "list", "none.dmp"],
];

/// Prints what some command lines write to each of their outputs.
pub fn tell_outputs(rt: &HostRuntime) -> Option<()> {
    for line in &LINES {
        tell_line(rt, line)?;
    }
    Some(())
}

/// Prints the exit status of a command line, and what it wrote to each output.
fn tell_line(rt: &HostRuntime, line: &[&str]) -> Option<()> {
    let args = texts_of(rt.alloc(), line)?;
    let mut out = WriteOut::new(Vec::new(rt.alloc()));
    let mut err = WriteOut::new(Vec::new(rt.alloc()));
    let status = status_of(rt, args, &mut out, &mut err);
    let (out, err) = (out.into_inner(), err.into_inner());
    let (out, err) = (str::from_utf8(&out).ok()?, str::from_utf8(&err).ok()?);
    writeln!(
        rt.stdout(),
        "{line:?} ends with {status}, output {out:?}, errors {err:?}"
    )
    .ok()
}

fn texts_of(alloc: Global, line: &[&str]) -> Option<Vec<String>> {
    let mut texts = Vec::new(alloc);
    for word in line {
        texts.push(word.to_string(alloc).ok()?).ok()?;
    }
    Some(texts)
}

/// The exit status of the program with these arguments.
fn status_of<O: Out>(rt: &HostRuntime, args: Vec<String>, out: &mut O, err: &mut O) -> u8 {
    run_args(rt, &mut SystemDisk::new(rt), rt.alloc(), Ok(args), out, err)
}
