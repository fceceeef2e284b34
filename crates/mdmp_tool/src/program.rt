//! The program, by its arguments.
ghost use Rattle.std.specs.Prelude.{◌≡◌, IfErr, IfOk, map};
ghost use Rattle.std.specs.IoError.{error_kind};
ghost use Rattle.mdmp_source.specs.Output.{OutState};
ghost use Rattle.mdmp_tool.specs.Program.{EndsGiven, EndsSomehow, EndsUnread, words_behind};

use crate::words::{refuse_words, run_on_disk};
use mdmp_disk::{Disk, SystemDisk};
use mdmp_engines::{ToolFault, report};
use mdmp_source::Out;
use std::alloc::{AllocError, AllocGlobal, Allocator, Global};
use std::env::Env;
use std::io::ErrorKind;
use std::rt::Files;
use std::{env, io};

/// Runs the command that the program's arguments ask for, over the files of the system and its standard input: see
/// [`run_args`]. It is all that a `main` has to do that has made the two outputs.
pub fn run_program<R: Env + Files + Input + AllocGlobal, A: Allocator + Copy, O: Out, E: Out>(
    rt: &R,
    alloc: A,
    out: &mut O,
    err: &mut E,
) -> u8
    ensures { EndsSomehow A (record { out = O.state out.old; err = E.state err.old }) result (record { out = O.state out.new; err = E.state err.new }) }
{
    let args = match env::args(rt) {
        Ok(args) => match args.collect::<Vec<String>>(rt.alloc()) {
            Ok(args) => Ok(args),
            Err(error) => Err(io::Error::from(error)),
        },
        Err(error) => Err(error),
    };
    run_args(rt, &mut SystemDisk::new(rt), alloc, args, out, err)
}

/// Runs the command that arguments ask for, of which the first is the program's name: see
/// [`run_on_disk`]. Where they could not be read, want of memory is told, or else a bad command line:
/// one of them is no text.
pub fn run_args<R: AllocGlobal, D: Disk, A: Allocator + Copy, O: Out, E: Out>(
    rt: &R,
    disk: &mut D,
    alloc: A,
    args: io::Result<Vec<String>>,
    out: &mut O,
    err: &mut E,
) -> u8
    ensures given { IfOk args (λ given. EndsGiven A (words_behind given.items) (record { old = D.state disk.old; new = D.state disk.new })
        (record { out = O.state out.old; err = E.state err.old }) result (record { out = O.state out.new; err = E.state err.new })) }
    ensures unread { IfErr args (λ error. (D.state disk.new ≡ D.state disk.old)
        × EndsUnread (error_kind error) (record { out = O.state out.old; err = E.state err.old }) result (record { out = O.state out.new; err = E.state err.new })) }
{
    let args = match args {
        Ok(args) => args,
        Err(error) => return refuse_args(error.kind(), err),
    };
    match words_of(rt.alloc(), &args) {
        Ok(words) => run_on_disk(rt, disk, alloc, &words, out, err),
        Err(AllocError) => report::<(), E>(Err(ToolFault::Memory), err),
    }
}

/// Reports why the arguments could not be read, and returns the exit status.
fn refuse_args<E: Out>(kind: ErrorKind, err: &mut E) -> u8
    ensures { (out : OutState) → EndsUnread kind (record { out = out; err = E.state err.old }) result (record { out = out; err = E.state err.new }) }
{
    match kind {
        ErrorKind::OutOfMemory => report::<(), E>(Err(ToolFault::Memory), err),
        _ => refuse_words(err),
    }
}

/// The words behind the program's name.
fn words_of<'a>(alloc: Global, args: &'a [String]) -> Result<Vec<&'a str>, AllocError>
    ensures { IfOk result (λ words. map (λ word. word.now) words.items ≡ words_behind args.now) }
{
    let mut words = Vec::new(alloc);
    for number in 1..args.len() {
        words.push(args[number].as_str())?;
    }
    Ok(words)
}
