//! The words of the command line, run.
ghost use Rattle.std.specs.Prelude.{codes, ◌≡◌, ◌≤◌, ◌⊎◌, ◌∷◌, []};
ghost use Rattle.std.specs.List.{concat};
ghost use Rattle.mdmp_source.specs.Output.{OutState};
ghost use Rattle.mdmp_engines.specs.Reports.{IsLineTold};
ghost use Rattle.mdmp_disk.specs.System.{no_requests, system};
ghost use Rattle.mdmp_disk.specs.declared.disk.Requests.{Requests};
ghost use Rattle.mdmp_tool.specs.Shown.{shown};
ghost use Rattle.mdmp_tool.specs.Words.{EndsCopy, EndsWords, Helps, HelpsInPart};

use crate::bad_words::refuse_word;
use crate::printing::{CheckWay, check_file, print_file};
use crate::running::copy_and_report;
use crate::shown::{ShownText, is_plain};
use crate::summaries::summarize_files;
use mdmp_disk::{Disk, SystemDisk};
use mdmp_engines::{HexEngine, ListEngine, ToolFault, first_not_copied, report};
use mdmp_lister::{Limits, TypeSet};
use mdmp_print::{print_around, print_error, print_error_named, row};
use mdmp_source::{Out, OutFailed, Source, write_all};
use mdmp_words::{Command, Invocation, Span, invocation_of};
use std::alloc::{AllocGlobal, Allocator};
use std::rt::Files;

/// Runs the command that the words after the program's name ask for, over the files of the system and its standard
/// input: see [`run_on_disk`].
pub fn run_words<R: Files + Input + AllocGlobal, A: Allocator + Copy, O: Out, E: Out>(
    rt: &R,
    alloc: A,
    words: &[&str],
    out: &mut O,
    err: &mut E,
) -> u8
    ensures { (requests : Requests) × EndsWords A words.now (record { old = system no_requests; new = system requests }) (record { out = O.state out.old; err = E.state err.old }) result (record { out = O.state out.new; err = E.state err.new }) }
{
    run_on_disk(rt, &mut SystemDisk::new(rt), alloc, words, out, err)
}

/// Runs the command that the words after the program's name ask for: `summary FILE.. [--json]`,
/// `check FILE [--parts] [--json]`, `list FILE [--pdb] [--json] [--aside N]`, `hex FILE ADDRESS LENGTH` or
/// `copy IN OUT TYPE...`. Each takes `--window N`, `--name N`, `--budget N`, `--memory N` and `--untrusted`. All words
/// are judged before a file is opened. `summary` opens each FILE in turn, and its status is the worst of all. The FILE
/// `-` is standard input, but not IN and OUT. `copy` creates OUT, which must not exist; after an error OUT stays, empty
/// or partly written. No other file changes.
///
/// It writes the lines, or the help that was asked for, to `out`, and the line of an error to `err`. It returns
/// the exit status: 0 on success; 1 for an error in the file, for `summary` and `check` in any entry; 2 for a bad
/// command line, or a type that is not copied; 3 for an I/O error, if memory runs out, if a limit is reached, or
/// if a file can't be opened or created. If `err` refuses, the status is the same.
pub fn run_on_disk<R: AllocGlobal, D: Disk, A: Allocator + Copy, O: Out, E: Out>(
    rt: &R,
    disk: &mut D,
    alloc: A,
    words: &[&str],
    out: &mut O,
    err: &mut E,
) -> u8
    ensures { EndsWords A words.now (record { old = D.state disk.old; new = D.state disk.new }) (record { out = O.state out.old; err = E.state err.old }) result (record { out = O.state out.new; err = E.state err.new }) }
{
    match invocation_of(rt.alloc(), words) {
        Invocation::Run {
            file,
            limits,
            command,
        } => match command {
            Command::Check { form, parts } => {
                check_file(
                    disk,
                    alloc,
                    CheckWay { form, parts },
                    limits,
                    file,
                    out,
                    err,
                )
            }
            Command::List { form, pdb } => {
                let aside = limits.aside;
                let engine = ListEngine { form, pdb, aside };
                print_file(disk, alloc, engine, limits, file, out, err)
            }
            Command::Hex(Span { address, length }) => {
                let engine = HexEngine {
                    alloc,
                    address,
                    length,
                };
                print_file(disk, alloc, engine, limits, file, out, err)
            }
            Command::Copy { target, types } => {
                copy_file(disk, alloc, types, limits, file, target, err)
            }
        },
        Invocation::Summarize {
            files,
            limits,
            form,
        } => summarize_files(disk, alloc, form, limits, &files, out, err),
        Invocation::Help(text) => write_help(&text, out, err),
        Invocation::Refused(text) => {
            let _ = write_all(err, text.as_bytes());
            2
        }
        Invocation::BadWord(bad) => refuse_word(bad, err),
        Invocation::InvalidValue => refuse_words(err),
        Invocation::Memory => report::<(), E>(Err(ToolFault::Memory), err),
    }
}

/// Writes a text that was asked for, and returns the exit status.
fn write_help<O: Out, E: Out>(text: &str, out: &mut O, err: &mut E) -> u8
    ensures { Helps text.now (record { out = O.state out.old; err = E.state err.old }) result (record { out = O.state out.new; err = E.state err.new })
        ⊎ HelpsInPart text.now (record { out = O.state out.old; err = E.state err.old }) result (record { out = O.state out.new; err = E.state err.new }) }
{
    match write_all(out, text.as_bytes()) {
        Ok(()) => 0,
        Err(OutFailed) => report::<(), E>(Err(ToolFault::Out), err),
    }
}

/// Copies the streams of these types out of one file into another, which is made.
fn copy_file<D: Disk, A: Allocator + Copy, E: Out>(
    disk: &mut D,
    alloc: A,
    types: TypeSet,
    limits: Limits,
    file: &str,
    target: &str,
    err: &mut E,
) -> u8
    ensures { (out : OutState) → EndsCopy A types limits file.now target.now (record { old = D.state disk.old; new = D.state disk.new }) (record { out = out; err = E.state err.old }) result (record { out = out; err = E.state err.new }) }
{
    if let Some(stream_type) = first_not_copied(types.types()) {
        return report::<(), E>(Err(ToolFault::NotCopied(stream_type)), err);
    }
    let Ok(original) = disk.open(file) else {
        return refuse_name(b"cannot open ", file, err);
    };
    let Ok(mut copy) = disk.create_new(target) else {
        return refuse_name(b"cannot create ", target, err);
    };
    let status = copy_and_report(
        alloc,
        types,
        Source::new(original),
        limits,
        &mut copy,
        err,
    ).answer;
    disk.close(target, copy);
    status
}

/// Reports that the words of a command line are bad together, and returns the exit status.
pub(crate) fn refuse_words<E: Out>(err: &mut E) -> u8
    ensures status { result ≡ 2 }
    ensures told { IsLineTold (E.state err.old) (codes "bad command line") (E.state err.new) }
{
    let _ = print_error(err, b"bad command line");
    2
}

/// Reports that a file could not be opened or created, by its name as it is told, and returns the exit status.
pub(crate) fn refuse_name<E: Out, const N: usize>(why: &[u8; N], name: &str, err: &mut E) -> u8
    requires { N ≤ 100 }
    ensures status { result ≡ 3 }
    ensures told { IsLineTold (E.state err.old) (concat (why.now ∷ shown name.now ∷ [])) (E.state err.new) }
{
    let name = name.as_bytes();
    let _ = if is_plain(name) {
        print_error_named(err, why, name)
    } else {
        print_around(err, &row![b"mdmp: ", why], &ShownText(name), &row![b"\n"])
    };
    3
}
