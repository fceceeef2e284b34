//! Calls that give a text: the lines of `check` and of `list`, in either form.
ghost use Rattle.mdmp_c.specs.Giving.{Ends, bad_limits};
ghost use Rattle.mdmp_c.specs.Limits.{AreLimits, EndsChecking, EndsText, KeepsChecking, KeepsText};
ghost use Rattle.mdmp_c.specs.Texts.{IsCheck, IsList};
ghost use Rattle.mdmp_print.specs.declared.form.LineForm.TheVariants.{Json, Text};

use crate::fault::{PlainFault, of_kind};
use crate::giving::{give_or_want, refuse};
use crate::kinds;
use crate::limits::{PlainLimits, limits_of};
use crate::list_part::give_list;
use crate::tool_fault::check_answer;
use mdmp_engines::{LineForm, check_source};
use mdmp_source::{MemoryStore, Source, WriteOut};
use std::alloc::Global;

/// Gives the text of `check`: a line for each entry, that it is good, or its first error. `fault` says
/// why the file can't be opened, or how many entries have an error.
#[unsafe(no_mangle)]
pub extern "C" fn mdmp_check_(
    alloc: Global,
    file: &[u8],
    limits: &PlainLimits,
    out: &mut [u8],
    size: &mut u64,
    fault: &mut PlainFault,
) -> u32
    ensures { Ends (IsCheck Text file.now limits.now.name) (AreLimits limits.now) (KeepsChecking limits.now file.now) (EndsChecking limits.now file.now) bad_limits result size.new fault.new out.old out.new }
{
    check_in(alloc, file, limits, LineForm::Text, out, size, fault)
}

/// Gives what [`mdmp_check_`] gives as JSON objects (RFC 8259), one a line, in UTF-8: docs/reference/lines.md.
#[unsafe(no_mangle)]
pub extern "C" fn mdmp_check_json_(
    alloc: Global,
    file: &[u8],
    limits: &PlainLimits,
    out: &mut [u8],
    size: &mut u64,
    fault: &mut PlainFault,
) -> u32
    ensures { Ends (IsCheck Json file.now limits.now.name) (AreLimits limits.now) (KeepsChecking limits.now file.now) (EndsChecking limits.now file.now) bad_limits result size.new fault.new out.old out.new }
{
    check_in(alloc, file, limits, LineForm::Json, out, size, fault)
}

/// Gives the text of `list`: a line for the header and for each item, up to the first error, which
/// is in `fault`. With `pdb` the CodeView record of a module gets one more line.
#[unsafe(no_mangle)]
pub extern "C" fn mdmp_list_(
    alloc: Global,
    file: &[u8],
    limits: &PlainLimits,
    pdb: bool,
    out: &mut [u8],
    size: &mut u64,
    fault: &mut PlainFault,
) -> u32
    ensures { Ends (IsList Text pdb file.now limits.now.name) (AreLimits limits.now) (KeepsText limits.now file.now pdb) (EndsText limits.now file.now pdb) bad_limits result size.new fault.new out.old out.new }
{
    list_in(alloc, file, limits, LineForm::Text, pdb, out, size, fault)
}

/// Gives what [`mdmp_list_`] gives as JSON objects (RFC 8259), one a line, in UTF-8: docs/reference/lines.md.
#[unsafe(no_mangle)]
pub extern "C" fn mdmp_list_json_(
    alloc: Global,
    file: &[u8],
    limits: &PlainLimits,
    pdb: bool,
    out: &mut [u8],
    size: &mut u64,
    fault: &mut PlainFault,
) -> u32
    ensures { Ends (IsList Json pdb file.now limits.now.name) (AreLimits limits.now) (KeepsText limits.now file.now pdb) (EndsText limits.now file.now pdb) bad_limits result size.new fault.new out.old out.new }
{
    list_in(alloc, file, limits, LineForm::Json, pdb, out, size, fault)
}

/// Gives the lines of `check` in this form.
fn check_in(
    alloc: Global,
    file: &[u8],
    limits: &PlainLimits,
    form: LineForm,
    out: &mut [u8],
    size: &mut u64,
    fault: &mut PlainFault,
) -> u32
    ensures { Ends (IsCheck form file.now limits.now.name) (AreLimits limits.now) (KeepsChecking limits.now file.now) (EndsChecking limits.now file.now) bad_limits result size.new fault.new out.old out.new }
{
    let Some(limits) = limits_of(limits) else {
        return refuse(of_kind(kinds::BAD_LIMITS), size, fault);
    };
    let source = Source::new(MemoryStore::new(file));
    let mut text = WriteOut::new(Vec::new(alloc));
    let checked = check_source(alloc, source, limits, form, &mut text);
    let text = text.into_inner();
    give_or_want(check_answer(checked.answer), &text, out, size, fault)
}

/// Gives the lines of `list` in this form.
fn list_in(
    alloc: Global,
    file: &[u8],
    limits: &PlainLimits,
    form: LineForm,
    pdb: bool,
    out: &mut [u8],
    size: &mut u64,
    fault: &mut PlainFault,
) -> u32
    ensures { Ends (IsList form pdb file.now limits.now.name) (AreLimits limits.now) (KeepsText limits.now file.now pdb) (EndsText limits.now file.now pdb) bad_limits result size.new fault.new out.old out.new }
{
    give_list(alloc, file, limits, form, pdb, 0, out, size, fault)
}
