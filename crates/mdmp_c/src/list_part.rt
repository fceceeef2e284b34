//! The text of a list, or a part of it, made a line at a time.
ghost use Rattle.std.specs.Prelude.{◌≡◌, ◌++◌, ◌⊎◌, Err, None, ℕ, List, true};
ghost use Rattle.mdmp_c.specs.Giving.{Ends, bad_limits};
ghost use Rattle.mdmp_lister.specs.Memory.{is_within};
ghost use Rattle.mdmp_c.specs.Limits.{AreLimits, EndsText, KeepsText};
ghost use Rattle.mdmp_c.specs.TextPart.{EndsAt, GathersText, IsListPart, IsPartOf};
ghost use Rattle.mdmp_lister.specs.declared.choice.Choice.TheVariants.{All};
ghost use Rattle.mdmp_print.specs.Forms.{dump_line_in};
ghost use Rattle.mdmp_engines.specs.Text.{run_text};
ghost use Rattle.mdmp_print.specs.declared.form.LineForm.TheVariants.{Text};

use crate::fault::{PlainFault, of_kind, open_fault};
use crate::giving::refuse;
use crate::kinds;
use crate::limits::{PlainLimits, limits_of};
use crate::text_part::TextPart;
use crate::tool_fault::list_answer;
use mdmp_engines::{LineForm, ToolFault, list_next, print_dump};
use mdmp_lister::{Choice, Lister};
use mdmp_source::{MemoryStore, OutFailed, Source, Store, WriteOut};
use std::alloc::{AllocError, Allocator, Global};

/// Gives what follows the first `skip` bytes of the text of `list`, as [`mdmp_list_`](crate::mdmp_list_)
/// gives all of it: so a caller can read a long text in parts, without memory for the whole.
#[unsafe(no_mangle)]
pub extern "C" fn mdmp_list_part_(
    alloc: Global,
    file: &[u8],
    limits: &PlainLimits,
    pdb: bool,
    skip: u64,
    out: &mut [u8],
    size: &mut u64,
    fault: &mut PlainFault,
) -> u32
    ensures { Ends (IsListPart Text pdb skip file.now limits.now.name) (AreLimits limits.now) (KeepsText limits.now file.now pdb) (EndsText limits.now file.now pdb) bad_limits result size.new fault.new out.old out.new }
{
    give_list(
        alloc,
        file,
        limits,
        LineForm::Text,
        pdb,
        skip,
        out,
        size,
        fault,
    )
}

/// Gives what follows the first `skip` bytes of the text of `list` in this form. Of the text no more is held at a time than
/// the buffer has room for, and the lines of one item.
// Lines go by way of a buffer of the call's own: a call that runs out of memory leaves the caller's buffer as it was, and the
// lines of an item may be of any length.
pub(crate) fn give_list(
    alloc: Global,
    file: &[u8],
    limits: &PlainLimits,
    form: LineForm,
    pdb: bool,
    skip: u64,
    out: &mut [u8],
    size: &mut u64,
    fault: &mut PlainFault,
) -> u32
    ensures { Ends (IsListPart form pdb skip file.now limits.now.name) (AreLimits limits.now) (KeepsText limits.now file.now pdb) (EndsText limits.now file.now pdb) bad_limits result size.new fault.new out.old out.new }
{
    let Some(limits) = limits_of(limits) else {
        return refuse(of_kind(kinds::BAD_LIMITS), size, fault);
    };
    let source = Source::new(MemoryStore::new(file));
    let mut lister = match Lister::open(alloc, source, limits, Choice::All) {
        Ok(lister) => lister,
        Err(refused) => return refuse(open_fault(refused.fault), size, fault),
    };
    let mut part = TextPart::new(alloc, skip, out.len());
    let answer = gather_list(alloc, &mut lister, form, pdb, limits.aside, &mut part);
    part.give(list_answer(answer), out, size, fault)
}

/// Puts the line of the header and those of the items that are left into a part of their text.
fn gather_list<S: Store + Drop, A: Allocator + Copy>(
    alloc: Global,
    lister: &mut Lister<S, A>,
    form: LineForm,
    pdb: bool,
    aside: Option<u64>,
    part: &mut TextPart,
) -> Result<(), ToolFault>
    requires going { lister.old.stop ≡ None }
    requires kept { is_within aside lister.old.counts.aside.bytes ≡ true }
    ensures { GathersText (λ file left. dump_line_in form lister.old.header ++ run_text form pdb file lister.old.limit left) pdb aside lister.old part.old result lister.new part.new }
{
    let mut line = WriteOut::new(Vec::new(alloc));
    if let Err(OutFailed) = print_dump(form, &lister.header(), &mut line) {
        return Err(ToolFault::Out);
    }
    let line = line.into_inner();
    if let Err(AllocError) = part.take(&line) {
        return Err(ToolFault::Memory);
    }
    gather_items(lister, form, pdb, aside, line, part)
}

/// Puts the lines of the items that are left into a part of their text, those of one at a time.
fn gather_items<S: Store + Drop, A: Allocator + Copy>(
    lister: &mut Lister<S, A>,
    form: LineForm,
    pdb: bool,
    aside: Option<u64>,
    line: Vec<u8>,
    part: &mut TextPart,
) -> Result<(), ToolFault>
    requires going { lister.old.stop ≡ None }
    requires kept { is_within aside lister.old.counts.aside.bytes ≡ true }
    ensures { GathersText (λ file left. run_text form pdb file lister.old.limit left) pdb aside lister.old part.old result lister.new part.new }
{
    let mut line = line;
    loop {
        line.clear();
        let mut lines = WriteOut::new(line);
        match list_next(lister, form, pdb, aside, &mut lines) {
            Ok(true) => {}
            Ok(false) => return Ok(()),
            // The line of a module is given, also if its CodeView record would pass the limit.
            Err(fault) => {
                // The proof learns here that the lister stayed within its budget.
                let _counts = lister.counts();
                return end_items(fault, lines.into_inner(), part);
            },
        }
        line = lines.into_inner();
        if let Err(AllocError) = part.take(&line) {
            return Err(ToolFault::Memory);
        }
    }
}

/// Puts the lines into a part of their text that were made before a fault ends the list, and returns the fault.
fn end_items(fault: ToolFault, line: Vec<u8>, part: &mut TextPart) -> Result<(), ToolFault>
    ensures fault { (result ≡ Err fault) ⊎ (result ≡ Err ToolFault.Memory) }
    ensures puts { (skip room : ℕ) (given : List ℕ) → IsPartOf skip room given part.old.skip part.old.room part.old.size part.old.kept.items
        → EndsAt (λ text. IsPartOf skip room text part.new.skip part.new.room part.new.size part.new.kept.items) (given ++ line.items) fault result }
{
    match part.take(&line) {
        Ok(()) => Err(fault),
        Err(AllocError) => Err(ToolFault::Memory),
    }
}
