//! The line of the CodeView record of a module.
ghost use Rattle.std.specs.Prelude.{◌≡◌, ◌≤◌, ℕ, List, [], Some, length, min};
ghost use Rattle.mdmp_source.specs.Output.{Puts};
ghost use Rattle.mdmp_wire.specs.CodeView.{Other, Rsds, codeview_value};
ghost use Rattle.mdmp_lister.specs.CodeView.{codeview_head, codeview_told};
ghost use Rattle.mdmp_summary.specs.Identity.{build_id_in, build_id_value};
ghost use Rattle.mdmp_print.specs.Forms.{pdb_line_in};
ghost use Rattle.mdmp_print.specs.Json.{object_line};
ghost use Rattle.mdmp_print.specs.JsonLines.{pdb_object};
ghost use Rattle.mdmp_print.specs.PdbLines.{pdb_line};

use crate::bytes::EscapedBytes;
use crate::codeview::{BuildDigits, Cut, DebugId, Guid, Signature};
use crate::entry::AtMembers;
use crate::form::LineForm;
use crate::ids::StampId;
use crate::json_text::BytesValue;
use crate::object_line::{print_object, print_object_around};
use crate::printer::Printer;
use crate::row;
use crate::text::print_around;
use crate::values::{InQuotes, JsonMember, NextMember};
use mdmp_lister::CodeViewBytes;
use mdmp_source::OutFailed;
use mdmp_summary::{BuildId, DebugIdentifier, Pdb20};
use mdmp_wire::CodeView;

/// The place of a module: the number of its entry, and its own in the stream.
#[derive(Clone, Copy)]
pub struct ModulePlace {
    /// The number of the entry.
    pub entry: u32,
    /// The number of the module in its stream.
    pub index: u64,
}

/// Prints the line of the CodeView record of a module.
pub fn print_symbols<O: Printer>(
    form: LineForm,
    place: ModulePlace,
    codeview: &CodeViewBytes<'_>,
    out: &mut O,
) -> Result<(), OutFailed>
    ensures { Puts result (O.state out.old) (pdb_line_in form place.entry place.index (codeview_head codeview.now) (codeview_told codeview.now)) (O.state out.new) }
{
    match form {
        LineForm::Text => print_text(&codeview.read(), out),
        LineForm::Json => print_json(place, codeview, out),
    }
}

fn print_text<O: Printer>(codeview: &CodeView<'_>, out: &mut O) -> Result<(), OutFailed>
    ensures { Puts result (O.state out.old) (pdb_line (codeview_value codeview.now)) (O.state out.new) }
{
    match codeview {
        CodeView::Rsds {
            guid,
            age,
            name,
            ended,
        } => print_file(*guid.as_bytes(), *age, name, *ended, out),
        CodeView::Other { signature, size } => {
            out.print(&row![
                b"pdb other ",
                Signature(*signature),
                b" size ",
                *size,
                b"\n"
            ])
        }
        CodeView::Short { size } => out.print(&row![b"pdb short ", *size, b"\n"]),
    }
}

fn print_file<O: Printer>(
    guid: [u8; 16],
    age: u32,
    name: &[u8],
    ended: bool,
    out: &mut O,
) -> Result<(), OutFailed>
    ensures { Puts result (O.state out.old) (pdb_line (Rsds guid age name.now ended)) (O.state out.new) }
{
    print_around(
        out,
        &row![b"pdb ", Guid(guid), b" age ", age, b" name \""],
        &EscapedBytes(name),
        &row![b"\"", Cut { ended }, b"\n"],
    )
}

fn print_json<O: Printer>(
    place: ModulePlace,
    codeview: &CodeViewBytes<'_>,
    out: &mut O,
) -> Result<(), OutFailed>
    ensures { Puts result (O.state out.old) (object_line (pdb_object place.entry place.index (codeview_head codeview.now) (codeview_told codeview.now))) (O.state out.new) }
{
    let fetched = (codeview.size as usize).min(24);
    let head = &codeview.head[..fetched];
    match codeview.read() {
        CodeView::Rsds {
            guid,
            age,
            name,
            ended,
        } => print_rsds(place, *guid.as_bytes(), age, name, ended, out),
        CodeView::Other { signature, size } => print_other(place, head, signature, size, out),
        CodeView::Short { size } => print_object(
            out,
            b"pdb",
            row![
                AtMembers(place.entry, place.index),
                NextMember(JsonMember(b"kind", InQuotes(b"short"))),
                NextMember(JsonMember(b"size", size)),
            ],
        ),
    }
}

/// Prints the object of a record that is not of the kind RSDS, with these members behind those that each has.
macro_rules! print_members {
    ($out:expr, $place:expr, $signature:expr, $size:expr $(, $more:expr)* $(,)?) => {
        print_object(
            $out,
            b"pdb",
            row![
                AtMembers($place.entry, $place.index),
                NextMember(JsonMember(b"kind", InQuotes(b"other"))),
                NextMember(JsonMember(b"signature", InQuotes(Signature($signature)))),
                NextMember(JsonMember(b"size", $size)),
                $($more),*
            ],
        )
    };
}

fn print_other<O: Printer>(
    place: ModulePlace,
    head: &[u8],
    signature: [u8; 4],
    size: u32,
    out: &mut O,
) -> Result<(), OutFailed>
    requires { length head.now ≡ min size 24 }
    ensures { Puts result (O.state out.old) (object_line (pdb_object place.entry place.index head.now (Other signature size))) (O.state out.new) }
{
    if let Some(id) = BuildId::read(head, size) {
        return print_build_id(place, signature, size, &id, out);
    }
    match Pdb20::read(head, size) {
        Some(pdb) => print_members!(
            out,
            place,
            signature,
            size,
            NextMember(JsonMember(b"debug_id", InQuotes(StampId(pdb.time, pdb.age)))),
        ),
        None => print_members!(out, place, signature, size),
    }
}

fn print_build_id<O: Printer>(
    place: ModulePlace,
    signature: [u8; 4],
    size: u32,
    id: &BuildId<'_>,
    out: &mut O,
) -> Result<(), OutFailed>
    requires { length id.now.bytes.now ≤ 20 }
    ensures { (head : List ℕ) → build_id_in head size ≡ Some (build_id_value id.now)
        → Puts result (O.state out.old) (object_line (pdb_object place.entry place.index head (Other signature size))) (O.state out.new) }
{
    let DebugIdentifier { guid, age } = DebugIdentifier::of_build_id(id.bytes);
    print_members!(
        out,
        place,
        signature,
        size,
        NextMember(JsonMember(b"build_id", InQuotes(BuildDigits { bytes: id.bytes }))),
        NextMember(JsonMember(b"build_id_cut", id.cut)),
        NextMember(JsonMember(b"debug_id", InQuotes(DebugId(*guid.as_bytes(), age)))),
    )
}

fn print_rsds<O: Printer>(
    place: ModulePlace,
    guid: [u8; 16],
    age: u32,
    name: &[u8],
    ended: bool,
    out: &mut O,
) -> Result<(), OutFailed>
    ensures { Puts result (O.state out.old) (object_line (pdb_object place.entry place.index [] (Rsds guid age name.now ended))) (O.state out.new) }
{
    print_object_around(
        out,
        b"pdb",
        row![
            AtMembers(place.entry, place.index),
            NextMember(JsonMember(b"kind", InQuotes(b"rsds"))),
            NextMember(JsonMember(b"guid", InQuotes(Guid(guid)))),
            NextMember(JsonMember(b"age", age)),
            NextMember(JsonMember(b"debug_id", InQuotes(DebugId(guid, age)))),
        ],
        b"name",
        &BytesValue(name),
        row![NextMember(JsonMember(b"cut", !ended))],
    )
}
