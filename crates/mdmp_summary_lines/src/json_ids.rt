//! The ids of a module in the object of a summary.
ghost use Rattle.std.specs.Prelude.{◌≡◌, ◌≤◌, ◌++◌, length, min, refl, take};
ghost use Rattle.std.specs.Option.{option_map};
ghost use Rattle.mdmp_source.specs.Output.{Puts};
ghost use Rattle.mdmp_wire.specs.CodeView.{codeview_value};
ghost use Rattle.mdmp_summary.specs.Identity.{build_id_value};
ghost use Rattle.mdmp_summary_lines.specs.JsonIds.{built_or_pdb20_text, code_id_text, codeview_ids_text, guid_age_text, module_ids_text, pdb20_text, pe_id_text, told_ids_text};

use crate::json_text::BytesString;
use mdmp_lister::CodeViewBytes;
use mdmp_print::{
    BuildDigits, GuidDigits, InQuotes, Piece, Printer, ShortHex, UpperHex8, print_around, row,
};
use mdmp_source::OutFailed;
use mdmp_summary::{BuildId, CodeId, DebugIdentifier, Pdb20};
use mdmp_wire::{CodeView, ModuleRecord};

/// The code id of a PE file as a string, if there is one.
#[derive(Clone, Copy)]
struct PeIdString(Option<CodeId>);

impl Piece for PeIdString {
    ghost text = { λ p. pe_id_text p.0 };

    ghost before = { λ p more. pe_id_text p.0 ++ more };

    ghost most = { 26 };

    ghost joined = { λ p more. refl };

    fn write_at(&self, buffer: &mut [u8], at: usize) -> usize {
        match self.0 {
            Some(id) => InQuotes((
                UpperHex8(id.time_date_stamp),
                ShortHex(u64::from(id.size_of_image)),
            ))
            .write_at(buffer, at),
            None => b"null".write_at(buffer, at),
        }
    }
}

/// The first 20 bytes, or all if there are fewer.
fn at_most_20(bytes: &[u8]) -> &[u8]
    ensures first { result.now ≡ take 20 bytes.now }
    ensures few { length result.now ≤ 20 }
{
    &bytes[..bytes.len().min(20)]
}

/// The code id of a module as a string: a build id, or else that of a PE file, if there is one.
#[derive(Clone, Copy)]
struct CodeIdString<'a> {
    build_id: Option<BuildId<'a>>,
    fields: ModuleRecord,
}

impl<'a> Piece for CodeIdString<'a> {
    ghost text = { λ p. code_id_text (option_map build_id_value p.build_id) p.fields };

    ghost before = { λ p more. code_id_text (option_map build_id_value p.build_id) p.fields ++ more };

    ghost most = { 42 };

    ghost joined = { λ p more. refl };

    fn write_at(&self, buffer: &mut [u8], at: usize) -> usize {
        match self.build_id {
            Some(id) => {
                let bytes = at_most_20(id.bytes);
                InQuotes(BuildDigits { bytes }).write_at(buffer, at)
            }
            None => PeIdString(CodeId::of_module(&self.fields)).write_at(buffer, at),
        }
    }
}

/// An identity and an age as a string.
#[derive(Clone, Copy)]
struct GuidAge {
    guid: [u8; 16],
    age: u32,
}

impl Piece for GuidAge {
    ghost text = { λ p. guid_age_text p.guid p.age };

    ghost before = { λ p more. guid_age_text p.guid p.age ++ more };

    ghost most = { 50 };

    ghost joined = { λ p more. refl };

    fn write_at(&self, buffer: &mut [u8], at: usize) -> usize {
        InQuotes((GuidDigits(self.guid), ShortHex(u64::from(self.age)))).write_at(buffer, at)
    }
}

/// The identity of a symbol file of PDB 2.0 as a string, if there is one.
#[derive(Clone, Copy)]
struct Pdb20String(Option<Pdb20>);

impl Piece for Pdb20String {
    ghost text = { λ p. pdb20_text p.0 };

    ghost before = { λ p more. pdb20_text p.0 ++ more };

    ghost most = { 26 };

    ghost joined = { λ p more. refl };

    fn write_at(&self, buffer: &mut [u8], at: usize) -> usize {
        match self.0 {
            Some(pdb) => {
                InQuotes((UpperHex8(pdb.time), ShortHex(u64::from(pdb.age)))).write_at(buffer, at)
            }
            None => b"null".write_at(buffer, at),
        }
    }
}

/// The debug id of a module whose CodeView record is not of the kind RSDS, as a string, if there is one.
#[derive(Clone, Copy)]
struct OtherDebugId<'a> {
    build_id: Option<BuildId<'a>>,
    pdb20: Option<Pdb20>,
}

impl<'a> Piece for OtherDebugId<'a> {
    ghost text = { λ p. built_or_pdb20_text (option_map build_id_value p.build_id) p.pdb20 };

    ghost before = { λ p more. built_or_pdb20_text (option_map build_id_value p.build_id) p.pdb20 ++ more };

    ghost most = { 50 };

    ghost joined = { λ p more. refl };

    fn write_at(&self, buffer: &mut [u8], at: usize) -> usize {
        match self.build_id {
            Some(id) => {
                let made = DebugIdentifier::of_build_id(id.bytes);
                GuidAge {
                    guid: *made.guid.as_bytes(),
                    age: made.age,
                }
                .write_at(buffer, at)
            }
            None => Pdb20String(self.pdb20).write_at(buffer, at),
        }
    }
}

/// The first 24 bytes of a CodeView record, or all if it has fewer.
fn head_of<'a>(bytes: &'a CodeViewBytes<'_>) -> &'a [u8]
    ensures head { result.now ≡ take (min bytes.now.size 24) bytes.now.head }
    ensures len { length result.now ≡ min bytes.now.size 24 }
{
    &bytes.head[..(bytes.size as usize).min(24)]
}

/// Prints the ids of a module whose CodeView record tells this, has `size` bytes, and begins with `head`: its first 24
/// bytes, or all if it has fewer.
fn print_told_ids<O: Printer>(
    fields: &ModuleRecord,
    head: &[u8],
    size: u32,
    codeview: &CodeView<'_>,
    out: &mut O,
) -> Result<(), OutFailed>
    requires { length head.now ≡ min size 24 }
    ensures { Puts result (O.state out.old) (told_ids_text fields.now head.now size (codeview_value codeview.now)) (O.state out.new) }
{
    let build_id = BuildId::read(head, size);
    let code = CodeIdString {
        build_id,
        fields: *fields,
    };
    match codeview {
        CodeView::Rsds {
            guid,
            age,
            name,
            ..
        } => {
            let id = GuidAge {
                guid: *guid.as_bytes(),
                age: *age,
            };
            print_around(
                out,
                &row![b",\"code_id\":", code, b",\"debug_file\":"],
                &BytesString(name),
                &row![b",\"debug_id\":", id, b"}"],
            )
        }
        CodeView::Other { .. } => {
            let id = OtherDebugId {
                build_id,
                pdb20: Pdb20::read(head, size),
            };
            out.print(&row![
                b",\"code_id\":",
                code,
                b",\"debug_file\":null,\"debug_id\":",
                id,
                b"}",
            ])
        }
        CodeView::Short { .. } => out.print(&row![
            b",\"code_id\":",
            code,
            b",\"debug_file\":null,\"debug_id\":null}",
        ]),
    }
}

/// Prints the ids of a module with a CodeView record.
fn print_codeview_ids<O: Printer>(
    fields: &ModuleRecord,
    bytes: &CodeViewBytes<'_>,
    out: &mut O,
) -> Result<(), OutFailed>
    ensures { Puts result (O.state out.old) (codeview_ids_text fields.now (take (min bytes.now.size 24) bytes.now.head) bytes.now.rest.now bytes.now.size) (O.state out.new) }
{
    print_told_ids(fields, head_of(bytes), bytes.size, &bytes.read(), out)
}

/// Prints the last part of the object of a module: its ids. `codeview` is the CodeView record of the module, if the
/// record lies inside the file.
pub fn print_module_ids<O: Printer>(
    fields: &ModuleRecord,
    codeview: Option<CodeViewBytes<'_>>,
    out: &mut O,
) -> Result<(), OutFailed>
    ensures { Puts result (O.state out.old) (module_ids_text fields.now codeview.entry) (O.state out.new) }
{
    match codeview {
        Some(bytes) => print_codeview_ids(fields, &bytes, out),
        None => {
            let code = CodeIdString {
                build_id: None,
                fields: *fields,
            };
            out.print(&row![
                b",\"code_id\":",
                code,
                b",\"debug_file\":null,\"debug_id\":null}",
            ])
        }
    }
}
