//! The modules in the object of a summary.
ghost use Rattle.std.specs.Prelude.{◌≡◌, ◌++◌, refl};
ghost use Rattle.mdmp_source.specs.Output.{Puts};
ghost use Rattle.mdmp_summary_lines.specs.JsonModules.{comma_unless, end_address, module_front_text};

use crate::json_text::NameString;
use mdmp_lister::ModuleItem;
use mdmp_print::{Hex16, InQuotes, Piece, Prefixed, Printer, Version, print_around, row};
use mdmp_source::OutFailed;
use mdmp_wire::ModuleRecord;

/// The comma in front of an element, unless it is the first.
#[derive(Clone, Copy)]
pub(crate) struct CommaUnless {
    pub(crate) is_first: bool,
}

impl Piece for CommaUnless {
    ghost text = { λ p. comma_unless p.is_first };

    ghost before = { λ p more. comma_unless p.is_first ++ more };

    ghost most = { 1 };

    ghost joined = { λ p more. refl };

    fn write_at(&self, buffer: &mut [u8], at: usize) -> usize {
        if self.is_first {
            return at;
        }
        b",".write_at(buffer, at)
    }
}

/// The address after the last byte of a module, or the greatest address if it is less.
fn end_address(fields: &ModuleRecord) -> u64
    ensures { result ≡ end_address fields.now }
{
    fields
        .base_of_image
        .saturating_add(u64::from(fields.size_of_image))
}

/// Prints the first part of the object of a module: its name, its addresses and its version. A comma comes first,
/// unless `is_first` is true. [`print_module_ids`](crate::print_module_ids) prints the rest.
pub fn print_module_front<O: Printer>(
    is_first: bool,
    item: &ModuleItem<'_>,
    out: &mut O,
) -> Result<(), OutFailed>
    ensures { Puts result (O.state out.old) (module_front_text is_first item.now) (O.state out.new) }
{
    let fields = &item.fields;
    let version = fields.version_info;
    print_around(
        out,
        &row![CommaUnless { is_first }, b"{\"filename\":"],
        &NameString(&item.name),
        &row![
            b",\"base_addr\":",
            InQuotes(Prefixed(Hex16(fields.base_of_image))),
            b",\"end_addr\":",
            InQuotes(Prefixed(Hex16(end_address(fields)))),
            b",\"version\":",
            InQuotes(Version(version.file_version_ms, version.file_version_ls)),
        ],
    )
}
