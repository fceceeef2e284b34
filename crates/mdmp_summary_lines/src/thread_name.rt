//! The name of a thread, behind its id.
ghost use Rattle.mdmp_summary_lines.specs.CrashText.{thread_name_text};

use mdmp_lister::Name;
use mdmp_print::{LongText, NameText, Printer, print_around, row};
use mdmp_source::OutFailed;

/// The name of a thread in double quotes, if it has one that was read and is not empty.
#[derive(Drop)]
pub(crate) struct NameOfThread<'n, 'a>(pub(crate) &'n Name<'a>);

impl<'n, 'a> LongText for NameOfThread<'n, 'a> {
    ghost text = { λ t. thread_name_text t.0.now };

    fn print<O: Printer>(&self, out: &mut O) -> Result<(), OutFailed> {
        match self.0 {
            Name::Units(units) => {
                if units.len() == 0 {
                    return out.print(&row![]);
                }
                print_around(out, &row![b" "], &NameText(self.0), &row![])
            }
            Name::None | Name::Long(_) => out.print(&row![]),
        }
    }
}
