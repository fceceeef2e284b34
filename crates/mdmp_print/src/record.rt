//! Records of streams, printed in either form.
ghost use Rattle.std.specs.Prelude.{◌≡◌, ◌+◌, ◌≤◌, ◌++◌, ◌&&◌, [], true, codes};
ghost use Rattle.mdmp_source.specs.Output.{Puts};
ghost use Rattle.mdmp_print.specs.Forms.{in_form, name_member};
ghost use Rattle.mdmp_print.specs.ItemLines.{name_text};
ghost use Rattle.mdmp_print.specs.Json.{object_line};
ghost use Rattle.mdmp_print.specs.Shown.{are_plain, line_tokens};

use crate::fields::RecordFields;
use crate::form::LineForm;
use crate::json_text::NameValue;
use crate::name::NameText;
use crate::object_line::{print_object, print_object_around};
use crate::printer::Printer;
use crate::row;
use crate::text::print_around;
use crate::values::Members;
use mdmp_lister::Name;
use mdmp_source::OutFailed;

/// Prints a record: its kind and its fields.
#[inline(always)]
pub fn print_record<O: Printer, F: RecordFields + Drop, const N: usize>(
    form: LineForm,
    out: &mut O,
    kind: &[u8; N],
    fields: F,
) -> Result<(), OutFailed>
    requires fits { (N + F.most ≤ 900) × (N + F.Members.most ≤ 900) }
    requires plain { (are_plain kind.now && F.Members.is_plain (F.members_of fields)) ≡ true }
    ensures { Puts result (O.state out.old)
        (in_form form (kind.now ++ F.text fields) (object_line (line_tokens kind.now (F.Members.onto (F.members_of fields) []))))
        (O.state out.new) }
{
    match form {
        LineForm::Text => out.print(&(kind, fields)),
        LineForm::Json => print_object(out, kind, fields.members()),
    }
}

/// Prints a record that has a name: its kind, its fields and its name, and in an object the members behind the name.
#[inline(always)]
pub fn print_named_record<
    O: Printer,
    F: RecordFields + Drop,
    R: Members + Drop,
    const N: usize,
    const K: usize,
>(
    form: LineForm,
    out: &mut O,
    kind: &[u8; N],
    fields: F,
    key: &[u8; K],
    name: &Name<'_>,
    rest: R,
) -> Result<(), OutFailed>
    requires fits { (N + (K + F.most) ≤ 900) × ((N + (K + F.Members.most) ≤ 900) × (R.most ≤ 900)) }
    requires plain { (are_plain kind.now && (F.Members.is_plain (F.members_of fields) && (are_plain key.now && R.is_plain rest))) ≡ true }
    ensures { Puts result (O.state out.old)
        (in_form form (kind.now ++ F.before fields (codes " " ++ (key.now ++ (codes " " ++ (name_text name.now ++ codes "\n")))))
        (object_line (line_tokens kind.now (F.Members.onto (F.members_of fields) (name_member key.now name.now ++ R.onto rest [])))))
        (O.state out.new) }
{
    match form {
        LineForm::Text => print_around(
            out,
            &(kind, (fields, (b" ", (key, b" ")))),
            &NameText(name),
            &row![b"\n"],
        ),
        LineForm::Json => {
            print_object_around(out, kind, fields.members(), key, &NameValue(name), rest)
        }
    }
}

/// The fields of a record, and the end of its line.
#[macro_export]
macro_rules! fields {
    (@ $end:expr;) => { $end };
    (@ $end:expr; $a:expr, $b:expr, $c:expr, $d:expr, $e:expr, $f:expr, $g:expr $(, $rest:expr)*) => {
        ($a, $b, $c, $d, $e, $f, $g, $crate::fields!(@ $end; $($rest),*))
    };
    (@ $end:expr; $field:expr $(, $rest:expr)*) => { ($field, $crate::fields!(@ $end; $($rest),*)) };
    ($($field:expr),* $(,)?) => { $crate::fields!(@ $crate::LineEnd; $($field),*) };
}

/// The fields of a record, behind which a name follows.
#[macro_export]
macro_rules! fields_and_name {
    ($($field:expr),* $(,)?) => { $crate::fields!(@ (); $($field),*) };
}
