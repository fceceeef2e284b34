//! Objects, a line each.
ghost use Rattle.std.specs.Prelude.{◌≡◌, ◌+◌, ◌≤◌, ◌&&◌, ◌++◌, ◌∷◌, [], true};
ghost use Rattle.json.specs.Token.{key};
ghost use Rattle.mdmp_source.specs.Output.{Puts};
ghost use Rattle.mdmp_print.specs.Json.{object_line};
ghost use Rattle.mdmp_print.specs.Shown.{are_plain, line_tokens};

use crate::printer::Printer;
use crate::row;
use crate::text::print_around;
use crate::values::{LongValue, Members};
use mdmp_source::OutFailed;

/// Prints an object on a line: what it is of, and its other members.
#[inline(always)]
pub fn print_object<O: Printer, M: Members + Drop, const N: usize>(
    out: &mut O,
    line: &[u8; N],
    members: M,
) -> Result<(), OutFailed>
    requires fits { N + M.most ≤ 960 }
    requires plain { (are_plain line.now && M.is_plain members) ≡ true }
    ensures { Puts result (O.state out.old) (object_line (line_tokens line.now (M.onto members []))) (O.state out.new) }
{
    out.print(&row![b"{\"line\":\"", line, b"\"", members, b"}\n"])
}

/// Prints an object on a line, one of whose members has a value of any length.
pub fn print_object_around<
    O: Printer,
    M: Members + Drop,
    T: LongValue,
    R: Members + Drop,
    const N: usize,
    const K: usize,
>(
    out: &mut O,
    line: &[u8; N],
    members: M,
    name: &[u8; K],
    value: &T,
    rest: R,
) -> Result<(), OutFailed>
    requires fits { (N + (K + M.most) ≤ 960) × (R.most ≤ 960) }
    requires plain { (are_plain line.now && (M.is_plain members && (are_plain name.now && R.is_plain rest))) ≡ true }
    ensures { Puts result (O.state out.old)
        (object_line (line_tokens line.now (M.onto members ((key name.now ∷ T.tokens value.now) ++ R.onto rest [])))) (O.state out.new) }
{
    print_around(
        out,
        &row![b"{\"line\":\"", line, b"\"", members, b",\"", name, b"\":"],
        value,
        &row![rest, b"}\n"],
    )
}
