//! Tables of names, and the search in them.
ghost use Rattle.std.specs.Prelude.{◌≡◌, ◌≤◌, IfSome, length, true};
ghost use Rattle.std.specs.Option.{option_map};
ghost use Rattle.mdmp_names.specs.Table.{are_short, are_short_flags, flag_rows, flags_among, name_among, number_rows};

/// The name of the first row of a table that has this number.
pub(crate) fn name_in(mut table: &[(u32, &'static str)], number: u32) -> Option<&'static str>
    requires { are_short (number_rows table.now) ≡ true }
    ensures named { option_map (λ name. name.now) result ≡ name_among (number_rows table.entry.now) number }
    ensures short { IfSome result (λ name. length name.now ≤ 64) }
{
    while let [row, rest @ ..] = table {
        if row.0 == number {
            return Some(row.1);
        }
        table = rest;
    }
    None
}

/// The name of the first row of a table that has this code and these flags.
pub(crate) fn flags_in(
    mut table: &[(u32, u32, &'static str)],
    code: u32,
    flags: u32,
) -> Option<&'static str>
    requires { are_short_flags (flag_rows table.now) ≡ true }
    ensures named { option_map (λ name. name.now) result ≡ flags_among (flag_rows table.entry.now) code flags }
    ensures short { IfSome result (λ name. length name.now ≤ 64) }
{
    while let [row, rest @ ..] = table {
        if row.0 == code && row.1 == flags {
            return Some(row.2);
        }
        table = rest;
    }
    None
}
