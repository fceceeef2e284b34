//! Numbers as hexadecimal digits.
ghost use Rattle.std.specs.Prelude.{◌≡◌, ◌<◌, length, false};
ghost use Rattle.std.specs.Fmt.{digit_glyph};
ghost use Rattle.mdmp_wire.specs.Digits.{hex};

/// The hexadecimal digit of a number below 16, in lower case.
fn digit(number: u8) -> u8
    requires { number < 16 }
    ensures { result ≡ digit_glyph false number }
{
    if number < 10 {
        b'0' + number
    } else {
        b'a' - 10 + number
    }
}

/// Fills the places with the last hexadecimal digits of `number`, in lower case.
pub fn hex_digits(number: u64, digits: &mut [u8])
    ensures { digits.new ≡ hex (length digits.old) number }
{
    let mut left = number;
    for i in (0..digits.len()).rev() {
        digits[i] = digit((left % 16) as u8);
        left /= 16;
    }
}
