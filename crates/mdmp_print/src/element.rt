//! Pieces of the elements of a list, one behind the other.
ghost use Rattle.std.specs.Prelude.{◌≡◌, ◌+◌, ◌*◌, ◌≤◌, length};
ghost use Rattle.std.specs.List.{flat_map};
ghost use Rattle.mdmp_print.specs.Buffer.{IsPutBehind};

use crate::piece::Piece;

/// A piece that is made of one element of a list.
pub(crate) trait Element<T>: Piece {
    ghost of: { T → Self };

    /// The piece of an element.
    fn of(element: T) -> Self
        ensures { result ≡ of element };
}

/// Puts the pieces of some elements behind the first `len` bytes.
#[inline(always)]
pub(crate) fn each_at<T: Copy, E: Element<T> + Copy>(
    buffer: &mut [u8],
    len: usize,
    elements: &[T],
) -> usize
    requires { len + E.most * length elements.now ≤ length buffer.old }
    ensures { IsPutBehind buffer.old len (flat_map (λ x. E.text (E.of x)) elements.now) (E.most * length elements.now) buffer.new result }
{
    let mut len = len;
    for element in elements {
        len = E::of(*element).write_at(buffer, len);
    }
    len
}
