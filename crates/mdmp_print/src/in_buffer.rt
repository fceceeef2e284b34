//! Texts that are put together in a buffer.
ghost use Rattle.std.specs.Prelude.{◌+◌, ◌≤◌, length};
ghost use Rattle.mdmp_print.specs.Buffer.{IsPutBehind};

/// Puts a text of known length behind the first `len` bytes of a buffer, and answers how long both
/// are.
// An array and not a slice: its length is known when this is compiled, and the buffer can't overlap it,
// so that it is one store or two.
#[inline(always)]
pub(crate) fn text_at<const N: usize>(text: &mut [u8], len: usize, piece: [u8; N]) -> usize
    requires { len + N ≤ length text.old }
    ensures { IsPutBehind text.old len piece.entry N text.new result }
{
    let end = len + N;
    text[len..end].copy_from_slice(&piece);
    end
}

/// Puts a text behind the first `len` bytes of a buffer, and returns where it ends.
pub fn slice_at(text: &mut [u8], len: usize, piece: &[u8]) -> usize
    requires { len + length piece.now ≤ length text.old }
    ensures { IsPutBehind text.old len piece.now (length piece.now) text.new result }
{
    let end = len + piece.len();
    text[len..end].copy_from_slice(piece);
    end
}
