//! Texts of any length, which are put into a buffer part by part.
ghost use Rattle.std.specs.Prelude.{◌≡◌, ◌+◌, ◌≤◌, ◌<◌, List, ℕ, length, []};
ghost use Rattle.mdmp_print.specs.Parts.{IsPartPut};

use crate::piece::LINE_ROOM;

/// Where a part ends.
#[derive(Clone, Copy)]
pub struct PartEnd {
    /// In the text: the place of the next part.
    pub next: usize,
    /// In the buffer.
    pub len: usize,
}

/// A text of any length, in parts of at most [`LINE_ROOM`] bytes. A part begins at a place, a number
/// below that of the places.
pub trait Parts {
    // The bytes from a place on.
    ghost text_from: { Self → ℕ → List ℕ };

    // How many places there are.
    ghost places: { Self → ℕ };

    /// How many places there are.
    fn places(&self) -> usize
        ensures count { result ≡ places self.now }
        ensures end { text_from self.now (places self.now) ≡ [] };

    /// Puts the part from a place on behind the first `len` bytes of a buffer.
    fn write_part(&self, place: usize, buffer: &mut [u8], len: usize) -> PartEnd
        requires place { place < places self.now }
        requires room { len + LINE_ROOM ≤ length buffer.old }
        ensures next { place < result.next × result.next ≤ places self.now }
        ensures put { IsPartPut buffer.old len (text_from self.now place) (text_from self.now result.next) LINE_ROOM buffer.new result.len };
}
