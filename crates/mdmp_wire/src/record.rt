//! Structures of fixed size, and one of them at a place among bytes.
ghost use Rattle.std.specs.Prelude.{◌≡◌, ◌≤◌, ◌+◌, ◌++◌, ℕ, List, length, take, drop};

/// A structure of fixed size, as it stands in a file.
///
/// The structures of the format are records, and so are their fields: a number of 1, 2, 4 or 8
/// bytes, some numbers in a row, or a smaller structure. `read` and `write` of a structure are then
/// a table each, of its fields and their offsets, and one contract serves all of them.
// A pointer cast to a `repr(C)` struct was turned down: the format packs fields to 4 bytes, and the
// bytes of a file have no alignment at all. A macro that makes both tables of one was, too: two
// plain tables can be read against the header, and the clause `back` keeps them together.
pub trait Record: Copy {
    // How many bytes it takes.
    ghost SIZE: { ℕ };

    /// How many bytes it takes.
    const SIZE: usize;

    // The record that stands at a place in a list of bytes.
    ghost at: { List ℕ → ℕ → Self };

    // Its bytes.
    ghost bytes_of: { Self → List ℕ };

    /// The record of these bytes. Those that belong to no field are ignored.
    fn read(bytes: &[u8]) -> Self
        requires { length bytes.now ≡ SIZE }
        ensures { result ≡ at bytes.now 0 };

    /// Writes the record over these bytes, with zeros where it has no field, so that `read` gives
    /// it back.
    fn write(&self, out: &mut [u8])
        requires { length out.old ≡ SIZE }
        ensures bytes { out.new ≡ bytes_of self.now }
        ensures back { at out.new 0 ≡ self.now };

    // It is read of its own bytes alone: those before and behind it do not matter.
    ghost part: { (n o : ℕ) (F : List ℕ) → SIZE ≤ n → at (take n (drop o F)) 0 ≡ at F o };
}

/// The record that stands at an offset in these bytes.
pub fn get_at<R: Record>(bytes: &[u8], at: usize) -> R
    requires { at + R.SIZE ≤ length bytes.now }
    ensures { result ≡ R.at bytes.now at }
{
    R::read(&bytes[at..at + R::SIZE])
}

/// Writes a record at an offset in these bytes. What stands before it stays, and so does what
/// stands behind it.
pub fn put_at<R: Record>(out: &mut [u8], at: usize, value: &R)
    requires { at + R.SIZE ≤ length out.old }
    ensures bytes { take (at + R.SIZE) out.new ≡ take at out.old ++ R.bytes_of value.now }
    ensures rest { drop (at + R.SIZE) out.new ≡ drop (at + R.SIZE) out.old }
    ensures length { length (R.bytes_of value.now) ≡ R.SIZE }
    ensures back { R.at (R.bytes_of value.now) 0 ≡ value.now }
{
    value.write(&mut out[at..at + R::SIZE]);
}
