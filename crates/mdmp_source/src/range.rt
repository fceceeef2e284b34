//! Ranges of a file.
ghost use Rattle.std.specs.Prelude.{◌≡◌, ◌↔◌, IsTrue};
ghost use Rattle.mdmp_source.specs.Range.{is_inside, IsInside};

/// Whether `len` bytes at the offset `at` lie inside a file of `size` bytes. No bytes lie inside
/// every file, wherever they are said to stand. The sum does not wrap.
pub fn inside(at: u64, len: u64, size: u64) -> bool
    ensures value { result ≡ is_inside at len size }
    ensures fact { IsTrue result ↔ IsInside at len size }
{
    len == 0 || (len <= size && at <= size - len)
}
