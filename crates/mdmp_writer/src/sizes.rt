//! The sizes of a stream, as a view tells them.
ghost use Rattle.std.specs.Prelude.{◌≡◌, ◌≤◌, ◌<◌, ◌+◌, ◌*◌, ℕ};
ghost use Rattle.mdmp_dump.specs.Shape.{head_by, row_by};

use mdmp_lister::StreamKind;

/// How many records of this size have so many bytes.
fn rows_in(bytes: u64, size: u32) -> u64
    requires { 0 < size }
    ensures bound { result ≤ bytes }
    ensures count { (n : ℕ) → bytes ≡ n * size → result ≡ n }
{
    bytes / u64::from(size)
}

/// How many records of this kind a body of so many bytes has.
pub(crate) fn count_of(kind: Option<StreamKind>, body: u64) -> u64
    ensures bound { result ≤ body }
    ensures count { (n : ℕ) → body ≡ head_by kind + n * row_by kind → result ≡ n }
{
    match kind {
        Some(kind) => {
            let head = u64::from(kind.form().head_cost());
            rows_in(body.saturating_sub(head), kind.record_size())
        }
        None => body,
    }
}
