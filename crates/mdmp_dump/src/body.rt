//! The bytes of a stream's body.
ghost use Rattle.std.specs.Prelude.{◌≡◌, ◌≤◌, ◌+◌, ◌*◌};
ghost use Rattle.mdmp_dump.specs.Shape.{head_of, row_of};

use mdmp_lister::StreamKind;

/// The bytes of so many records of this type, and of what stands before them.
pub(crate) fn rows_size(stream_type: u32, count: u64) -> u128
    ensures value { result ≡ head_of stream_type + count * row_of stream_type }
    ensures bound { result ≤ 16 + count * 168 }
{
    match StreamKind::of_type(stream_type) {
        Some(kind) => {
            let head = u128::from(kind.form().head_cost());
            head + u128::from(count) * u128::from(kind.record_size())
        }
        None => u128::from(count),
    }
}
