//! Where the records of a stream stand.
ghost use Rattle.std.specs.Prelude.{◌≡◌, ◌≤◌, ◌+◌, ◌*◌, ◌<◌, None, length, IfOk, IfSome};
ghost use Rattle.mdmp_source.specs.Range.{IsInside};
ghost use Rattle.mdmp_lister.specs.Format.Shape.{FitsIn, IsShapedIn, location_fault, shape_of};
ghost use Rattle.mdmp_lister.specs.Format.Kind.{record_size};

use crate::fault::{Fault, FaultKind};
use crate::head::{check_head, head_of};
use crate::kind::StreamKind;
use mdmp_source::{Location, inside};
use mdmp_wire::Entry;

/// Where the records of a stream stand. What follows the last one is not looked at.
#[derive(Clone, Copy, Debug, PartialEq, Eq)]
pub struct Shape {
    /// The offset of the first one from the start of the stream, in bytes.
    pub first: u64,
    /// How many bytes one begins behind the one before it.
    pub stride: u64,
    /// How many there are.
    pub count: u64,
}

/// The fault of an entry whose location is not inside a file of `size` bytes. That of an unused entry
/// is not looked at.
pub(crate) fn location_fault(entry: Entry, size: u64) -> Option<Fault>
    ensures fault { result ≡ location_fault size entry }
    ensures kind { IfSome result (λ fault. fault.kind ≡ FaultKind.StreamOutside) }
    ensures inside { result ≡ None → 0 < entry.stream_type → IsInside entry.location.rva entry.location.size size }
{
    let offset = u64::from(entry.location.rva);
    let len = u64::from(entry.location.size);
    if entry.stream_type == 0 || inside(offset, len, size) {
        return None;
    }
    Some(Fault {
        kind: FaultKind::StreamOutside,
        offset,
        size: len,
    })
}

/// Where the records of a stream stand, or its first fault: too short for its head, a bad header
/// size, a bad entry size, a bad count. The stream lies inside the file, or has no bytes. The
/// records themselves are not read.
#[tactic(auto, unfolding(crate::specs::Format::Shape::shape_of))]
pub fn shape_of(file: &[u8], location: Location, kind: StreamKind) -> Result<Shape, Fault>
    requires { IsInside location.rva location.size (length file.now) }
    ensures shape { result ≡ shape_of file.now location.rva location.size kind }
    ensures fits { IfOk result (λ shape. FitsIn location.size kind shape) }
{
    check_head(location, kind)?;
    let at = location.rva as usize;
    let least = kind.form().head_cost() as usize;
    let head = head_of(&file[at..at + least], location, kind)?;
    Ok(head.shape)
}

/// Where a record stands of a stream that lies inside a file of `size` bytes.
pub(crate) fn record_at(
    stream: Location,
    kind: StreamKind,
    shape: Shape,
    index: u64,
    size: u64,
) -> u64
    requires inside { IsShapedIn size stream kind shape }
    requires left { index < shape.count }
    ensures place { result ≡ stream.rva + shape.first + index * shape.stride }
    ensures room { result + record_size kind ≤ size }
    ensures end { result + record_size kind ≤ stream.rva + stream.size }
    ensures whole { stream.rva + stream.size ≤ size }
{
    u64::from(stream.rva) + shape.first + index * shape.stride
}
