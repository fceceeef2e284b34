//! Where the streams of a dump stand as it is written, and whether it can be.
ghost use Rattle.std.specs.Prelude.{◌≡◌, ◌<◌, ◌^◌, length, IsTrue, IsFalse, MatchOption, MatchResult, IfSome, None, Some, ◌≤◌, ◌+◌, ◌-◌, ◌*◌};
ghost use Rattle.mdmp_dump.specs.declared.dump.Dump.{Dump};
ghost use Rattle.mdmp_dump.specs.Places.{up};
ghost use Rattle.mdmp_dump.specs.Shape.{is_far, IsViewOf, stream_at};
ghost use Rattle.mdmp_writer.specs.Layout.{AreEnds, block_size, far_size, first_misnamed, is_misnamed, is_too_large, IsRoom, stream_room, shape_fault, size_answer, layout_fault, size_or, written_size};

use crate::fault::LayoutFault;
use mdmp_dump::{DumpView, Kind};
use mdmp_lister::StreamKind as StreamKind;

/// What a stream is, and what it takes.
#[derive(Clone, Copy)]
pub(crate) struct StreamRoom {
    pub kind: Kind,
    /// Its body, without what pads it.
    pub body: u64,
    /// Its names and parts, which stand behind its body.
    pub parts: u64,
    /// Its 64-bit memory, which stands behind all streams.
    pub far: u64,
}

impl StreamRoom {
    /// Its body and behind it its names and parts.
    pub(crate) fn block(self) -> u64
        requires { up self.body + self.parts < 2 ^ 64 }
        ensures { result ≡ up self.body + self.parts }
    {
        self.body.next_multiple_of(4) + self.parts
    }
}

/// Where what is written ends.
#[derive(Clone, Copy)]
pub(crate) struct LayoutEnds {
    /// The streams; the 64-bit memory stands behind them.
    pub blocks: u64,
    /// The file.
    pub file: u64,
}

/// How many bytes a dump has as it is written, or why it can't be written. It asks the view for
/// sizes alone.
pub fn written_size<V: DumpView>(view: &mut V) -> Result<u64, LayoutFault>
    ensures shape { V.shape view.new ≡ V.shape view.old }
    ensures cursor { V.cursor view.new ≡ V.cursor view.old }
    ensures answer { result ≡ size_answer (V.shape view.old).streams }
    ensures value { (d : Dump V.Memory) → IsViewOf d (V.shape view.old) → result ≡ size_or (written_size d) (layout_fault d) }
    ensures spent { V.spent view.new ≡ V.spent view.old }
    ensures moves { V.Moves view.old view.new }
{
    let ends = layout(view)?;
    Ok(ends.file)
}

/// Where what is written ends, or why it can't be written.
pub(crate) fn layout<V: DumpView>(view: &mut V) -> Result<LayoutEnds, LayoutFault>
    ensures shape { V.shape view.new ≡ V.shape view.old }
    ensures cursor { V.cursor view.new ≡ V.cursor view.old }
    ensures ends { MatchResult result
        (λ ends. (shape_fault (V.shape view.old).streams ≡ None) × AreEnds (V.shape view.old).streams ends)
        (λ fault. shape_fault (V.shape view.old).streams ≡ Some fault) }
    ensures spent { V.spent view.new ≡ V.spent view.old }
    ensures moves { V.Moves view.old view.new }
{
    if let Some(stream) = misnamed_stream(view) {
        return Err(LayoutFault::RawKnownType { stream });
    }
    match find_ends(view) {
        Some(ends) => Ok(ends),
        None => Err(LayoutFault::TooLarge),
    }
}

/// Whether a stream holds raw bytes under the type of an unused stream, or under one whose records are
/// known.
fn is_misnamed(kind: Kind) -> bool
    ensures { result ≡ is_misnamed kind }
{
    match kind {
        Kind::Unused => false,
        Kind::Known(_) => false,
        Kind::Raw(stream_type) => {
            stream_type == 0 || StreamKind::of_type(stream_type).is_some()
        },
    }
}

/// The first stream that is misnamed.
fn misnamed_stream<V: DumpView>(view: &mut V) -> Option<u64>
    ensures shape { V.shape view.new ≡ V.shape view.old }
    ensures cursor { V.cursor view.new ≡ V.cursor view.old }
    ensures first { result ≡ first_misnamed 0 (V.shape view.old).streams }
    ensures spent { V.spent view.new ≡ V.spent view.old }
    ensures moves { V.Moves view.old view.new }
{
    for stream in 0..view.streams() {
        if is_misnamed(view.kind(stream)) {
            return Some(stream);
        }
    }
    None
}

/// Whether the bytes of a stream's records stand behind all streams.
pub(crate) fn is_far(kind: Kind) -> bool
    ensures { result ≡ is_far kind }
{
    match kind {
        Kind::Unused => false,
        Kind::Known(stream_type) => stream_type == StreamKind::Memory64.stream_type(),
        Kind::Raw(_) => false,
    }
}

/// What a stream takes that is not too much.
pub(crate) fn room_for<V: DumpView>(view: &mut V, stream: u64) -> StreamRoom
    requires stream { stream < length (V.shape view.old).streams }
    requires block { block_size (stream_at (V.shape view.old) stream) < 2 ^ 33 }
    requires far { far_size (stream_at (V.shape view.old) stream) < 2 ^ 64 }
    ensures shape { V.shape view.new ≡ V.shape view.old }
    ensures cursor { V.cursor view.new ≡ V.cursor view.old }
    ensures room { IsRoom (stream_at (V.shape view.old) stream) (Some result) }
    ensures spent { V.spent view.new ≡ V.spent view.old }
    ensures moves { V.Moves view.old view.new }
{
    let body = view.body_size(stream);
    let parts = view.parts_size(stream);
    let kind = view.kind(stream);
    stream_room(kind, body, parts)
}

/// What a stream of this kind takes, whose body has so many bytes, and whose names and parts so many.
fn stream_room(kind: Kind, body: u64, parts: u64) -> StreamRoom
    requires { parts ≤ 2 ^ 64 - 4 }
    ensures { result ≡ stream_room kind body parts }
{
    if is_far(kind) {
        StreamRoom {
            kind,
            body,
            parts: 0,
            far: parts.next_multiple_of(4),
        }
    } else {
        StreamRoom {
            kind,
            body,
            parts,
            far: 0,
        }
    }
}

/// What a stream takes, or none where that is too much.
fn room_if<V: DumpView>(view: &mut V, stream: u64) -> Option<StreamRoom>
    requires stream { stream < length (V.shape view.old).streams }
    ensures shape { V.shape view.new ≡ V.shape view.old }
    ensures cursor { V.cursor view.new ≡ V.cursor view.old }
    ensures room { IsRoom (stream_at (V.shape view.old) stream) result }
    ensures low { IfSome result (λ room. up room.body + room.parts < 2 ^ 33) }
    ensures spent { V.spent view.new ≡ V.spent view.old }
    ensures moves { V.Moves view.old view.new }
{
    let body = view.body_size(stream);
    let parts = view.parts_size(stream);
    let kind = view.kind(stream);
    if body > u64::from(u32::MAX) - 3 {
        return None;
    }
    if is_far(kind) {
        if parts > u64::MAX - 3 {
            return None;
        }
        return Some(stream_room(kind, body, parts));
    }
    if parts > u64::from(u32::MAX) {
        return None;
    }
    Some(stream_room(kind, body, parts))
}

/// The directory's end, or none where it is past 2^32 - 1.
fn directory_end(streams: u64) -> Option<u64>
    ensures { MatchOption result (2 ^ 32 ≤ 32 + streams * 12) (λ at. (at ≡ 32 + streams * 12) × (at < 2 ^ 32)) }
{
    if streams > (u64::from(u32::MAX) - 32) / 12 {
        return None;
    }
    Some(32 + 12 * streams)
}

/// Where the streams and the file end, or none where that is past the greatest address.
fn find_ends<V: DumpView>(view: &mut V) -> Option<LayoutEnds>
    ensures shape { V.shape view.new ≡ V.shape view.old }
    ensures cursor { V.cursor view.new ≡ V.cursor view.old }
    ensures ends { MatchOption result
        (IsTrue (is_too_large (V.shape view.old).streams))
        (λ ends. IsFalse (is_too_large (V.shape view.old).streams) × AreEnds (V.shape view.old).streams ends) }
    ensures spent { V.spent view.new ≡ V.spent view.old }
    ensures moves { V.Moves view.old view.new }
{
    let count = view.streams();
    let mut blocks = match directory_end(count) {
        Some(at) => at,
        None => return None,
    };
    let mut far = 0u64;
    for stream in 0..count {
        match room_if(view, stream) {
            Some(room) => {
                let block = room.block();
                if block > u64::from(u32::MAX) - blocks {
                    return None;
                }
                if room.far > u64::MAX - far {
                    return None;
                }
                blocks += block;
                far += room.far;
            },
            None => return None,
        }
    }
    if far > u64::MAX - blocks {
        return None;
    }
    Some(LayoutEnds {
        blocks,
        file: blocks + far,
    })
}
