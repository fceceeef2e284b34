//! The head of a stream, read through a source.
ghost use Rattle.std.specs.Prelude.{◌≡◌, ◌≤◌, ◌+◌, ℕ, List, Some, IfOk};
ghost use Rattle.mdmp_source.specs.Range.{IsInside};
ghost use Rattle.mdmp_wire.specs.Number.{number_at};
ghost use Rattle.mdmp_lister.specs.Fetching.{BeginsStream, IsHeadOf, ReadsHead, TriesHead, shape_told};
ghost use Rattle.mdmp_lister.specs.Following.{IsSomeShape};
ghost use Rattle.mdmp_lister.specs.Format.Kind.{greatest_record};
ghost use Rattle.mdmp_lister.specs.Format.Shape.{shape_of};
ghost use Rattle.mdmp_lister.specs.Fault.{Answers};
ghost use Rattle.mdmp_lister.specs.Meter.{TriesRead};
ghost use Rattle.mdmp_lister.specs.StreamHead.{head_spent};

use crate::fault::Fault;
use crate::fetching::fetch_front;
use crate::head::{Head, check_head, head_of};
use crate::holding::hold;
use crate::kind::StreamKind;
use crate::meter::Meter;
use mdmp_source::{Location, Store, Window};
use std::alloc::Allocator;

/// How many bytes of a head are fetched at most, of any form.
const GREATEST_HEAD: usize = 16;

/// What the head of a stream says, fetched past the window, or the first fault of the stream: too
/// short for its head, a bad header size, a bad entry size, a bad count.
#[tactic(auto, unfolding(crate::specs::Format::Shape::shape_of))]
pub(crate) fn fetch_head<S: Store>(
    meter: &mut Meter<S>,
    at: Location,
    kind: StreamKind,
) -> Result<Head, Fault>
    requires { IsInside at.rva at.size meter.old.source.size }
    ensures shape { (file : List ℕ) → meter.old.source.store.content ≡ Some file
        → Answers (shape_of file at.rva at.size kind) (λ head. head.shape) result }
    ensures base { (file : List ℕ) → meter.old.source.store.content ≡ Some file
        → kind ≡ StreamKind.Memory64 → IfOk result (λ head. head.base ≡ number_at file (at.rva + 8) 8) }
    ensures head { IfOk result (IsHeadOf at.size kind) }
    ensures reads { ReadsHead at.size kind result meter.old meter.new }
    ensures tries { TriesRead at.rva (head_spent at.size kind) result meter.old meter.new }
{
    check_head(at, kind)?;
    let least = kind.form().head_cost() as usize;
    if least == 0 {
        return head_of(&[], at, kind);
    }
    let mut bytes = [0; GREATEST_HEAD];
    fetch_front(meter, u64::from(at.rva), &mut bytes, least)?;
    head_of(&bytes[..least], at, kind)
}

/// What the head of a stream says, or its first fault. A window is started over the stream, and then
/// holds what was fetched of it; of a stream that is too short nothing is fetched.
#[tactic(auto, unfolding(crate::specs::Format::Shape::shape_of))]
pub(crate) fn begin_stream<S: Store, A: Allocator>(
    meter: &mut Meter<S>,
    window: &mut Window<A>,
    at: Location,
    kind: StreamKind,
) -> Result<Head, Fault>
    requires inside { IsInside at.rva at.size meter.old.source.size }
    requires room { greatest_record ≤ window.old.room }
    ensures shape { (file : List ℕ) → meter.old.source.store.content ≡ Some file
        → Answers (shape_of file at.rva at.size kind) (λ head. head.shape) result }
    ensures base { (file : List ℕ) → meter.old.source.store.content ≡ Some file
        → kind ≡ StreamKind.Memory64 → IfOk result (λ head. head.base ≡ number_at file (at.rva + 8) 8) }
    ensures head { IfOk result (IsHeadOf at.size kind) }
    ensures begins { BeginsStream at result meter.old meter.new window.old window.new }
    ensures tries { TriesHead at kind result meter.old meter.new window.old window.new }
    ensures some { IsSomeShape at kind (shape_told result) }
{
    check_head(at, kind)?;
    let start = u64::from(at.rva);
    window.start(start, start + u64::from(at.size));
    let least = kind.form().head_cost() as usize;
    hold(meter, window, start, least)?;
    head_of(&window.bytes()[..least], at, kind)
}
