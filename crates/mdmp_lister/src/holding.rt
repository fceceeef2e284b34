//! Bytes of a stretch of a file, held at the front of a window.
ghost use Rattle.std.specs.Prelude.{◌≡◌, ◌≤◌, length, min, take, OnOk};
ghost use Rattle.mdmp_source.specs.Range.{bytes_at};
ghost use Rattle.mdmp_lister.specs.Fetching.{Reads, TriesHold};
ghost use Rattle.mdmp_lister.specs.Holding.{ComesTo, IsAhead, Slides, needed, reached};
ghost use Rattle.mdmp_lister.specs.Meter.{Books};

use crate::fault::FetchFault;
use crate::meter::Meter;
use mdmp_source::{Store, Window};
use std::alloc::Allocator;

/// Moves a window on to `at`. What it holds from there on stays held; what lies before is passed over,
/// fetched or not.
#[inline(always)]
fn reach<A: Allocator>(window: &mut Window<A>, at: u64)
    requires from { window.old.place ≤ at }
    requires to { at ≤ window.old.end }
    ensures { window.new ≡ reached at window.old }
{
    let passed = at - window.place();
    if passed <= window.bytes().len() as u64 {
        window.consume(passed as usize);
    } else {
        let end = window.end();
        window.start(at, end);
    }
}

/// Sees to it that the `size` bytes at `at` stand at the front of what a window holds: by one fetch
/// where not all of them are held, else by none.
#[inline(always)]
pub(crate) fn hold<S: Store, A: Allocator>(
    meter: &mut Meter<S>,
    window: &mut Window<A>,
    at: u64,
    size: usize,
) -> Result<(), FetchFault>
    requires { IsAhead meter.old.source at size window.old }
    ensures reads { Reads window.old.room (Books (min 1 (needed at size window.old)) (needed at size window.old)) (λ file _. take size window.new.held ≡ bytes_at file at size)
        result meter.old meter.new }
    ensures comes { ComesTo at meter.old.source.store.content window.old window.new }
    ensures enough { OnOk result (size ≤ length window.new.held) }
    ensures slides { Slides at size window.old result window.new }
    ensures tries { TriesHold at size window.old result window.new meter.old meter.new }
{
    reach(window, at);
    if window.bytes().len() < size {
        meter.fill(window)?;
    }
    Ok(())
}
