//! What is read of the CodeView record of a module.
ghost use Rattle.std.specs.Prelude.{◌≡◌, ◌≤◌, ◌+◌, IfOk, length, min, take};
ghost use Rattle.mdmp_source.specs.Count.{raised};
ghost use Rattle.mdmp_source.specs.Range.{IsInside};
ghost use Rattle.mdmp_lister.specs.CodeView.{IsCodeViewOf, ReadsCodeView, codeview_fetches, codeview_most, fetched_behind};
ghost use Rattle.mdmp_lister.specs.Fetching.{ReadsBeside};
ghost use Rattle.mdmp_lister.specs.Meter.{BooksAside};

use crate::meter::Meter;
use crate::name_buffer::NameBuffer;
use mdmp_source::{Location, SourceFault, Store};
use mdmp_wire::{CodeView, get_at};
use std::alloc::Allocator;

/// The bytes of a CodeView record that say what it tells, of a name as many as the limit on names.
///
/// They stand apart from the [`CodeView`] that they tell, since a value that holds a [`Uuid`](uuid::Uuid)
/// can't say what it leaves of the lister that it was lent from.
#[derive(Clone, Copy)]
pub struct CodeViewBytes<'a> {
    /// The first 24 bytes of the record, or all and then zeros where it has fewer.
    pub head: [u8; 24],
    /// The bytes behind them that were fetched: none of a record of another kind than RSDS.
    pub rest: &'a [u8],
    /// How many bytes the whole record has.
    pub size: u32,
}

impl<'a> CodeViewBytes<'a> {
    ghost use Rattle.mdmp_wire.specs.CodeView.{codeview_value};
    ghost use Rattle.mdmp_lister.specs.CodeView.{codeview_told};

    /// What the record tells.
    pub fn read(&self) -> CodeView<'a>
        ensures { codeview_value result ≡ codeview_told self.now }
    {
        let fetched = (self.size as usize).min(24);
        CodeView::read(&self.head[..fetched], self.rest, self.size)
    }
}

/// A CodeView record that was fetched, its end into the front of a buffer.
#[derive(Clone, Copy)]
pub(crate) struct CodeViewRead {
    /// Its first 24 bytes, or all and then zeros where it has fewer.
    pub head: [u8; 24],
    /// How many bytes stand in the buffer.
    pub rest: usize,
    /// How many bytes the whole record has.
    pub size: u32,
}

/// Fetches the first 24 bytes of a CodeView record into `head`, or all where it has fewer, and of a
/// record of the kind RSDS as many of the bytes behind them into the front of `rest` as it has and
/// `rest` holds; nothing more is fetched if those are none. The answer is how many bytes of `rest` were fetched.
#[tactic(auto, unfolding(mdmp_wire::specs::Number::array_at))]
fn fetch_codeview<S: Store, A: Allocator>(
    meter: &mut Meter<S>,
    location: Location,
    head: &mut [u8],
    rest: &mut NameBuffer<A>,
) -> Result<usize, SourceFault>
    requires head { length head.old ≡ min location.size 24 }
    requires inside { IsInside location.rva location.size meter.old.source.size }
    ensures limit { rest.new.limit ≡ rest.old.limit }
    ensures holds { IfOk result (λ count. count ≤ length rest.new.items) }
    ensures room { IfOk result (λ count. count ≡ fetched_behind head.new location.size rest.new.limit) }
    ensures books { IfOk result (λ count. BooksAside (codeview_fetches count) (min location.size 24 + count) meter.old meter.new) }
    ensures counted { IfOk result (λ count. meter.new.aside.bytes ≡ raised meter.old.aside.bytes (min location.size 24 + count)) }
    ensures reads { ReadsBeside 2 (codeview_most location rest.new.limit) (λ file count. IsCodeViewOf file location rest.new.limit head.new (take count rest.new.items) location.size) result meter.old meter.new }
{
    let at = u64::from(location.rva);
    meter.fetch_aside(at, head)?;
    if location.size < 24 {
        return Ok(0);
    }
    let kind: u32 = get_at(head, 0);
    if kind != CodeView::RSDS {
        return Ok(0);
    }
    let count = (location.size as usize - 24).min(rest.limit());
    if count == 0 {
        return Ok(0);
    }
    rest.fetch_aside(meter, at + 24, count)?;
    Ok(count)
}

/// Reads a CodeView record, of its name as many bytes as the buffer holds.
pub(crate) fn read_codeview<S: Store, A: Allocator>(
    meter: &mut Meter<S>,
    location: Location,
    buffer: &mut NameBuffer<A>,
) -> Result<CodeViewRead, SourceFault>
    requires { IsInside location.rva location.size meter.old.source.size }
    ensures limit { buffer.new.limit ≡ buffer.old.limit }
    ensures reads { ReadsCodeView location buffer.new.limit buffer.new.items result meter.old meter.new }
{
    let mut head = [0; 24];
    let size = location.size;
    let fetched = (size as usize).min(24);
    let rest = fetch_codeview(meter, location, &mut head[..fetched], buffer)?;
    Ok(CodeViewRead { head, rest, size })
}
