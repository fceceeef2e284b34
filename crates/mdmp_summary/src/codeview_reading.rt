//! The CodeView record of a module in a file.
ghost use Rattle.std.specs.Prelude.{◌≡◌, ◌+◌, ℕ, List, Some, IfErr, IfOk, IsOk, length, min, take};
ghost use Rattle.mdmp_source.specs.Extent.{extent_of};
ghost use Rattle.mdmp_source.specs.Range.{IsInside, bytes_at};
ghost use Rattle.mdmp_source.specs.Source.{IsTold};
ghost use Rattle.mdmp_source.specs.Store.{IsGood};
ghost use Rattle.mdmp_lister.specs.CodeView.{fetched_behind};
ghost use Rattle.mdmp_summary.specs.Spending.{ReadsOutside};
ghost use Rattle.mdmp_summary.specs.Symbols.{AreSymbolsOf, FitsBuffer, TellsSymbols, rest_cost, symbols_amount};

use mdmp_lister::Walker;
use mdmp_source::{Extent, Location, SourceFault, Store};
use mdmp_wire::{CodeView, get_at};
use std::alloc::Allocator;

/// How many bytes of a CodeView record are read of any kind: they tell the kind and the identity.
const HEAD: usize = 24;

/// A CodeView record that was read, the end of it into a buffer.
#[derive(Clone, Copy)]
pub struct SymbolsRead {
    /// Its first 24 bytes, or all and then zeros if it has fewer.
    pub head: [u8; 24],
    /// How many bytes after them stand at the start of the buffer.
    pub rest: usize,
    /// How many bytes the whole record has.
    pub size: u32,
}

/// Reads the CodeView record at a location, if it lies inside the file: its first 24 bytes and, of a record of the
/// kind RSDS, as many of those after them as the buffer holds. They are read outside the listing: the first by one call,
/// and those after them by a second one, if there are any. Of a record that does not lie inside the file nothing is read.
pub fn read_symbols<S: Store + Drop, A: Allocator + Copy>(
    walker: &mut Walker<S, A>,
    at: Location,
    buffer: &mut [u8],
) -> Result<Option<SymbolsRead>, SourceFault>
    ensures room { length buffer.new ≡ length buffer.old }
    ensures gives { TellsSymbols (extent_of at walker.old.list.source.size) at (length buffer.old) result }
    ensures fits { IfOk result (FitsBuffer (length buffer.old)) }
    ensures value { (file : List ℕ) → walker.old.list.source.store.content ≡ Some file
        → IfOk result (λ read. AreSymbolsOf file at (length buffer.old) (extent_of at (length file)) read buffer.new) }
    ensures told { IfErr result (λ fault. IsTold fault walker.old.list.source walker.new.list.source) }
    ensures good { (file : List ℕ) → IsGood walker.old.list.source.store file → IsOk result }
    ensures reads { ReadsOutside (symbols_amount at (length buffer.old) result) walker.old walker.new }
{
    match at.classify(walker.size()) {
        Extent::Empty | Extent::Absent | Extent::Outside => Ok(None),
        Extent::Inside => {
            let mut head = [0; HEAD];
            let fetched = (at.size as usize).min(HEAD);
            walker.read_part(u64::from(at.rva), &mut head[..fetched])?;
            let rest = read_rest(walker, at, &head[..fetched], buffer)?;
            Ok(Some(SymbolsRead {
                head,
                rest,
                size: at.size,
            }))
        }
    }
}

/// Reads the bytes after the first 24 of a CodeView record, which are `head`: of the kind RSDS as many as it has and
/// the buffer holds, by one call if there are any. The answer is how many were read.
fn read_rest<S: Store + Drop, A: Allocator + Copy>(
    walker: &mut Walker<S, A>,
    at: Location,
    head: &[u8],
    buffer: &mut [u8],
) -> Result<usize, SourceFault>
    requires inside { IsInside at.rva at.size walker.old.list.source.size }
    requires head { length head.now ≡ min at.size 24 }
    ensures room { length buffer.new ≡ length buffer.old }
    ensures count { IfOk result (λ n. n ≡ fetched_behind head.now at.size (length buffer.old)) }
    ensures value { (file : List ℕ) → walker.old.list.source.store.content ≡ Some file → IfOk result (λ n. take n buffer.new ≡ bytes_at file (at.rva + 24) n) }
    ensures told { IfErr result (λ fault. IsTold fault walker.old.list.source walker.new.list.source) }
    ensures good { (file : List ℕ) → IsGood walker.old.list.source.store file → IsOk result }
    ensures reads { ReadsOutside (rest_cost at (length buffer.old) result) walker.old walker.new }
{
    if at.size < 24 {
        return Ok(0);
    }
    let kind: u32 = get_at(head, 0);
    if kind != CodeView::RSDS {
        return Ok(0);
    }
    let count = (at.size as usize - HEAD).min(buffer.len());
    if count == 0 {
        return Ok(0);
    }
    walker.read_part(u64::from(at.rva) + 24, &mut buffer[..count])?;
    Ok(count)
}
