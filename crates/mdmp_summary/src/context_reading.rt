//! The registers in a context of a file.
ghost use Rattle.std.specs.Prelude.{◌≡◌, ℕ, List, Some, IfErr, IfOk, IsOk};
ghost use Rattle.mdmp_source.specs.Source.{IsTold};
ghost use Rattle.mdmp_source.specs.Store.{IsGood};
ghost use Rattle.mdmp_summary.specs.Spending.{ReadsContext};
ghost use Rattle.mdmp_summary.specs.Summary.{registers_of};

use crate::context::{Registers, registers_in};
use mdmp_lister::Walker;
use mdmp_source::{Extent, Location, SourceFault, Store};
use mdmp_wire::SystemRecord;
use std::alloc::Allocator;

/// How many bytes of a context are read at most. The three registers of each known layout are among them.
const CONTEXT_ROOM: usize = 272;

/// Reads the registers in the context at a location, by the system of the dump: at most 272 bytes by one call, outside
/// the listing. There are none if the context lies outside the file, or if its layout is not known. If it lies outside
/// the file, or the system is not known, nothing is read.
pub fn read_registers<S: Store + Drop, A: Allocator + Copy>(
    walker: &mut Walker<S, A>,
    system: Option<SystemRecord>,
    at: Location,
) -> Result<Option<Registers>, SourceFault>
    ensures value { (file : List ℕ) → walker.old.list.source.store.content ≡ Some file
        → IfOk result (λ registers. registers ≡ registers_of file system at) }
    ensures told { IfErr result (λ fault. IsTold fault walker.old.list.source walker.new.list.source) }
    ensures good { (file : List ℕ) → IsGood walker.old.list.source.store file → IsOk result }
    ensures reads { ReadsContext system at walker.old walker.new }
{
    let Some(system) = system else {
        return Ok(None);
    };
    match at.classify(walker.size()) {
        Extent::Empty | Extent::Absent | Extent::Outside => Ok(None),
        Extent::Inside => {
            let mut bytes = [0; CONTEXT_ROOM];
            let len = (at.size as usize).min(CONTEXT_ROOM);
            walker.read_part(u64::from(at.rva), &mut bytes[..len])?;
            Ok(registers_in(system.processor_architecture, &bytes[..len]))
        }
    }
}
