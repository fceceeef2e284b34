//! The call that gives a new file.
ghost use Rattle.mdmp_c.specs.Copies.{AreTypes, IsCopyTold};
ghost use Rattle.mdmp_c.specs.Giving.{Ends, Fails, bad_limits, bad_types};
ghost use Rattle.mdmp_c.specs.Limits.{AreLimits};

use crate::fault::{PlainFault, of_kind};
use crate::giving::{give_or_want, refuse};
use crate::kinds;
use crate::limits::{PlainLimits, limits_of};
use crate::tool_fault::copy_answer;
use mdmp_engines::run_copy;
use mdmp_lister::TypeSet;
use mdmp_source::{MemoryStore, WriteOut};
use std::alloc::Global;

/// Gives the bytes of a new file, with the streams of these types, 1 to 16 of them. If a limit is reached,
/// it gives nothing.
#[unsafe(no_mangle)]
pub extern "C" fn mdmp_copy_(
    alloc: Global,
    file: &[u8],
    limits: &PlainLimits,
    types: &[u32],
    out: &mut [u8],
    size: &mut u64,
    fault: &mut PlainFault,
) -> u32
    ensures gives { AreTypes types.now → Ends (IsCopyTold Global file.now types.now limits.now) (AreLimits limits.now) (Unit {0}) (λ _. ⊥) bad_limits result size.new fault.new out.old out.new }
    ensures limits { (AreLimits limits.now → ⊥) → Fails bad_limits result size.new fault.new out.old out.new }
    ensures types { AreLimits limits.now → (AreTypes types.now → ⊥) → Fails bad_types result size.new fault.new out.old out.new }
{
    let Some(limits) = limits_of(limits) else {
        return refuse(of_kind(kinds::BAD_LIMITS), size, fault);
    };
    let Some(types) = TypeSet::new(types) else {
        return refuse(of_kind(kinds::BAD_TYPES), size, fault);
    };
    let mut bytes = WriteOut::new(Vec::new(alloc));
    let answer = run_copy(alloc, MemoryStore::new(file), limits, types, &mut bytes);
    let bytes = bytes.into_inner();
    give_or_want(copy_answer(answer), &bytes, out, size, fault)
}
