//! The faults of a name, told by itself.
ghost use Rattle.std.specs.Prelude.{◌≡◌};
ghost use Rattle.mdmp_c.specs.Names.{long_fault, name_fault};

use crate::fault::{PlainFault, of_kind, plain_list_fault};
use crate::kinds;
use mdmp_lister::{Fault, ListFault};

/// A name has more bytes than the limit.
pub(crate) fn long_fault(length: u32) -> PlainFault
    ensures { result ≡ long_fault length }
{
    PlainFault {
        size: u64::from(length),
        ..of_kind(kinds::NAME_TOO_LONG)
    }
}

/// A name of no entry has this fault.
pub(crate) fn name_fault(found: Fault) -> PlainFault
    ensures { result ≡ name_fault found }
{
    plain_list_fault(ListFault {
        entry: 0,
        index: None,
        kind: found.kind,
        offset: found.offset,
        size: found.size,
    })
}
