//! The call that gives parts of records that lie outside the file.
ghost use Rattle.std.specs.Prelude.{◌≡◌};
ghost use Rattle.mdmp_c.specs.Giving.{Ends, bad_limits};
ghost use Rattle.mdmp_c.specs.Limits.{AreLimits, EndsChecking, KeepsChecking};
ghost use Rattle.mdmp_c.specs.PartsOutside.{ArePartsOutside};

use crate::collecting::set_row;
use crate::fault::PlainFault;
use crate::given_rows::{FaultRows, GivenRows, give_checked};
use crate::limits::PlainLimits;
use crate::summary_rows::outside_fault;
use mdmp_engines::bad_in;
use mdmp_lister::{Lister, RunFault, Stopped};
use mdmp_source::Store;
use mdmp_summary::{CheckRow, CheckRowSink, check_parts_into};
use std::alloc::{Allocator, Global};

/// Gives the parts of records that lie outside the file, as `mdmp check --parts` prints them: of each entry its records
/// up to its own error. As many as `out` has room for, and in `count` how many there are. `fault` says why the file
/// can't be opened, or how many entries have an error or such a part. If the read limit is reached, `fault` says that,
/// and the parts before it are given.
#[unsafe(no_mangle)]
pub extern "C" fn mdmp_parts_outside_(
    alloc: Global,
    file: &[u8],
    limits: &PlainLimits,
    out: &mut [PlainFault],
    count: &mut u64,
    fault: &mut PlainFault,
) -> u32
    ensures { Ends (ArePartsOutside file.now limits.now.name) (AreLimits limits.now) (KeepsChecking limits.now file.now) (EndsChecking limits.now file.now) bad_limits result count.new fault.new out.old out.new }
{
    give_checked(alloc, file, limits, GivenParts, out, count, fault)
}

/// The parts outside the file, which are given, and the results of checking all entries, which are counted.
#[derive(Clone, Copy)]
struct GivenParts;

impl GivenRows for GivenParts {
    ghost use Rattle.mdmp_c.specs.PartsOutside.{outside_given};
    ghost use Rattle.mdmp_engines.specs.CheckParts.{row_count};
    ghost use Rattle.mdmp_summary.specs.CheckRows.{check_rows};

    type Row = CheckRow;

    ghost rows_of = { check_rows };

    ghost given = { outside_given };

    ghost is_bad = { row_count };

    fn check_into<S: Store + Drop, A: Allocator + Copy>(
        self,
        lister: &mut Lister<S, A>,
        sink: &mut FaultRows<'_>,
    ) -> Result<(), RunFault> {
        check_parts_into(lister, sink)
    }
}

impl<'a> CheckRowSink for FaultRows<'a> {
    ghost use Rattle.std.specs.Prelude.{◌≡◌};
    ghost use Rattle.mdmp_c.specs.GivenRows.{TakesRow};
    ghost use Rattle.mdmp_c.specs.PartsOutside.{outside_given};
    ghost use Rattle.mdmp_engines.specs.CheckParts.{row_count};

    ghost step = { λ old row result new. (new.out.ghost_name ≡ old.out.ghost_name)
        × TakesRow outside_given row_count old.out.now old.count old.bad row result new.out.now new.count new.bad };

    fn take(&mut self, row: &CheckRow) -> Result<(), Stopped> {
        if let CheckRow::Part(part) = row {
            set_row(self.out, self.count, outside_fault(*part));
            self.count = self.count.saturating_add(1);
        }
        self.bad = self.bad.saturating_add(bad_in(row));
        Ok(())
    }
}
