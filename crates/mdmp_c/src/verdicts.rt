//! The call that gives verdicts.
ghost use Rattle.std.specs.Prelude.{◌≡◌};
ghost use Rattle.mdmp_c.specs.Giving.{Ends, bad_limits};
ghost use Rattle.mdmp_c.specs.Limits.{AreLimits, EndsChecking, KeepsChecking};
ghost use Rattle.mdmp_c.specs.Verdicts.{AreVerdicts, verdict_row};

use crate::collecting::set_row;
use crate::fault::{NO_FAULT, PlainFault, plain_list_fault};
use crate::given_rows::{FaultRows, GivenRows, give_checked};
use crate::limits::PlainLimits;
use mdmp_lister::{Lister, RunFault, Stopped, Verdict, VerdictSink};
use mdmp_source::Store;
use std::alloc::{Allocator, Global};

/// Gives the result of checking each entry of a file: its first error, or none and the entry's number. As many
/// as `out` has room for, and in `count` how many there are. `fault` says why the file can't be opened,
/// or how many entries have an error, as [`mdmp_check_`](crate::mdmp_check_) does. If the read limit is
/// reached, `fault` says that, and the results of the entries before it are given.
#[unsafe(no_mangle)]
pub extern "C" fn mdmp_verdicts_(
    alloc: Global,
    file: &[u8],
    limits: &PlainLimits,
    out: &mut [PlainFault],
    count: &mut u64,
    fault: &mut PlainFault,
) -> u32
    ensures { Ends (AreVerdicts file.now limits.now.name) (AreLimits limits.now) (KeepsChecking limits.now file.now) (EndsChecking limits.now file.now) bad_limits result count.new fault.new out.old out.new }
{
    give_checked(alloc, file, limits, GivenVerdicts, out, count, fault)
}

/// The results of checking all entries, each of which is given.
#[derive(Clone, Copy)]
struct GivenVerdicts;

impl GivenRows for GivenVerdicts {
    ghost use Rattle.mdmp_c.specs.Verdicts.{verdict_given};
    ghost use Rattle.mdmp_engines.specs.CheckText.{verdict_count};
    ghost use Rattle.mdmp_lister.specs.Format.Listing.{verdicts};
    ghost use Rattle.mdmp_lister.specs.declared.choice.Choice.TheVariants.{All};

    type Row = Verdict;

    ghost rows_of = { λ file limit. verdicts file All limit };

    ghost given = { verdict_given };

    ghost is_bad = { verdict_count };

    fn check_into<S: Store + Drop, A: Allocator + Copy>(
        self,
        lister: &mut Lister<S, A>,
        sink: &mut FaultRows<'_>,
    ) -> Result<(), RunFault> {
        lister.check_into(sink)
    }
}

impl<'a> VerdictSink for FaultRows<'a> {
    ghost use Rattle.std.specs.Prelude.{◌≡◌};
    ghost use Rattle.mdmp_c.specs.GivenRows.{TakesRow};
    ghost use Rattle.mdmp_c.specs.Verdicts.{verdict_given};
    ghost use Rattle.mdmp_engines.specs.CheckText.{verdict_count};

    ghost step = { λ old verdict result new. (new.out.ghost_name ≡ old.out.ghost_name)
        × TakesRow verdict_given verdict_count old.out.now old.count old.bad verdict result new.out.now new.count new.bad };

    fn take(&mut self, verdict: &Verdict) -> Result<(), Stopped> {
        set_row(self.out, self.count, verdict_row(verdict));
        self.count = self.count.saturating_add(1);
        if verdict.fault.is_some() {
            self.bad = self.bad.saturating_add(1);
        }
        Ok(())
    }
}

/// A verdict as a plain structure: the first fault of the entry, or none, and the entry's number.
fn verdict_row(verdict: &Verdict) -> PlainFault
    ensures { result ≡ verdict_row verdict.now }
{
    match verdict.fault {
        Some(fault) => plain_list_fault(fault),
        None => PlainFault {
            entry: verdict.entry,
            ..NO_FAULT
        },
    }
}
