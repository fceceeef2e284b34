//! Laws of what is written: each is the contract of a function that does nothing.
ghost use Rattle.std.specs.Prelude.{◌≡◌, None, length};
ghost use Rattle.mdmp_lister.specs.declared.choice.Choice.TheVariants.{All};
ghost use Rattle.mdmp_dump.specs.LaysOut.{LaysOut};
ghost use Rattle.mdmp_writer.specs.Layout.{layout_fault, written_size};
ghost use Rattle.mdmp_writer.specs.Written.{written};

use mdmp_dump::{Dump, a_file_lays_out_one_dump, the_numbers_of_a_dump_fit};
use std::alloc::Allocator;

/// What is written of a dump lays that dump out, and no other, where nothing keeps it from being
/// written. It has as many bytes as the sizes of the dump's streams tell.
pub fn what_is_written_is_laid_out<A: Allocator>(dump: &Dump<A>, other: &Dump<A>)
    ensures laid_out { layout_fault dump.now ≡ None → LaysOut (written dump.now) All dump.now }
    ensures only { layout_fault dump.now ≡ None → LaysOut (written dump.now) All other.now → other.now ≡ dump.now }
    ensures size { length (written dump.now) ≡ written_size dump.now }
{
    the_numbers_of_a_dump_fit(dump);
    a_file_lays_out_one_dump(other, dump);
}
