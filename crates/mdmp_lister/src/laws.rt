//! Laws of a listing: each is the contract of a function that does nothing.
ghost use Rattle.std.specs.Prelude.{◌≡◌, ◌++◌, ◌↔◌, List, None, IsTrue};
ghost use Rattle.std.specs.List.{list_all};
ghost use Rattle.mdmp_lister.specs.declared.choice.Choice.TheVariants.{All};
ghost use Rattle.mdmp_lister.specs.declared.item.Item.{Item};
ghost use Rattle.mdmp_lister.specs.Format.Listing.{listing, verdicts};
ghost use Rattle.mdmp_lister.specs.Format.Laws.{first_fault, is_good, part_of, stands_in};

use crate::choice::Choice;

/// Where the listing of all entries has no fault, or has it at a chosen entry, the listing of a
/// choice is the part of it that is of chosen entries. Where it ends at another entry, the listing
/// of the choice begins with that part, and may go on.
pub fn listing_of_a_choice(file: &[u8], choice: &Choice, limit: u32)
    ensures same { IsTrue (stands_in file.now choice.now (listing file.now All limit).fault)
        → listing file.now choice.now limit
        ≡ part_of file.now choice.now (listing file.now All limit) }
    // Wherever the listing of all entries ends.
    ensures begins { (rest : List Item) × ((listing file.now choice.now limit).items
        ≡ (part_of file.now choice.now (listing file.now All limit)).items ++ rest) }
{}

/// A listing ends at the first fault among the verdicts, so that they are all good exactly where it
/// has no fault.
pub fn listing_ends_at_the_first_bad_verdict(file: &[u8], choice: &Choice, limit: u32)
    ensures first { (listing file.now choice.now limit).fault
        ≡ first_fault (verdicts file.now choice.now limit) }
    ensures good { IsTrue (list_all is_good (verdicts file.now choice.now limit))
        ↔ ((listing file.now choice.now limit).fault ≡ None) }
{}
