//! The next item of a lister, as it was read.
ghost use Rattle.std.specs.Prelude.{◌≡◌, ℕ, List, Some, IfErr};
ghost use Rattle.std.specs.Borrow.{sem};
ghost use Rattle.std.specs.Io.BufRead.{Rests};
ghost use Rattle.mdmp_source.specs.Store.{IsGood};
ghost use Rattle.mdmp_lister.specs.Fault.{IsOfStore};
ghost use Rattle.mdmp_lister.specs.ItemRead.{ReadLeaves, answer_read};
ghost use Rattle.mdmp_lister.specs.Lister.{Gives};
ghost use Rattle.mdmp_lister.specs.Stage.{stop_after};

use crate::fault::ListFault;
use crate::lister::Lister;
use crate::ranging::advance_mapped;
use crate::step::ItemRead;
use mdmp_source::Store;
use std::alloc::Allocator;

impl<S: Store + Drop, A: Allocator + Copy> Lister<S, A> {
    ghost use Rattle.mdmp_lister.specs.contracts.lister.Lister.{the_row};

    /// What `next` would give, as it was read: of a record its fields as they stand in the file, and its
    /// name, which is lent until the next call.
    pub fn next_read(&mut self) -> Result<Option<ItemRead<'_>>, ListFault>
        ensures gives { (left : _) → self.old.left ≡ Some left → Gives left (answer_read self.old.source.size result) }
        ensures* leaves { sem 𝓛 (Rests (the_row S.row A.row S.Store A.Allocator) self.entry (ReadLeaves self.old result)) }
        ensures repeats { (stop : _) → self.old.stop ≡ Some stop → stop_after result ≡ Some stop }
        ensures good { (file : List ℕ) → IsGood self.old.source.store file → IfErr result (λ fault. IsOfStore fault.kind → ⊥) }
    {
        match advance_mapped(&mut self.walk, &mut self.map) {
            Ok(Some(held)) => Ok(Some(self.walk.item_read(&held))),
            Ok(None) => Ok(None),
            Err(fault) => Err(fault),
        }
    }
}
