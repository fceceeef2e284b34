//! A visitor that counts.
use mdmp_lister::{Item, Stopped, StreamKind, Walker};
use mdmp_source::Store;
use mdmp_summary::{VisitEnd, Visitor};
use std::alloc::Allocator;

/// Counts threads and the other items that it is shown, and wants no more than so many.
#[derive(Drop)]
pub struct Counter {
    pub threads: u32,
    pub others: u32,
    pub most: u32,
    /// Whether it wants no other records than those of threads.
    pub is_of_threads: bool,
}

impl Visitor for Counter {
    ghost use Rattle.mdmp_summary.specs.Visiting.{nothing_read};

    ghost taken = { λ old item result new. Unit {0} };

    ghost looked = { λ content limit old result new. Unit {0} };

    ghost owed = { λ _. nothing_read };

    ghost span = { λ _. 0 };

    ghost room = { λ span item. nothing_read };

    #[tactic(auto, using(mdmp_summary::proofs::Unused::nothing_said))]
    fn wants(&self, kind: StreamKind) -> bool {
        !self.is_of_threads || matches!(kind, StreamKind::Threads)
    }

    fn take(&mut self, item: &Item<'_>) -> Result<(), Stopped> {
        match item {
            Item::Thread(_) => self.threads = self.threads.saturating_add(1),
            _ => self.others = self.others.saturating_add(1),
        }
        if self.threads.saturating_add(self.others) >= self.most {
            return Err(Stopped);
        }
        Ok(())
    }

    #[tactic(auto, using(mdmp_summary::proofs::Visited::reads_nothing))]
    fn look<S: Store + Drop, A: Allocator + Copy>(
        &mut self,
        _walker: &mut Walker<S, A>,
    ) -> Result<(), VisitEnd> {
        Ok(())
    }
}
