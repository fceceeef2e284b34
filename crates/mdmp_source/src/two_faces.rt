//! A file in memory that changes between two reads: for tests.
ghost use Rattle.std.specs.Prelude.{◌≡◌, length};
ghost use Rattle.mdmp_source.specs.TwoFaces.{TwoFacesState};

use crate::memory_store::copy_at;
use crate::store::{Store, StoreCounts, StoreFailed};
use std::marker::Model;

/// A file in memory that changes while it is read: its calls of `read_at`, counted from 0, read
/// `first` up to number `turn`, and from that one on `second`, which is as long.
///
/// It never fails. Its content is not known to the layers above, as that of a file of the system is
/// not, so that a test shows what they answer where bytes that they fetched twice do not agree.
#[derive(Drop)]
pub struct TwoFaces<'a> {
    first: &'a [u8],
    second: &'a [u8],
    turn: u64,
    counts: StoreCounts,
}

impl<'a> Model for TwoFaces<'a> {
    ghost Value = { TwoFacesState };

    ghost view = { λ s. record {
      first = s.first.now;
      second = s.second.now;
      turn = s.turn;
      counts = s.counts;
    } };

    ghost invariant = { λ s. length s.second.now ≡ length s.first.now };
}

impl<'a> TwoFaces<'a> {
    ghost use Rattle.std.specs.Prelude.{◌≡◌, ◌-◌, ◌^◌, None, true, length, min};
    ghost use Rattle.mdmp_source.specs.Store.{IsNew};

    /// A store that has had no call, and whose call number `turn` is the first to read `second`.
    pub fn new(first: &'a [u8], second: &'a [u8], turn: u64) -> Self
        requires { length first.now ≡ length second.now }
        ensures faces { (result.first ≡ first.now) × (result.second ≡ second.now) × (result.turn ≡ turn) }
        ensures state { IsNew (⟦<TwoFaces<'a> as Store>⟧.state result) None true }
    {
        TwoFaces {
            first,
            second,
            turn,
            counts: StoreCounts::new(),
        }
    }

    /// How many calls of `read_at` it has had, or the greatest `u64` where that is less.
    pub fn reads(&self) -> u64
        ensures { result ≡ min self.now.counts.calls (2 ^ 64 - 1) }
    {
        u64::try_from(self.counts.calls).unwrap_or(u64::MAX)
    }
}

impl Store for TwoFaces<'_> {
    ghost use Rattle.std.specs.Prelude.{◌≡◌, ◌≤◌, ◌-◌, IfOk, IsOk, length, min, take};
    ghost use Rattle.mdmp_source.specs.Range.{bytes_at};
    ghost use Rattle.mdmp_source.specs.Store.{GivesContent, GivesLeast, counts_after};
    ghost use Rattle.mdmp_source.specs.TwoFaces.{two_faces_state, face_of};

    ghost state = { two_faces_state };

    fn size(&self) -> u64 {
        self.first.len() as u64
    }

    fn read_at(&mut self, at: u64, out: &mut [u8]) -> Result<usize, StoreFailed>
        ensures bound { IfOk result (λ k. k ≤ length out.new) }
        ensures bytes { GivesContent (two_faces_state self.old).content at result out.new }
        ensures state { self.new ≡ record self.old { counts = counts_after self.old.counts result at (length out.new) } }
        ensures never_fails { IsOk result }
        ensures least { GivesLeast (two_faces_state self.old) at (length out.new) result }
        // What this store says beside any other.
        ensures count { IfOk result (λ k. k ≡ min (length out.new) (length self.old.first - at)) }
        ensures face { IfOk result (λ k. take k out.new ≡ bytes_at (face_of self.old) at k) }
    {
        let face = if self.counts.calls < u128::from(self.turn) {
            self.first
        } else {
            self.second
        };
        let answer = Ok(copy_at(face, at, out));
        self.counts.count(&answer, at, out.len());
        answer
    }
}
