//! Where the bytes of a file come from.
ghost use Rattle.std.specs.Prelude.{◌≡◌, ◌≤◌, ◌<◌, Ok, length, IfOk, IsOk, IsTrue};

/// A store refused a call.
#[derive(Clone, Copy, Debug, PartialEq, Eq)]
pub struct StoreFailed;

/// How often a store was called, and with what answers. A count that has reached its greatest value
/// stays there.
#[derive(Clone, Copy, Debug, PartialEq, Eq)]
pub struct StoreCounts {
    /// Calls of `read_at`.
    pub calls: u128,
    /// Calls that answered an error.
    pub failures: u128,
    /// Calls that answered no bytes where some were asked for.
    pub empties: u128,
    /// The offset that the last of those two was asked for, 0 before the first.
    pub place: u64,
}

impl StoreCounts {
    ghost use Rattle.std.specs.Prelude.{◌≡◌};
    ghost use Rattle.mdmp_source.specs.Store.{counts_after};

    /// No calls yet.
    pub fn new() -> Self
        ensures { result ≡ record { calls = 0; failures = 0; empties = 0; place = 0 } }
    {
        StoreCounts {
            calls: 0,
            failures: 0,
            empties: 0,
            place: 0,
        }
    }

    /// Counts a call that was asked for `asked` bytes at the offset `at` and gave this answer.
    pub fn count(&mut self, answer: &Result<usize, StoreFailed>, at: u64, asked: usize)
        ensures { self.new ≡ counts_after self.old answer.now at asked }
    {
        self.calls = self.calls.saturating_add(1);
        match answer {
            Err(_) => {
                self.failures = self.failures.saturating_add(1);
                self.place = at;
            }
            Ok(0) if asked > 0 => {
                self.empties = self.empties.saturating_add(1);
                self.place = at;
            }
            Ok(_) => {}
        }
    }
}

/// The bytes of a file, of which a call gives some.
///
/// A dump may be in memory, in a file or behind a network, larger than memory, and its store may
/// fail at any call: so the layers above ask for bytes where they need them, and a contract says
/// what they answer for every store, and what more for a good one.
// A slice of the whole file would be simpler, and would hold the whole file.
pub trait Store {
    ghost use Rattle.mdmp_source.specs.Store.{IsOfBytes, StoreState, IsSizeOf, GivesContent, GivesLeast, GivesSome, after_call};

    /// Its content where that is known, its calls so far, whether it never fails, and how many bytes a call
    /// gives at least.
    ghost state: { Self → StoreState };

    /// The number of bytes in the file.
    fn size(&self) -> u64
        ensures value { result ≡ (state self.now).size }
        ensures content { IsSizeOf (state self.now).content result }
        ensures bytes { IsOfBytes (state self.now).content };

    /// Reads some of the bytes at the offset `at` into the front of `out`, and answers how many.
    fn read_at(&mut self, at: u64, out: &mut [u8]) -> Result<usize, StoreFailed>
        ensures bound { IfOk result (λ k. k ≤ length out.new) }
        ensures bytes { GivesContent (state self.old).content at result out.new }
        ensures state { state self.new ≡ after_call (state self.old) result at (length out.new) }
        ensures never_fails { IsTrue (state self.old).is_reliable → IsOk result }
        ensures gives { IsTrue (state self.old).is_reliable → 0 < length out.new → GivesSome (state self.old).content at result }
        ensures least { GivesLeast (state self.old) at (length out.new) result };
}

/// A store that is lent is one too, so that its owner has it back, counts and all.
impl<S: Store> Store for &mut S {
    ghost state = { λ s. S.state s.now };

    fn size(&self) -> u64 {
        S::size(*self)
    }

    fn read_at(&mut self, at: u64, out: &mut [u8]) -> Result<usize, StoreFailed> {
        S::read_at(*self, at, out)
    }
}
