//! The entries of a directory that have an error.
ghost use Rattle.std.specs.Prelude.{◌≡◌, ◌<◌, ◌+◌, ◌^◌, ◌∷◌, [], None};
ghost use Rattle.mdmp_summary.specs.Keeping.{kept};

use crate::keeping::keep;
use mdmp_lister::ListFault;

/// The entries that have an error: the file's own, not one of reading.
#[derive(Clone, Copy, Debug, PartialEq, Eq)]
pub struct BadEntries {
    /// How many entries have one.
    pub count: u64,
    /// The first of these errors, in the order of the directory. A listing ends at it.
    pub first: Option<ListFault>,
}

impl BadEntries {
    /// Before the first error.
    pub(crate) fn none() -> Self
        ensures { result ≡ record { count = 0; first = None } }
    {
        BadEntries {
            count: 0,
            first: None,
        }
    }

    /// Takes the error of the next entry that has one.
    pub(crate) fn take(&mut self, fault: ListFault)
        requires { self.old.count + 1 < 2 ^ 64 }
        ensures { self.new ≡ record { count = self.old.count + 1; first = kept self.old.first (fault ∷ []) } }
    {
        self.count += 1;
        keep(&mut self.first, fault);
    }
}
