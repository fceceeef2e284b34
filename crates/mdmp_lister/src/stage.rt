//! How far a walk is.
ghost use Rattle.std.specs.Prelude.{◌≡◌};
ghost use Rattle.mdmp_lister.specs.Stage.{MayPass, stage_behind};

use crate::fault::ListFault;
use crate::kind::StreamKind;
use crate::shape::Shape;

/// How far the current entry is listed.
#[derive(Clone, Copy)]
pub(crate) enum Stage {
    /// Nothing of it is left.
    Between,
    /// Its Stream item was given, and its head is not read.
    Head,
    /// Its records are left from `index` on. The bytes of that range of a 64-bit memory list stand at
    /// `offset`.
    Records {
        kind: StreamKind,
        shape: Shape,
        index: u64,
        offset: u128,
    },
    /// A fault that stays until the entry is skipped.
    Bad(ListFault),
    /// A fault of the store, or of the budget, which stays for good.
    Failed(ListFault),
    /// No entry is left, for good.
    Ended,
}

impl Stage {
    /// Goes on behind the record that is next, which tells so many bytes of a 64-bit memory list.
    // In its place: the whole of a stage is some 80 bytes.
    #[inline(always)]
    pub(crate) fn pass_record(&mut self, bytes: u64)
        requires { MayPass self.old }
        ensures { self.new ≡ stage_behind bytes self.old }
    {
        if let Stage::Records { index, offset, .. } = self {
            *index += 1;
            *offset += u128::from(bytes);
        }
    }
}
