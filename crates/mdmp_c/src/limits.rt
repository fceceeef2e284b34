//! Limits as plain numbers.
ghost use Rattle.std.specs.Prelude.{◌≡◌};
ghost use Rattle.mdmp_c.specs.Limits.{IsLimits, limit_of};

use mdmp_lister::Limits;
use std::mem::size_of;

/// The window and the longest name of a call, and what it may read and allocate.
#[repr(C)]
#[derive(Clone, Copy)]
pub struct PlainLimits {
    /// The window through which the file is read, in bytes: 168 to 2^30.
    pub window: u32,
    /// The longest name that is read, in bytes: at most 2^30.
    pub name: u32,
    /// How many bytes the call may read to list the file, or [`NO_LIMIT`].
    pub budget: u64,
    /// How many bytes the lists of the call may take, or [`NO_LIMIT`].
    pub memory: u64,
    /// How many bytes of CodeView records the call may read for a list, or [`NO_LIMIT`].
    pub aside: u64,
}

const _: () = prove!(size_of::<PlainLimits>() == 32);

/// What a limit is if there is none.
pub const NO_LIMIT: u64 = u64::MAX;

/// The limits that these numbers are, if they are good.
pub(crate) fn limits_of(plain: &PlainLimits) -> Option<Limits>
    ensures { IsLimits plain.now result }
{
    let sizes = Limits::new(plain.window, plain.name)?;
    Some(Limits {
        window: sizes.window,
        name: sizes.name,
        budget: limit_of(plain.budget),
        memory: limit_of(plain.memory),
        aside: limit_of(plain.aside),
    })
}

/// The most that a number limits, if it is a limit.
fn limit_of(number: u64) -> Option<u64>
    ensures { result ≡ limit_of number }
{
    if number == NO_LIMIT {
        None
    } else {
        Some(number)
    }
}
