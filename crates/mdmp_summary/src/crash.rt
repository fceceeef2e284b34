//! Which exception of a dump is the crash.
ghost use Rattle.std.specs.Prelude.{◌≡◌, ◌∷◌, [], None};
ghost use Rattle.mdmp_summary.specs.Crash.{is_break, is_stop};

use crate::keeping::keep;
use mdmp_lister::ExceptionItem;

/// The kind of system that wrote a dump. It decides what an exception record means.
#[derive(Clone, Copy, Debug, PartialEq, Eq)]
pub enum Platform {
    /// Windows: `ExceptionAddress` is the address that ran.
    Windows,
    /// Linux and Android: `ExceptionCode` is the number of a signal.
    Linux,
    /// macOS and iOS: `ExceptionCode` is the number of a Mach exception.
    Apple,
    /// Any other system, or a dump that does not name its system.
    Other,
}

impl Platform {
    ghost use Rattle.mdmp_summary.specs.Crash.{platform_of};

    /// The platform of a `PlatformId`: `VER_PLATFORM_WIN32s` to `VER_PLATFORM_WIN32_CE` of winnt.h,
    /// and Breakpad's `MD_OS_LINUX`, `MD_OS_ANDROID`, `MD_OS_MAC_OS_X` and `MD_OS_IOS`.
    pub fn of_id(platform_id: u32) -> Self
        ensures { result ≡ platform_of platform_id }
    {
        match platform_id {
            0..=3 => Platform::Windows,
            0x8201 | 0x8203 => Platform::Linux,
            0x8101 | 0x8102 => Platform::Apple,
            _ => Platform::Other,
        }
    }
}

/// Whether a code of Linux means that a thread was stopped or went on, and did not crash: the signals
/// SIGCHLD (17) to SIGURG (23), SIGWINCH (28), and 0xFFFFFFFF, which is the code of a requested dump.
fn is_stop(code: u32) -> bool
    ensures { result ≡ is_stop code }
{
    matches!(code, 17..=23 | 28 | 0xFFFF_FFFF)
}

/// Whether a code of Windows is that of a breakpoint or of a single step.
fn is_break(code: u32) -> bool
    ensures { result ≡ is_break code }
{
    matches!(code, 0x8000_0003 | 0x8000_0004)
}

/// The exceptions of which one is the crash, whatever the system is. The system may be listed after them.
#[derive(Clone, Copy)]
pub(crate) struct Exceptions {
    /// The first exception.
    first: Option<ExceptionItem>,
    /// The first one whose code is no breakpoint of Windows.
    unbroken: Option<ExceptionItem>,
    /// The first one whose code is no stop of Linux.
    unstopped: Option<ExceptionItem>,
}

impl Exceptions {
    ghost use Rattle.mdmp_summary.specs.Crash.{crash_among, exceptions_seen};

    /// Before the first exception.
    pub(crate) fn none() -> Self
        ensures { result ≡ record { first = None; unbroken = None; unstopped = None } }
    {
        Exceptions {
            first: None,
            unbroken: None,
            unstopped: None,
        }
    }

    /// Takes the next exception.
    pub(crate) fn take(&mut self, item: &ExceptionItem)
        ensures { self.new ≡ exceptions_seen self.old (item.now ∷ []) }
    {
        keep(&mut self.first, *item);
        if !is_break(item.fields.exception_code) {
            keep(&mut self.unbroken, *item);
        }
        if !is_stop(item.fields.exception_code) {
            keep(&mut self.unstopped, *item);
        }
    }

    /// The crash, of a dump of this platform.
    pub(crate) fn crash(&self, platform: Platform) -> Option<ExceptionItem>
        ensures { result ≡ crash_among self.now platform }
    {
        match platform {
            Platform::Windows => self.unbroken.or(self.first),
            Platform::Linux => self.unstopped,
            Platform::Apple | Platform::Other => self.first,
        }
    }
}
