//! The names of exceptions, by the platform of a dump and its processor architecture.
ghost use Rattle.std.specs.Prelude.{◌≡◌, ◌≤◌, IfSome, length};
ghost use Rattle.std.specs.Option.{option_map, option_or};
ghost use Rattle.mdmp_names.specs.Exceptions.{exception_name, flags_name, is_apple, is_arm, is_linux, is_windows, is_x86, mach_flags};

use crate::linux_codes::linux_code;
use crate::linux_signals::linux_signal;
use crate::mach_arm_codes::mach_arm_code;
use crate::mach_codes::mach_code;
use crate::mach_exceptions::mach_exception;
use crate::mach_x86_codes::mach_x86_code;
use crate::si_codes::signal_code;
use crate::windows_exceptions::windows_exception;

/// Whether a `PlatformId` is one of Windows.
fn is_windows(platform: u32) -> bool
    ensures { result ≡ is_windows platform }
{
    platform <= 3
}

/// Whether it is Linux or Android.
fn is_linux(platform: u32) -> bool
    ensures { result ≡ is_linux platform }
{
    platform == 0x8201 || platform == 0x8203
}

/// Whether it is macOS or iOS.
fn is_apple(platform: u32) -> bool
    ensures { result ≡ is_apple platform }
{
    platform == 0x8101 || platform == 0x8102
}

/// Whether a `ProcessorArchitecture` is x86 or x64.
fn is_x86(architecture: u16) -> bool
    ensures { result ≡ is_x86 architecture }
{
    architecture == 0 || architecture == 9
}

/// Whether it is ARM or ARM64, as Microsoft or Breakpad number it.
fn is_arm(architecture: u16) -> bool
    ensures { result ≡ is_arm architecture }
{
    architecture == 5 || architecture == 12 || architecture == 0x8003
}

/// The first of two names, or the second if there is no first.
fn either(one: Option<&'static str>, other: Option<&'static str>) -> Option<&'static str>
    requires one { IfSome one (λ name. length name.now ≤ 64) }
    requires other { IfSome other (λ name. length name.now ≤ 64) }
    ensures named { option_map (λ name. name.now) result ≡ option_or (option_map (λ name. name.now) one.entry) (option_map (λ name. name.now) other.entry) }
    ensures short { IfSome result (λ name. length name.now ≤ 64) }
{
    match one {
        Some(name) => Some(name),
        None => other,
    }
}

/// The name of the `ExceptionCode` of an exception, of a dump with this `PlatformId`.
pub fn exception_name(platform: u32, code: u32) -> Option<&'static str>
    ensures named { option_map (λ name. name.now) result ≡ exception_name platform code }
    ensures short { IfSome result (λ name. length name.now ≤ 64) }
{
    if is_windows(platform) {
        windows_exception(code)
    } else if is_linux(platform) {
        linux_signal(code)
    } else if is_apple(platform) {
        mach_exception(code)
    } else {
        None
    }
}

/// The name of the `ExceptionFlags` of an exception, of a dump with this `PlatformId` and this
/// `ProcessorArchitecture`. On Windows flags have no names. Flags of 0 have no name on any platform, since 0
/// is also written if the flags are not known.
pub fn flags_name(platform: u32, architecture: u16, code: u32, flags: u32) -> Option<&'static str>
    ensures named { option_map (λ name. name.now) result ≡ flags_name platform architecture code flags }
    ensures short { IfSome result (λ name. length name.now ≤ 64) }
{
    if flags == 0 {
        return None;
    }
    if is_linux(platform) {
        either(linux_code(code, flags), signal_code(flags))
    } else if is_apple(platform) {
        mach_flags(architecture, code, flags)
    } else {
        None
    }
}

/// The name of the flags of a Mach exception, on this processor.
fn mach_flags(architecture: u16, code: u32, flags: u32) -> Option<&'static str>
    ensures named { option_map (λ name. name.now) result ≡ mach_flags architecture code flags }
    ensures short { IfSome result (λ name. length name.now ≤ 64) }
{
    let name = mach_code(code, flags);
    if is_x86(architecture) {
        either(name, mach_x86_code(code, flags))
    } else if is_arm(architecture) {
        either(name, mach_arm_code(code, flags))
    } else {
        name
    }
}
