//! Signals of Linux. Made by bindings/generate from bindings/names.toml.
ghost use Rattle.std.specs.Prelude.{◌≡◌, ◌≤◌, IfSome, length};
ghost use Rattle.std.specs.Option.{option_map};
ghost use Rattle.mdmp_names.specs.LinuxSignals.{linux_signal};

use crate::table::name_in;

/// A number, and its name.
static LINUX_SIGNALS: [(u32, &str); 32] = [
    (1, "SIGHUP"),
    (2, "SIGINT"),
    (3, "SIGQUIT"),
    (4, "SIGILL"),
    (5, "SIGTRAP"),
    (6, "SIGABRT"),
    (7, "SIGBUS"),
    (8, "SIGFPE"),
    (9, "SIGKILL"),
    (10, "SIGUSR1"),
    (11, "SIGSEGV"),
    (12, "SIGUSR2"),
    (13, "SIGPIPE"),
    (14, "SIGALRM"),
    (15, "SIGTERM"),
    (16, "SIGSTKFLT"),
    (17, "SIGCHLD"),
    (18, "SIGCONT"),
    (19, "SIGSTOP"),
    (20, "SIGTSTP"),
    (21, "SIGTTIN"),
    (22, "SIGTTOU"),
    (23, "SIGURG"),
    (24, "SIGXCPU"),
    (25, "SIGXFSZ"),
    (26, "SIGVTALRM"),
    (27, "SIGPROF"),
    (28, "SIGWINCH"),
    (29, "SIGIO"),
    (30, "SIGPWR"),
    (31, "SIGSYS"),
    (0xFFFFFFFF, "MD_EXCEPTION_CODE_LIN_DUMP_REQUESTED"),
];

/// The name of a signal of Linux.
pub(crate) fn linux_signal(number: u32) -> Option<&'static str>
    ensures named { option_map (λ name. name.now) result ≡ linux_signal number }
    ensures short { IfSome result (λ name. length name.now ≤ 64) }
{
    name_in(&LINUX_SIGNALS, number)
}
