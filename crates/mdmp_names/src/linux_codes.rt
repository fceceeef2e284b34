//! Codes of one signal. Made by bindings/generate from bindings/names.toml.
ghost use Rattle.std.specs.Prelude.{◌≡◌, ◌≤◌, IfSome, length};
ghost use Rattle.std.specs.Option.{option_map};
ghost use Rattle.mdmp_names.specs.LinuxCodes.{linux_code};

use crate::table::flags_in;

/// The code of an exception, its flags, and their name.
static LINUX_CODES: [(u32, u32, &str); 41] = [
    (4, 1, "ILL_ILLOPC"),
    (4, 2, "ILL_ILLOPN"),
    (4, 3, "ILL_ILLADR"),
    (4, 4, "ILL_ILLTRP"),
    (4, 5, "ILL_PRVOPC"),
    (4, 6, "ILL_PRVREG"),
    (4, 7, "ILL_COPROC"),
    (4, 8, "ILL_BADSTK"),
    (4, 9, "ILL_BADIADDR"),
    (5, 1, "TRAP_BRKPT"),
    (5, 2, "TRAP_TRACE"),
    (5, 3, "TRAP_BRANCH"),
    (5, 4, "TRAP_HWBKPT"),
    (5, 5, "TRAP_UNK"),
    (5, 6, "TRAP_PERF"),
    (7, 1, "BUS_ADRALN"),
    (7, 2, "BUS_ADRERR"),
    (7, 3, "BUS_OBJERR"),
    (7, 4, "BUS_MCEERR_AR"),
    (7, 5, "BUS_MCEERR_AO"),
    (8, 1, "FPE_INTDIV"),
    (8, 2, "FPE_INTOVF"),
    (8, 3, "FPE_FLTDIV"),
    (8, 4, "FPE_FLTOVF"),
    (8, 5, "FPE_FLTUND"),
    (8, 6, "FPE_FLTRES"),
    (8, 7, "FPE_FLTINV"),
    (8, 8, "FPE_FLTSUB"),
    (8, 14, "FPE_FLTUNK"),
    (8, 15, "FPE_CONDTRAP"),
    (11, 1, "SEGV_MAPERR"),
    (11, 2, "SEGV_ACCERR"),
    (11, 3, "SEGV_BNDERR"),
    (11, 4, "SEGV_PKUERR"),
    (11, 5, "SEGV_ACCADI"),
    (11, 6, "SEGV_ADIDERR"),
    (11, 7, "SEGV_ADIPERR"),
    (11, 8, "SEGV_MTEAERR"),
    (11, 9, "SEGV_MTESERR"),
    (31, 1, "SYS_SECCOMP"),
    (31, 2, "SYS_USER_DISPATCH"),
];

/// The name of the flags of an exception with this code.
pub(crate) fn linux_code(code: u32, flags: u32) -> Option<&'static str>
    ensures named { option_map (λ name. name.now) result ≡ linux_code code flags }
    ensures short { IfSome result (λ name. length name.now ≤ 64) }
{
    flags_in(&LINUX_CODES, code, flags)
}
