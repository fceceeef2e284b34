//! The command `mdmp`. It makes the two outputs, and leaves the rest to [`run_program`].
#![tactic(auto)]

use mdmp_source::WriteOut;
use mdmp_tool::run_program;
use std::process::ExitCode;

fn main(rt: HostRuntime) -> ExitCode {
    let mut out = WriteOut::new(rt.stdout());
    let mut err = WriteOut::new(rt.stderr());
    ExitCode::from(run_program(&rt, rt.alloc(), &mut out, &mut err))
}
