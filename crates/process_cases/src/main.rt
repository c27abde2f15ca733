//! The process once more, over words of 64 ports and with a status that isn't 0.
#![tactic(auto)]

use std::process::ExitCode;
use tool_process::run_process;

fn main(rt: HostRuntime) -> ExitCode {
    ExitCode::from(run_process(&rt))
}
