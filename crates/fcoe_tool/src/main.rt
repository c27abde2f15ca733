//! One FCoE forwarder, run over captures.
#![tactic(auto)]

#[cfg(test)]
mod tests;

use std::process::ExitCode;
use tool_process::run_process;

fn main(rt: HostRuntime) -> ExitCode {
    ExitCode::from(run_process(&rt))
}
