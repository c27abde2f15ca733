//! A forwarder over captures, window by window: read, handled and written as they come.
#![tactic(auto)]

mod files;
mod laws;
mod onward;
mod pages;
mod plan;
mod run;
mod steps;
mod window;

pub use files::{Slots, flush};
pub use laws::laws_of_runs;
pub use onward::journals_go_on;
pub use pages::Pages;
pub use plan::tick_to;
pub use run::run_windows;
pub use run_files::RunFault;
pub use steps::{parts_go_on, runs_go_on};
pub use window_records::{CapWhy, Input, LimitKind};

/// How many frames and entries a run made.
#[derive(Clone, Copy, Debug, PartialEq, Eq)]
pub struct Done {
    pub frames: u64,
    pub entries: u64,
}
