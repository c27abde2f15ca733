//! The process of `fcoe_tool`: its words, real files and the real output, and the status that it
//! ends with.
#![tactic(auto)]

mod edge;
mod line;
mod process;
mod same;
mod streams;
mod telling;
mod trouble;

pub use edge::FileDepot;
pub use process::{run_process, status_of_process, words_of};
pub use same::{Spot, standard_output};
