//! Everything that the program `fcoe_tool` does, over any depot of files.
#![tactic(auto)]

mod command;
mod converting;
mod heads;
pub mod help;
mod inputs;
mod limits;
mod live;
mod making;
mod migrating;
mod node;
mod number;
mod outcome;
mod outputs;
mod replaying;
mod running;
mod snooping;
mod tool;

pub use outcome::{Outcome, report};
pub use tool::fabric_tool;
