//! A snooping bridge and a node over captures: the bridge's are read whole, their frames cross, and
//! the capture of each port is written; the node is run over the frames of one capture, and its
//! frames are written as another.
#![tactic(auto)]

mod bridge;
mod bridge_run;
mod captures;
mod copies;
mod course;
mod crossing;
mod laws;
mod node_input;
mod node_output;
mod node_run;
mod outputs;
mod sides;
mod span;

pub use bridge_run::{Crossed, run_bridge};
pub use copies::add_copy;
pub use course::{Course, play};
pub use laws::{records_go_on, what_is_taken_are_captures};
pub use node_run::run_node;
