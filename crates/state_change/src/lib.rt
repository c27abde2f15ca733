//! The watchers of a fabric: the N_Ports that asked for state changes (FC-LS-2, "State Change
//! Registration"), and whom a change reaches.
#![tactic(auto)]

mod search;
mod table;
mod watcher;

pub use table::Watchers;
pub use watcher::Watcher;
