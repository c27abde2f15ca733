//! A bridge between a forwarder and its ENodes, which lets pass what their logins allow (FC-BB-5,
//! "FIP snooping").
#![tactic(auto)]

mod bindings;
mod down;
mod forwarder;
mod grant;
mod home;
mod homes;
mod laws;
mod orders;
mod queue;
mod snoop;
mod up;
mod way;

pub use bindings::Binding;
pub use forwarder::Forwarder;
pub use home::Home;
pub use laws::{
    bindings_stand, captures_are_merged, data_goes_down, data_goes_up, enodes_are_apart,
    frames_come_in_order, frames_go_on, histories_grow, homes_stand,
};
pub use queue::{Head, first_port};
pub use snoop::Snoop;
pub use way::{SnoopRule, Way, is_dropped, leads_to};
