//! What a captured frame is: unreadable, a message of FIP, or a body of FCoE.
#![tactic(auto)]

mod heard;
mod rows;
mod unreadable;

pub use heard::{Heard, What, hear};
pub use rows::is_wrong_vlan;
pub use unreadable::Unreadable;
