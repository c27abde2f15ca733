//! What holds of a forwarder, a bridge and nodes that are joined by their files.
#![tactic(auto)]

mod laws;

pub use laws::{
    a_joined_node_is_granted, a_node_behind_a_bridge_is_granted, what_is_left_was_sent,
};
