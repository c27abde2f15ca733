//! A session that is recorded in pieces: each piece goes on from a state, and the pieces behind one
//! another are the whole.
#![tactic(auto)]

mod laws;

pub use laws::{
    logins_are_served, logins_have_ports, pieces_are_a_whole, pieces_are_named, restored_stands,
    runs_are_timely, runs_join, seams_are_named, seams_can_restore, sessions_are_runs,
    states_are_sound,
};
