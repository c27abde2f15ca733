//! What entries make of a fabric, by what it kept before them, whatever led to that.
#![tactic(auto)]

mod laws;

pub use laws::{
    fabrics_go_on, later_entries_are_written, later_records_keep_time, next_ticks, states_go_on,
};
