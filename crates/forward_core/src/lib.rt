//! The fabric of one thread: it logs in, forwards, watches silence, serves names and notifies.
#![tactic(auto)]

mod arrived;
mod carrying;
mod drained;
mod due;
mod fabric;
mod granted;
mod granting;
mod keeping;
mod kept;
mod reading;
mod restoring;
mod step;
mod tick;
mod turns;

pub use drained::Drained;
pub use fab_sending::{EventList, Out, OutList, OutMessage, write_out};
pub use fabric::Fabric;
pub use granted::granted_address;
pub use step::StepFault;
