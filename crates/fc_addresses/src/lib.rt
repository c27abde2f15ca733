//! The pool of N_Port_IDs (FC-LS-2, "FLOGI"), with a quarantine after each login.
#![tactic(auto)]

mod past;
mod pool;
mod released;

pub use past::Past;
pub use pool::Pool;
