//! When ENodes and N_Ports were last heard, and which of them is silent too long (FC-BB-5, "FIP
//! keep alive").
#![tactic(auto)]

mod clock;
mod orders;
mod steps;
mod voice;

pub use clock::KeepClock;
pub use steps::Steps;
pub use voice::{LastHeard, Voice};
