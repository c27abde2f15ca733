//! A fabric that threads take turns with: each turn is one frame of one port. Above it the frames
//! of a window: one port after another, or a worker a port.
#![tactic(auto)]

mod crew;
mod frames;
mod locked;
mod shared;
mod sizes;
mod window;
mod worker;

pub use locked::{LockedFabric, Pass};
pub use shared::SharedFabric;
pub use window::take_frames;
