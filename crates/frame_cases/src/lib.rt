//! Cases of frames, messages and lines of journals, which need a configuration at most: one call a
//! line, answered on the lines behind.
#![tactic(auto)]

mod cases;
mod frames;
mod messages;
mod sending;
mod sent;
mod text;

pub use cases::answer;
pub use frames::{Settings, caught, config_of};
