//! Which names are joined by a zone, and when that changes.
#![tactic(auto)]

mod index;
mod sets;
mod zones;

pub use zones::Zones;
