//! The words of cases of a forwarder, and the cases of its tables: one call a line, answered on the
//! lines behind.
#![tactic(auto)]

mod cases;
pub mod held;
pub mod logins;
mod pool;
pub mod registry;
pub mod say;
mod voices;
pub mod words;
pub mod zoning;

pub use cases::{Tables, answer};
