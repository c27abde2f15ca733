//! One value for many threads, which take turns with it in the order of their tickets. All of them
//! see one history.
#![tactic(auto)]

mod board;
mod lock;
mod plays;
mod rule;
mod steps;
#[cfg(test)]
mod tests;
mod view;

pub use board::{Pass, TurnLock};
pub use rule::Chronicle;
