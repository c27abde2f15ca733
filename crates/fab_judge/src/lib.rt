//! What the tables of a fabric say of a frame: the rule that drops it, or its verdict.
#![tactic(auto)]

mod fcoe;
mod fip;
mod frames;
mod judging;
mod logins;
mod names;
mod sender;
mod services;
mod verdicts;

pub use judging::{Candidate, Judged, judge};
