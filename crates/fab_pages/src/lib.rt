//! The records of the frames that a fabric sends, behind the page of the port that each goes to.
#![tactic(auto)]

mod cuts;
mod encoders;
mod pages;

pub use pages::Sendings;
pub use run_files::{clear_all, head_records};
