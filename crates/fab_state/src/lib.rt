//! The text of a state: what a fabric keeps between two pieces of a session, written and read back.
#![tactic(auto)]

mod exact;
mod fit;
mod laws;
mod lines;
mod logins;
mod pasts;
mod reading;
mod seam;
mod words;
mod writing;

pub use exact::{SeamError, SeamFault, SeamWhy, read_seam};
pub use fit::{FitFault, FitWhy, check_fit};
pub use laws::{
    fit_seams_can_be_restored, restored_seams_are_readable, sessions_go_on_under_later_activations,
};
pub use seam::{LivePort, NextList, Past, PastList, PortList, Seam, State, Tables, Values};
pub use writing::write_seam;
