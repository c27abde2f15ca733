//! A journal checked, line by line, against the captures that it was written for.
#![tactic(auto)]

mod all_outputs;
mod check;
mod fault;
mod frames;
mod laws;
mod lines;
mod outputs;
mod owed;
mod piece;
mod rows;
mod sent;
mod showing;
mod ticks;
mod verdicts;
mod windows;

pub use all_outputs::{feed_each, finish_each};
pub use check::check_captures;
pub use fault::{CheckFault, LineWhy};
pub use laws::faults_are_exact;
pub use lines::{Place, first_place, next_line, number_at};
pub use outputs::Compared;
pub use piece::{Checked, check_piece};
pub use rows::{Row, write_row};
pub use showing::write_shown;
pub use verdicts::{Misjudged, step_as};
pub use windows::Written;
