//! What the N_Ports registered with the name server (FC-GS-6, "Name Server"), and what it answers
//! of them.
#![tactic(auto)]

mod answers;
mod entry;
mod features;
mod lists;
mod placed;
mod ports;
mod refusals;
mod registry;
mod seen;
mod types;
mod values;

pub use refusals::RegFault;
pub use registry::{Change, Registry};
pub use seen::{Seen, SeenPort};
pub use values::Values;
