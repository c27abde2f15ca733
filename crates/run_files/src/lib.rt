//! The outputs that a run writes, the pages that wait for them, and how a run ends early.
#![tactic(auto)]

mod fault;
mod outputs;
mod pages;

pub use fault::RunFault;
pub use outputs::{add_slot, flush, put_each};
pub use pages::{clear_all, has_full, head_records, is_full};
pub use pcap_file::{CapWhy, LimitKind};
