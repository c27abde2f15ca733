//! The records of captures, taken window by window of all ports in their order.
#![tactic(auto)]

mod first;
mod gathering;
mod laws;
mod looks;
mod port;
mod ports;
mod shelf;
mod window;

pub use first::first_looks;
pub use gathering::gather;
pub use laws::{looks_to_come, records_are_read, windows_move_on};
pub use looks::{looks_go_on, steps_find_the_stop, stops_keep_what_is_before};
pub use pcap_file::{CapWhy, GatherFault, LimitKind, fault_of, open_fault_of};
pub use ports::take_windows;
pub use shelf::{Input, Shelf};
pub use window::{next_window, window_start};
