//! FIP, the FCoE Initialization Protocol: its messages read and written (FC-BB-5, "FIP frame
//! format").
#![tactic(auto)]

mod descriptor;
mod fault;
mod kind;
mod laws;
mod lists;
mod message;
mod reading;
mod writing;

pub use fault::FipFault;
pub use laws::{a_written_message_is_read_back, the_grammar_is_what_is_decoded};
pub use lists::{Item, ItemList, VlanList, VxList};
pub use message::{FipMessage, FipOut, LoginKind, Message, VxPort, is_forwarders};
pub use reading::read_fip;
pub use writing::{fip_bytes, write_fip};
