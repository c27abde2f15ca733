//! What an entry sends, from the tables before it: replies, clear link messages, state changes and
//! advertisements, as values, and their bytes.
#![tactic(auto)]

mod adverts;
mod answers;
mod carried;
mod changing;
mod clears;
mod discovery;
mod fcoe;
mod fip;
mod forwarding;
mod frame;
mod laws;
mod message;
mod message_laws;
mod noticing;
mod own;
mod parts;
pub mod replies;
mod sends;
mod tick;
mod writing;
mod zoning;

pub use adverts::{advertise, is_owed};
pub use answers::frames_of_answer;
pub use clears::clear;
pub use discovery::{write_advertisement, write_advertisement_to, write_notice_to};
pub use frame::{answer_sends, frame_sends, grant_sends, registration_sends, reply_sends};
pub use laws::{frames_send, frames_tell, ticks_send, ticks_tell};
pub use message::{Answer, EventList, Out, OutList, OutMessage, VxPorts};
pub use message_laws::{data_frames_go_on, messages_are_kept, replies_fit};
pub use sends::{Before, Grant, Sends};
pub use tick::tick_sends;
pub use writing::write_out;
