//! Capture files in the pcapng form (draft-ietf-opsawg-pcapng), read from a slot of a depot.
#![tactic(auto)]

mod block;
mod classic;
mod fault;
mod laws;
mod options;
mod packet;
mod passing;
mod reading;
mod stream;

pub use classic::{add_packet, classic_capture, convert};
use fab_base::{Caught, Moment, OwnedList};
pub use fault::{ConvertError, NgError, NgLimit, NgWhy};
pub use laws::{
    a_capture_of_packets_is_read_back, a_file_has_one_list_of_packets, a_reading_is_the_file,
    a_stream_is_read_as_its_file, packets_in_order_are_read_back,
};
pub use reading::read_ng;
pub use stream::NgStream;

/// One packet: its time, the frame that was captured, and the length that the frame had.
#[derive(Debug, Drop)]
pub struct NgRecord {
    pub moment: Moment,
    pub caught: Caught,
    pub original: u32,
    /// The number of its interface in its section, from 0.
    pub face: u32,
}

/// The packets of a file, in its order.
pub type NgRecords = OwnedList<NgRecord>;
