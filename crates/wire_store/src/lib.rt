//! A store whose stream is what devices hear, and whose outputs are sent by devices.
#![tactic(auto)]

mod cut;
mod feed;
mod laws;
mod mem_ports;
mod ports;
mod store;
mod written;

pub use cut::Splitter;
use fab_base::Bytes;
pub use feed::{Feed, send_wholes};
pub use laws::{
    a_capture_is_cut_into_its_frames, a_port_is_given_what_was_put,
    a_splitter_gives_each_whole_record, a_stream_of_what_was_heard_is_read_back,
    fetches_are_of_one_stream,
};
pub use mem_ports::MemPorts;
pub use ports::{Block, Ports};
pub use store::Wires;
pub use written::{add_block, add_head};

/// A frame that was heard: its port, the moment in nanoseconds since 1970, and its bytes.
#[derive(Debug, Drop)]
pub struct Heard {
    pub face: u32,
    pub nanos: u64,
    pub frame: Bytes,
}
