//! FC frames (FC-FS-3): the header of 24 bytes, the payload, and the pieces of a long payload.
#![tactic(auto)]

mod assigned;
mod cutting;
mod kind;
mod laws;
mod reading;
mod writing;

pub use assigned::{
    CONTROLLER, F_CTL_EARLIER, F_CTL_LAST, F_CTL_REQUEST, FABRIC_PORT, MOST_PAYLOAD, NAME_SERVER,
    SERVICES, UNASSIGNED,
};
pub use cutting::pieces;
use fab_base::FcId;
pub use kind::{FCP, Kind};
pub use laws::{
    frame_is_written, frame_reads_back, frame_stands_once, ranges_have_the_pieces,
    the_last_range_is_marked,
};
pub use reading::read_frame;
use thiserror::Error;
pub use writing::write_frame;

/// The header of a frame. `kind` is TYPE; of `f_ctl` and of `parameter` every bit is kept as it is.
#[derive(Clone, Copy, Debug)]
pub struct FcHeader {
    pub r_ctl: u8,
    pub d_id: FcId,
    pub cs_ctl: u8,
    pub s_id: FcId,
    pub kind: u8,
    /// 24 bits: of a greater number the low 24 are written.
    pub f_ctl: u32,
    pub seq_id: u8,
    pub df_ctl: u8,
    pub seq_cnt: u16,
    pub ox_id: u16,
    pub rx_id: u16,
    pub parameter: u32,
}

/// A frame without delimiters and CRC.
#[derive(Clone, Copy, Debug)]
pub struct FcFrame<'a> {
    pub head: FcHeader,
    pub payload: &'a [u8],
}

/// Why bytes are no frame.
#[derive(Clone, Copy, Debug, PartialEq, Eq, Error)]
pub enum FcFault {
    /// Fewer than the 24 bytes of a header.
    #[error("the frame is shorter than its header of 24 bytes")]
    Short,
    /// The payload isn't a multiple of 4 bytes.
    #[error("the payload isn't a multiple of 4 bytes")]
    Odd,
    /// The payload has more than 2112 bytes.
    #[error("the payload has more than 2112 bytes")]
    Long,
}

/// A range of a payload, from the first byte to before `to`. `last` marks the range that ends it.
#[derive(Clone, Copy, Debug, PartialEq, Eq)]
pub struct Piece {
    pub from: usize,
    pub to: usize,
    pub last: bool,
}

/// The bytes of a header.
const HEADER: usize = 24;

/// The most bytes of payload in a frame, as a length.
const MOST: usize = MOST_PAYLOAD as usize;
