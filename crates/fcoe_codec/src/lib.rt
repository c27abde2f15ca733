//! The body of an FCoE frame (FC-BB-5): an FC frame between its delimiters, with its CRC.
#![tactic(auto)]

mod class;
mod delimiters;
mod laws;
mod reading;
mod writing;

pub use delimiters::{EOF_A, EOF_N, EOF_NI, EOF_T, SOF_F, SOF_I2, SOF_I3, SOF_N2, SOF_N3};
use fc_frames::FcFrame;
pub use laws::{delimiters_have_their_codes, fcoe_is_written, fcoe_reads_back, fcoe_stands_once};
pub use reading::read_fcoe;
use thiserror::Error;
pub use writing::{fcoe_bytes, write_fcoe};

/// A frame and the codes of its delimiters.
#[derive(Clone, Copy, Debug)]
pub struct FcoeFrame<'a> {
    pub sof: u8,
    pub eof: u8,
    pub frame: FcFrame<'a>,
}

/// Why bytes are no body of an FCoE frame.
#[derive(Clone, Copy, Debug, PartialEq, Eq, Error)]
pub enum FcoeFault {
    /// Not 46 to 2158 bytes, or a payload that isn't a multiple of 4 bytes.
    #[error("no FCoE frame has a body of this length")]
    Length,
    /// The version isn't 0.
    #[error("the FCoE version isn't 0")]
    Version,
    /// An unknown code of the start.
    #[error("the start of frame is unknown")]
    Sof,
    /// An unknown code of the end.
    #[error("the end of frame is unknown")]
    Eof,
    /// The CRC that stands there isn't that of the frame.
    #[error("the CRC is {found:08x} and should be {made:08x}")]
    Crc { found: u32, made: u32 },
}

/// The place of the code of the start, behind the version and reserved bytes.
const SOF_AT: usize = 13;

/// The place of the FC header.
const HEADER_AT: usize = 14;

/// The bytes behind the payload: CRC, code of the end, reserved bytes.
const TAIL: usize = 8;

/// The length of a body without payload.
const LEAST: usize = 46;

/// The bytes of a body with the longest payload, the greatest size of FCoE.
pub const MOST_BODY: u16 = 2158;

/// The same as a length.
const MOST: usize = MOST_BODY as usize;
