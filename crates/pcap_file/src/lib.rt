//! Capture files in the classic form of libpcap, read record by record or whole, and written.
#![tactic(auto)]

mod ahead;
mod captures;
mod fault;
mod head;
mod laws;
mod reader;
mod writing;

pub use ahead::Ahead;
pub use captures::{RecordList, read_capture};
use fab_base::{Caught, Failed, Moment};
pub use fault::{CapWhy, GatherFault, LimitKind, MOST_SPAN, fault_of, open_fault_of};
pub use head::{ETHERNET, LAST_SECOND, MOST_STORED, RECORD_HEAD, half_at, number_at};
pub use laws::{
    a_capture_says_one_thing, a_fault_makes_no_capture, a_reader_answers_what_stands_there,
    a_step_tells_what_stands_there, moments_do_not_go_back, the_end_makes_a_capture,
    what_is_written_is_read,
};
pub use reader::Reader;
use thiserror::Error;
pub use writing::{write_head, write_record};

/// What the head of a capture says: the byte order of its numbers, and whether its fractions are
/// nanoseconds. Else they are microseconds.
#[derive(Clone, Copy, Debug, PartialEq, Eq)]
pub struct CaptureHead {
    pub big: bool,
    pub nano: bool,
}

/// Why bytes are no head of a capture that is read, in the order of the tests.
#[derive(Clone, Copy, Debug, PartialEq, Eq, Error)]
pub enum CapFault {
    /// Fewer than 24 bytes.
    #[error("the head has fewer than 24 bytes")]
    Short,
    /// The first 4 bytes are no magic.
    #[error("the first 4 bytes are no magic of a capture")]
    BadMagic,
    /// The version isn't 2.4.
    #[error("the version isn't 2.4")]
    BadVersion,
    /// The link type isn't 1.
    #[error("the link type isn't Ethernet")]
    NotEthernet,
}

/// One record: its moment, and the frame that was captured.
#[derive(Debug, Drop)]
pub struct Record {
    pub moment: Moment,
    pub caught: Caught,
}

/// What is left of the limits on captures.
#[derive(Clone, Copy, Debug, PartialEq, Eq)]
pub struct Budget {
    pub bytes: u64,
    pub frames: u64,
}

/// Why a capture wasn't opened.
#[derive(Clone, Copy, Debug, PartialEq, Eq, Error)]
pub enum CapOpen {
    /// Its first bytes are no head.
    #[error(transparent)]
    Head(CapFault),
    /// The depot failed.
    #[error("the capture can't be read")]
    Read(Failed),
    /// Fewer than 24 bytes of the budget are left.
    #[error("the head passes the limit on bytes")]
    Bytes,
}

/// Why a reader stopped. `at` is the place of the record's first byte in the file.
#[derive(Clone, Copy, Debug, PartialEq, Eq, Error)]
pub enum CapError {
    /// The bytes end inside the record.
    #[error("the record at {at} is cut")]
    Cut { at: u64 },
    /// The stored length passes 65,535.
    #[error("the record at {at} stores {len} bytes, more than 65535")]
    TooLong { at: u64, len: u32 },
    /// The record passes the bytes of the budget.
    #[error("the record passes the limit on bytes")]
    Bytes,
    /// No frame of the budget is left.
    #[error("the record passes the limit on frames")]
    Frames,
    /// The depot failed.
    #[error("the capture can't be read")]
    Read(Failed),
    /// Memory was refused.
    #[error("memory was refused")]
    Memory,
}
