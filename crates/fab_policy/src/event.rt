//! One turn of the forwarder.
use crate::Verdict;
use fab_base::{Caught, IdList, Moment, PortNo};

/// A tick of the clock, or one frame of one port.
#[derive(Debug, Drop)]
pub enum Event {
    /// The clock moves on to this moment; the logins of these addresses end.
    Tick {
        moment: Moment,
        ended: IdList,
    },
    /// The frame of that index of a port's capture, counted from 0, and its verdict.
    Frame {
        port: PortNo,
        index: u64,
        caught: Caught,
        verdict: Verdict,
    },
}
