//! What one line of a journal says.
use crate::Verdict;
use fab_base::{IdList, Moment, PortNo};

/// The two formats of a journal's lines: the second begins each line with the clock.
#[derive(Clone, Copy, Debug, PartialEq, Eq)]
pub enum Format {
    One,
    Two,
}

/// What a line says of an entry: all but the frame itself.
#[derive(Debug, Drop)]
pub enum Line {
    /// The clock moves on to this moment; the logins of these addresses end.
    Tick {
        moment: Moment,
        ended: IdList,
    },
    /// The frame of that index of a port's capture, counted from 0, and its verdict; the clock at
    /// the entry in the second format alone.
    Frame {
        port: PortNo,
        index: u64,
        verdict: Verdict,
        clock: Option<Moment>,
    },
}
