//! How a forwarder that runs ends before its stream does.

use crate::{LimitKind, NgWhy};
use fab_base::NoMemory;

/// How it ends.
#[derive(Clone, Copy, Debug, PartialEq, Eq)]
pub enum LiveFault {
    /// The stream has this fault in the block that begins at this byte.
    Block { at: u64, why: NgWhy },
    /// A packet is of an interface that is no port: its number, from 0.
    Port(u32),
    /// A limit is passed: the bytes or the frames of the stream, or the span of its times.
    Limit(LimitKind),
    /// The stream couldn't be read.
    Read,
    /// A file couldn't be written.
    Write,
    /// Memory was refused.
    Memory,
}

impl From<NoMemory> for LiveFault {
    ghost use Rattle.std.specs.Prelude.{◌≡◌};
    ghost use Rattle.fab_live.specs.declared.fault.LiveFault.TheVariants.{Memory};

    ghost from_gives = { λ _ e. e ≡ Memory };

    fn from(_refused: NoMemory) -> LiveFault {
        LiveFault::Memory
    }
}
