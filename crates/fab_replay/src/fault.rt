//! How the check of a journal ends before its end.
use fab_base::{Failed, NoMemory, PortNo};
use fab_policy::Verdict;
use pcap_file::{CapWhy, LimitKind};

/// What is wrong with a line of a journal, in the order of the tests.
#[derive(Clone, Copy, Debug, PartialEq, Eq)]
pub enum LineWhy {
    /// It can't be read, or has no line feed.
    Text,
    /// A tick was expected and it isn't that tick, or it is a tick and none was expected.
    Tick,
    /// It isn't of the next frame of a port, in its window.
    Frame,
    /// No forwarder gives this verdict here; one that it may give is `made`.
    Verdict { found: Verdict, made: Verdict },
    /// It isn't there, and frames are left.
    Rest,
}

/// How the check of a journal ends before its end.
#[derive(Clone, Copy, Debug, PartialEq, Eq)]
pub enum CheckFault {
    /// A line of the journal, counted from 1, is wrong.
    Line { line: u64, why: LineWhy },
    /// The first byte of a port's output that differs, is missing or is too many.
    Output { port: PortNo, at: u64 },
    /// A port's capture can't be taken from this place of its file on.
    Capture { port: PortNo, at: u64, why: CapWhy },
    /// A limit was passed.
    Limit(LimitKind),
    /// A capture or an output couldn't be read.
    Read,
    /// Memory was refused.
    Memory,
}

impl From<NoMemory> for CheckFault {
    ghost use Rattle.std.specs.Prelude.{◌≡◌};
    ghost use Rattle.fab_replay.specs.declared.fault.CheckFault.TheVariants.{Memory};

    ghost from_gives = { λ _ e. e ≡ Memory };

    fn from(_refused: NoMemory) -> CheckFault {
        CheckFault::Memory
    }
}

impl From<Failed> for CheckFault {
    ghost use Rattle.std.specs.Prelude.{◌≡◌};
    ghost use Rattle.fab_replay.specs.declared.fault.CheckFault.TheVariants.{Read};

    ghost from_gives = { λ _ e. e ≡ Read };

    fn from(_failed: Failed) -> CheckFault {
        CheckFault::Read
    }
}
