//! How the reading of captures ends early.
ghost use Rattle.std.specs.Prelude.{◌≡◌};
ghost use Rattle.pcap_file.specs.Faults.{fault_by, open_fault_by, why_of};

use crate::{CapError, CapFault, CapOpen};
use fab_base::{NoMemory, PortNo};

/// Why a capture isn't taken. The first four speak of its head, the others of a record.
#[derive(Clone, Copy, Debug, PartialEq, Eq)]
pub enum CapWhy {
    /// Fewer than 24 bytes.
    Short,
    /// The first 4 bytes are no magic.
    Magic,
    /// The version isn't 2.4.
    Version,
    /// The link type isn't Ethernet.
    Link,
    /// The bytes end inside a record.
    Cut,
    /// A record stores more than 65,535 bytes.
    Long,
}

/// Which limit was passed.
#[derive(Clone, Copy, Debug, PartialEq, Eq)]
pub enum LimitKind {
    /// The bytes of all captures.
    Bytes,
    /// The frames of all captures.
    Frames,
    /// The milliseconds from the first window to the last.
    Span,
}

/// The most milliseconds from the first window of a run to its last, or between the first moment
/// and the last where whole captures are read: six hours.
pub const MOST_SPAN: u64 = 21_600_000;

/// How the reading of captures ends before their end.
#[derive(Clone, Copy, Debug, PartialEq, Eq)]
pub enum GatherFault {
    /// A port's capture can't be taken from this place of its file on.
    Capture { port: PortNo, at: u64, why: CapWhy },
    /// A limit was passed.
    Limit(LimitKind),
    /// A capture couldn't be read.
    Read,
    /// Memory was refused.
    Memory,
}

impl From<NoMemory> for GatherFault {
    ghost use Rattle.std.specs.Prelude.{◌≡◌};
    ghost use Rattle.pcap_file.specs.declared.fault.GatherFault.TheVariants.{Memory};

    ghost from_gives = { λ _ e. e ≡ Memory };

    fn from(_refused: NoMemory) -> GatherFault {
        GatherFault::Memory
    }
}

/// What an error of opening a port's capture ends the reading with.
pub fn open_fault_of(error: CapOpen, port: PortNo) -> GatherFault
    ensures { result ≡ open_fault_by error port }
{
    match error {
        CapOpen::Head(fault) => GatherFault::Capture {
            port,
            at: 0,
            why: why(fault),
        },
        CapOpen::Read(_) => GatherFault::Read,
        CapOpen::Bytes => GatherFault::Limit(LimitKind::Bytes),
    }
}

// The word for the fault of a head.
fn why(fault: CapFault) -> CapWhy
    ensures { result ≡ why_of fault }
{
    match fault {
        CapFault::Short => CapWhy::Short,
        CapFault::BadMagic => CapWhy::Magic,
        CapFault::BadVersion => CapWhy::Version,
        CapFault::NotEthernet => CapWhy::Link,
    }
}

/// What an error of a port's reader ends the reading with.
pub fn fault_of(error: CapError, port: PortNo) -> GatherFault
    ensures { result ≡ fault_by error port }
{
    match error {
        CapError::Cut { at } => GatherFault::Capture {
            port,
            at,
            why: CapWhy::Cut,
        },
        CapError::TooLong { at, len: _ } => GatherFault::Capture {
            port,
            at,
            why: CapWhy::Long,
        },
        CapError::Bytes => GatherFault::Limit(LimitKind::Bytes),
        CapError::Frames => GatherFault::Limit(LimitKind::Frames),
        CapError::Read(_) => GatherFault::Read,
        CapError::Memory => GatherFault::Memory,
    }
}
