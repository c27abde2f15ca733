//! How a run ends early.

use fab_base::{NoMemory, PortNo};
use pcap_file::{CapWhy, GatherFault, LimitKind};

/// How a run ends before the end of the captures.
#[derive(Clone, Copy, Debug, PartialEq, Eq)]
pub enum RunFault {
    /// A port's capture can't be taken from this place of its file on.
    Capture { port: PortNo, at: u64, why: CapWhy },
    /// A limit was passed.
    Limit(LimitKind),
    /// A capture couldn't be read.
    Read,
    /// The journal or an output couldn't be written.
    Write,
    /// Memory was refused.
    Memory,
}

impl From<NoMemory> for RunFault {
    ghost use Rattle.std.specs.Prelude.{◌≡◌};
    ghost use Rattle.run_files.specs.declared.fault.RunFault.TheVariants.{Memory};

    ghost from_gives = { λ _ e. e ≡ Memory };

    fn from(_refused: NoMemory) -> RunFault {
        RunFault::Memory
    }
}

impl From<GatherFault> for RunFault {
    ghost use Rattle.std.specs.Prelude.{◌≡◌};
    ghost use Rattle.run_files.specs.Faults.{fault_from};

    ghost from_gives = { λ gathering e. e ≡ fault_from gathering };

    fn from(gathering: GatherFault) -> RunFault {
        match gathering {
            GatherFault::Capture { port, at, why } => RunFault::Capture { port, at, why },
            GatherFault::Limit(kind) => RunFault::Limit(kind),
            GatherFault::Read => RunFault::Read,
            GatherFault::Memory => RunFault::Memory,
        }
    }
}
