//! A fabric as a value that knows its history.
use fab_policy::Event;
use fab_turn::Chronicle;
use forward_core::Fabric;

/// A fabric under the lock. Its history is the entries of frames since the last drain.
#[derive(Drop)]
pub struct LockedFabric {
    pub fabric: Fabric,
}

/// The right to take turns with a fabric, for one port or, of the root, for none.
pub type Pass = fab_turn::Pass<LockedFabric>;

impl Chronicle for LockedFabric {
    ghost use Rattle.fab_states.specs.Went.{Grown, grown_of_itself};
    ghost use Rattle.fab_shared.specs.Frames.{frames_of, port_of_event};

    type Entry = Event;

    ghost entries = { λ locked. frames_of locked.fabric.events };

    ghost port_of = { port_of_event };

    ghost grown = { λ first locked. Grown first.fabric locked.fabric };

    ghost grown_of_itself = { λ locked. grown_of_itself locked.fabric };
}
