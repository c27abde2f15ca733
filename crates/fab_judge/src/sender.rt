//! Who sent a frame.
ghost use Rattle.std.specs.Prelude.{◌≡◌};
ghost use Rattle.fab_judge.specs.Judged.{asker_by};
ghost use Rattle.heard_frames.specs.Heard.{sender, source};

use fab_base::{Caught, Enode, Mac, PortNo};
use fab_policy::Asker;
use fc_frames::FcHeader;
use std::marker::Model;
use std::snapshot::Snapshot;

/// Whom a reply answers to a frame from this MAC that carries this header.
pub(crate) fn asker(mac: &Mac, head: &FcHeader) -> Asker
    ensures { result ≡ asker_by mac.now head.now }
{
    Asker {
        mac: *mac,
        d_id: head.d_id,
        s_id: head.s_id,
        ox_id: head.ox_id,
    }
}

/// The ENode that sent a frame: the source of its Ethernet header, behind the port on which it
/// came. The frame itself is read by contracts alone.
#[derive(Drop)]
pub(crate) struct Sender {
    caught: Snapshot<Caught>,
    enode: Enode,
}

impl Model for Sender {
    ghost use Rattle.std.specs.Prelude.{◌≡◌};
    ghost use Rattle.heard_frames.specs.Heard.{sender};
    ghost use Rattle.fab_judge.specs.Origin.{Origin};

    ghost Value = { Origin };

    ghost view = { λ s. record { port = s.enode.port; caught = s.caught.value } };

    ghost invariant = { λ s. s.enode ≡ sender s.enode.port s.caught.value };
}

impl Sender {
    pub(crate) fn of(port: PortNo, caught: &Caught, mac: Mac) -> Sender
        requires { source caught.now ≡ mac }
        ensures { result ≡ record { port = port; caught = caught.now } }
    {
        Sender {
            caught: Snapshot::of(caught),
            enode: Enode { port, mac },
        }
    }

    // Whom a reply answers to a frame of this sender that carries this header.
    pub(crate) fn asker(&self, head: &FcHeader) -> Asker
        ensures { result ≡ asker_by (sender self.now.port self.now.caught).mac head.now }
    {
        asker(&self.enode.mac, head)
    }

    pub(crate) fn enode(&self) -> Enode
        ensures { result ≡ sender self.now.port self.now.caught }
    {
        self.enode
    }
}
