//! What is sent, as values.
use fab_base::{Bytes, FcId, Mac, Moment, OwnedList, PortNo};
use fab_policy::{Asker, Event};
use fip_codec::{LoginKind, VxPort};
use std::marker::Model;

/// What a link service answers.
#[derive(Clone, Copy, Debug, PartialEq, Eq)]
pub enum Answer {
    Accept,
    /// Reason and explanation.
    Reject(u8, u8),
    /// The accept of a login to the name server.
    ServerLogin,
}

/// The N_Ports that a clear link message lists.
#[derive(Debug, Drop)]
pub struct VxPorts {
    items: Vec<VxPort>,
}

impl Model for VxPorts {
    ghost use Rattle.std.specs.Prelude.{List};
    ghost use Rattle.fip_codec.specs.declared.message.VxPort as vx;

    ghost Value = { List vx.VxPort };

    ghost view = { λ l. l.items.items };
}

impl VxPorts {
    ghost use Rattle.std.specs.Prelude.{◌≡◌};

    /// These N_Ports, without a copy.
    pub fn from_vec(items: Vec<VxPort>) -> VxPorts
        ensures { result ≡ items.items }
    {
        VxPorts { items }
    }

    /// The N_Ports.
    pub fn view(&self) -> &[VxPort]
        ensures { result.now ≡ self.now }
    {
        self.items.as_slice()
    }
}

/// What determines the bytes of one frame that is sent.
#[derive(Debug, Drop)]
pub enum OutMessage {
    /// The VLAN notification, with a tag or none.
    Vlans {
        to: Mac,
        untagged: bool,
    },
    /// A solicited advertisement, of the size that was asked for.
    Solicited {
        to: Mac,
        size: u16,
    },
    /// An advertisement to all nodes.
    Advertisement,
    /// The accept of a FLOGI or FDISC on a port, with the granted address; whether several
    /// addresses were asked for.
    LoginAccept {
        to: Asker,
        kind: LoginKind,
        port: PortNo,
        several: bool,
        address: FcId,
    },
    /// Another answer to a FLOGI, FDISC or LOGO.
    LoginReply {
        to: Asker,
        kind: LoginKind,
        answer: Answer,
    },
    /// An answer to an N_Port that is logged in.
    ServiceReply {
        to: Asker,
        answer: Answer,
    },
    /// The frame of that number of an answer of the name server.
    Ct {
        to: Asker,
        count: u16,
        last: bool,
        payload: Bytes,
    },
    /// A clear link message.
    Clear {
        to: Mac,
        ports: VxPorts,
    },
    /// A state change of an address.
    Rscn {
        watcher: FcId,
        affected: FcId,
        ox_id: u16,
    },
    /// The frame of an entry goes on.
    Forwarded {
        entry: usize,
        to: FcId,
    },
}

/// A frame that is sent, on a port at a moment.
#[derive(Debug, Drop)]
pub struct Out {
    pub port: PortNo,
    pub moment: Moment,
    pub message: OutMessage,
}

/// Entries, of which a message may send the frame on.
pub type EventList = OwnedList<Event>;

/// Frames that are sent, in their order.
pub type OutList = OwnedList<Out>;
