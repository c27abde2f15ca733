//! FIP messages, as they are read and as they are written (FC-BB-5, "FIP operations").

ghost use Rattle.std.specs.Prelude.{◌≡◌};
ghost use Rattle.fip_codec.specs.Message as spec;

use crate::{VlanList, VxList};
use fab_base::{FcId, Mac, Wwn};

/// The request in an encapsulated frame.
#[derive(Clone, Copy, Debug, PartialEq, Eq)]
pub enum LoginKind {
    Flogi,
    Fdisc,
    Logo,
}

/// A Vx_Port descriptor.
#[derive(Clone, Copy, Debug, PartialEq, Eq)]
pub struct VxPort {
    pub mac: Mac,
    pub address: FcId,
    pub name: Wwn,
}

/// A message that was read. Slices and lists are cut out of the body.
pub type FipMessage<'a> = Message<'a, VxList<'a>, VlanList<'a>>;

/// A message to write.
pub type FipOut<'a> = Message<'a, &'a [VxPort], &'a [u16]>;

/// A message, with its Vx_Ports as a `P` and its VLAN numbers as a `V`.
#[derive(Debug, Drop)]
pub enum Message<'a, P, V> {
    /// Discovery solicitation, 1 and 1. `size` is the FCoE size that the answer is to have.
    Solicit {
        from_fcf: bool,
        fp: bool,
        mac: Mac,
        node: Wwn,
        size: u16,
    },
    /// Discovery advertisement, 1 and 2. `period` is in milliseconds, and `quiet` asks for no keep
    /// alives.
    Advertise {
        solicited: bool,
        available: bool,
        from_fcf: bool,
        fp: bool,
        priority: u8,
        mac: Mac,
        switch: Wwn,
        map: u32,
        fabric: Wwn,
        quiet: bool,
        period: u32,
    },
    /// FLOGI, FDISC or LOGO request, 2 and 1. `frame` is the encapsulated FC frame, header and
    /// payload.
    Login {
        kind: LoginKind,
        fp: bool,
        frame: &'a [u8],
        mac: Mac,
    },
    /// The answer to it, 2 and 2. `mac` is the granted MAC.
    LoginReply {
        kind: LoginKind,
        fp: bool,
        frame: &'a [u8],
        mac: Option<Mac>,
    },
    /// Keep alive, 3 and 1: of a VN_Port where there is one, else of the ENode.
    Keep {
        mac: Mac,
        port: Option<VxPort>,
    },
    /// Clear virtual links, 3 and 2.
    Clear {
        mac: Mac,
        switch: Wwn,
        ports: P,
    },
    /// VLAN request, 4 and 1.
    VlanAsk {
        mac: Mac,
        node: Option<Wwn>,
    },
    /// VLAN notification, 4 and 2.
    VlanTell {
        mac: Mac,
        vlans: V,
    },
}

/// Whether only a forwarder sends this message; a solicitation says so itself.
pub fn is_forwarders(message: &FipMessage<'_>) -> bool
    ensures { result ≡ spec.is_forwarders (spec.view message.now) }
{
    match message {
        Message::Solicit { from_fcf, .. } => *from_fcf,
        Message::Advertise { .. }
        | Message::LoginReply { .. }
        | Message::Clear { .. }
        | Message::VlanTell { .. } => true,
        Message::Login { .. } | Message::Keep { .. } | Message::VlanAsk { .. } => false,
    }
}
