//! Verdicts with what carrying them out takes from the frame.
ghost use Rattle.std.specs.Prelude.{◌≡◌};
ghost use Rattle.fab_policy.specs.Classes.{of_replied, of_settled};

use crate::{Dropped, Verdict};
use fab_base::{Enode, FcId, Mac, PortNo};
use fip_codec::LoginKind;

/// A verdict that sends a FIP answer, the frame itself, or nothing, with what that takes from the
/// frame.
#[derive(Clone, Copy, Debug, PartialEq, Eq)]
pub enum Settled {
    /// `vlans`, to this MAC, without a tag where the request has none.
    Vlans { to: Mac, untagged: bool },
    /// `advertised`, to this MAC, in a frame of the size in bytes that it asks for.
    Advertised { to: Mac, size: u16 },
    /// `alive` of this ENode.
    AliveNode(Enode),
    /// `alive` of this VN_Port.
    AlivePort(FcId),
    /// `noted`.
    Noted,
    /// `forwarded` to this port, for the N_Port of this address.
    Forwarded { port: PortNo, to: FcId },
    /// `dropped` by a rule.
    Dropped(Dropped),
}

/// A verdict that is replied to the sender of the frame, with what the tables then keep of it.
#[derive(Clone, Copy, Debug, PartialEq, Eq)]
pub enum Replied {
    /// `rejected`: a login in FIP of this kind, or else a link service.
    Rejected {
        login: Option<LoginKind>,
        reason: u8,
        explanation: u8,
    },
    /// `logout`: the login of this address ends. The kind is that of the request.
    Logout {
        kind: LoginKind,
        address: FcId,
    },
    /// `ns-login`, with the receive size that the login gives.
    NsLogin(u16),
    /// `ns-logout`.
    NsLogout,
    /// `watching` with this function.
    Watching(u8),
    /// `refused`: reason and explanation.
    Refused(u8, u8),
}

impl Settled {
    /// The verdict that it is.
    pub fn verdict(self) -> Verdict
        ensures { result ≡ of_settled self }
    {
        match self {
            Settled::Vlans { .. } => Verdict::Vlans,
            Settled::Advertised { .. } => Verdict::Advertised,
            Settled::AliveNode(_) => Verdict::AliveNode,
            Settled::AlivePort(address) => Verdict::AlivePort(address),
            Settled::Noted => Verdict::Noted,
            Settled::Forwarded { port, .. } => Verdict::Forwarded(port),
            Settled::Dropped(cause) => Verdict::Dropped(cause),
        }
    }
}

impl Replied {
    /// The verdict that it is.
    pub fn verdict(self) -> Verdict
        ensures { result ≡ of_replied self }
    {
        match self {
            Replied::Rejected {
                reason,
                explanation,
                ..
            } => Verdict::Rejected(reason, explanation),
            Replied::Logout { address, .. } => Verdict::Logout(address),
            Replied::NsLogin(_) => Verdict::NsLogin,
            Replied::NsLogout => Verdict::NsLogout,
            Replied::Watching(function) => Verdict::Watching(function),
            Replied::Refused(reason, explanation) => Verdict::Refused(reason, explanation),
        }
    }
}
