//! The table of messages (FC-BB-5, "FIP operations").
ghost use Rattle.std.specs.Prelude.{◌≡◌};
ghost use Rattle.std.specs.Option.{option_map};
ghost use Rattle.fip_codec.specs.Fip.{name_of, required, optional, stands_once};
ghost use Rattle.fip_codec.specs.Table.{named};

use crate::descriptor::{ADVERTISING, FABRIC, FLOGI, MAC, NAME, PRIORITY, SIZE, VX_PORT, family};

/// A row of the table.
#[derive(Clone, Copy, Debug, PartialEq, Eq)]
pub(crate) enum MessageKind {
    Solicit,
    Advertise,
    Login,
    LoginReply,
    Keep,
    Clear,
    VlanAsk,
    VlanTell,
}

use MessageKind::{Advertise, Clear, Keep, Login, LoginReply, Solicit, VlanAsk, VlanTell};

impl MessageKind {
    /// The row of an operation and a subcode.
    pub(crate) fn of(operation: u16, subcode: u8) -> Option<MessageKind>
        ensures { option_map named result ≡ name_of operation subcode }
    {
        match (operation, subcode) {
            (1, 1) => Some(Solicit),
            (1, 2) => Some(Advertise),
            (2, 1) => Some(Login),
            (2, 2) => Some(LoginReply),
            (3, 1) => Some(Keep),
            (3, 2) => Some(Clear),
            (4, 1) => Some(VlanAsk),
            (4, 2) => Some(VlanTell),
            _ => None,
        }
    }

    /// The types that the message must have, in the order in which they are written.
    pub(crate) fn required(self) -> &'static [u8]
        ensures { result.now ≡ required (named self) }
    {
        match self {
            Solicit => &[MAC, NAME, SIZE],
            Advertise => &[PRIORITY, MAC, NAME, FABRIC, ADVERTISING],
            Login => &[FLOGI, MAC],
            LoginReply => &[FLOGI],
            Keep => &[MAC],
            Clear => &[MAC, NAME],
            VlanAsk => &[MAC],
            VlanTell => &[MAC],
        }
    }

    /// The types that it may have once.
    pub(crate) fn optional(self) -> &'static [u8]
        ensures { result.now ≡ optional (named self) }
    {
        match self {
            LoginReply => &[MAC],
            Keep => &[VX_PORT],
            VlanAsk => &[NAME],
            Solicit | Advertise | Login | Clear | VlanTell => &[],
        }
    }

    /// Whether the message has at most one of this type.
    pub(crate) fn stands_once(self, kind: u8) -> bool
        ensures { result ≡ stands_once (named self) kind }
    {
        let kind = family(kind);
        self.required().contains(&kind) || self.optional().contains(&kind)
    }
}
