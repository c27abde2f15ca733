//! What the forwarder decides about a frame.
ghost use Rattle.std.specs.Prelude.{◌≡◌, ◌↔◌, IsSome, IfSome, is_some};
ghost use Rattle.fab_policy.specs.Cause.{is_numbered};

use fab_base::{FcId, PortNo};
use std::marker::Model;

/// Why a frame is dropped, in the order of the tests.
#[derive(Clone, Copy, Debug, PartialEq, Eq)]
pub enum Rule {
    /// `truncated`: The record isn't whole.
    Truncated,
    /// `eth-short`: Too short for Ethernet.
    EthShort,
    /// `ethertype`: Neither FIP nor FCoE.
    Ethertype,
    /// `fip-short`: Too short for the header of FIP.
    FipShort,
    /// `fip-version`: Another version of FIP than 1.
    FipVersion,
    /// `fip-operation`: An unknown operation of FIP.
    FipOperation,
    /// `fip-list`: The list of descriptors passes the body.
    FipList,
    /// `fip-length`: A descriptor has a wrong length; the number is its place.
    FipLength,
    /// `fip-critical`: A critical descriptor is unknown; the number is its place.
    FipCritical,
    /// `fip-double`: A descriptor stands twice; the number is the place of the second.
    FipDouble,
    /// `fip-missing`: A descriptor is missing; the number is its type.
    FipMissing,
    /// `vlan`: Another VLAN.
    Vlan,
    /// `fip-dest`: A FIP frame to another destination.
    FipDest,
    /// `fip-role`: A message that only a forwarder sends.
    FipRole,
    /// `fip-mac`: The message gives another MAC than its source.
    FipMac,
    /// `els-short`: A link service that can't be read.
    ElsShort,
    /// `els-kind`: A login whose frame isn't that of its descriptor.
    ElsKind,
    /// `keepalive-unknown`: A keep alive of nobody who is logged in.
    KeepaliveUnknown,
    /// `fcoe-length`: A body of FCoE of a wrong length.
    FcoeLength,
    /// `fcoe-version`: Another version of FCoE than 0.
    FcoeVersion,
    /// `fcoe-sof`: An unknown start of frame.
    FcoeSof,
    /// `fcoe-eof`: An unknown end of frame.
    FcoeEof,
    /// `fcoe-crc`: A wrong check sequence.
    FcoeCrc,
    /// `fcoe-class`: A class other than 3.
    FcoeClass,
    /// `fcoe-dest`: A FCoE frame to another destination.
    FcoeDest,
    /// `source-mac`: The source MAC isn't the one that was granted for the S_ID.
    SourceMac,
    /// `source-login`: Nobody holds the S_ID.
    SourceLogin,
    /// `source-port`: The S_ID is logged in on another port.
    SourcePort,
    /// `service-address`: A service that isn't there.
    ServiceAddress,
    /// `service-frame`: A frame that the service doesn't take.
    ServiceFrame,
    /// `ct-short`: A request of the common transport without its preamble.
    CtShort,
    /// `self`: The D_ID is the S_ID.
    OwnAddress,
    /// `dest-login`: Nobody holds the D_ID.
    DestLogin,
    /// `zone`: No zone joins the two.
    Zone,
}

impl Rule {
    ghost use Rattle.std.specs.Prelude.{◌≡◌};
    ghost use Rattle.fab_policy.specs.Cause as cause;

    /// Whether a number stands beside the rule.
    pub fn is_numbered(self) -> bool
        ensures { result ≡ cause.is_numbered self }
    {
        match self {
            Rule::FipLength | Rule::FipCritical | Rule::FipDouble | Rule::FipMissing => true,
            _ => false,
        }
    }
}

/// A rule, with a number for the rules that have one.
#[derive(Clone, Copy, Debug, PartialEq, Eq)]
pub struct Dropped {
    rule: Rule,
    number: Option<u32>,
}

impl Model for Dropped {
    ghost use Rattle.std.specs.Prelude.{◌≡◌, is_some};
    ghost use Rattle.fab_policy.specs.Cause.{Cause, is_numbered};

    ghost Value = { Cause };

    ghost view = { λ d. record { rule = d.rule; number = d.number } };

    ghost invariant = { λ d. is_some d.number ≡ is_numbered d.rule };

    ghost inverse = { λ c. record { rule = c.rule; number = c.number } };
}

impl Dropped {
    ghost use Rattle.std.specs.Prelude.{◌≡◌, ◌↔◌, ◌<◌, ◌^◌, IsSome, IfSome, is_some};
    ghost use Rattle.fab_policy.specs.Cause.{is_numbered};

    /// A rule with its number, or none where the rule has a number and none is given, or the other
    /// way round.
    pub fn new(rule: Rule, number: Option<u32>) -> Option<Dropped>
        ensures value { IfSome result (λ d. d ≡ record { rule = rule; number = number }) }
        ensures some { IsSome result ↔ (is_some number ≡ is_numbered rule) }
    {
        if number.is_some() == rule.is_numbered() {
            Some(Dropped { rule, number })
        } else {
            None
        }
    }

    /// The rule.
    pub fn rule(&self) -> Rule
        ensures { result ≡ self.now.rule }
    {
        self.rule
    }

    /// A place in bytes, or the type of a descriptor, where the rule has one.
    pub fn number(&self) -> Option<u32>
        ensures value { result ≡ self.now.number }
        ensures some { is_some result ≡ is_numbered self.now.rule }
        ensures range { IfSome result (λ n. n < 2 ^ 32) }
    {
        // Read at its place, so that its range is known.
        match &self.number {
            Some(number) => Some(*number),
            None => None,
        }
    }
}

/// What is decided about a frame.
#[derive(Clone, Copy, Debug, PartialEq, Eq)]
pub enum Verdict {
    /// `vlans`: A VLAN request is answered.
    Vlans,
    /// `advertised`: A solicitation is answered by an advertisement.
    Advertised,
    /// `granted`: A FLOGI or FDISC gets this address.
    Granted(FcId),
    /// `rejected`: A login, a LOGO in FIP or a link service to the fabric is rejected: reason and
    /// explanation.
    Rejected(u8, u8),
    /// `logout`: A LOGO in FIP ends the login of this address.
    Logout(FcId),
    /// `alive`: A keep alive of an ENode.
    AliveNode,
    /// `alive`: A keep alive of this VN_Port.
    AlivePort(FcId),
    /// `ns-login`: A login to the name server.
    NsLogin,
    /// `ns-logout`: A logout from the name server.
    NsLogout,
    /// `watching`: State changes are asked for, with this function; 255 clears.
    Watching(u8),
    /// `registered`: A registration at the name server.
    Registered,
    /// `answered`: A query of the name server is answered.
    Answered,
    /// `refused`: A request to the name server is refused: reason and explanation.
    Refused(u8, u8),
    /// `noted`: A reply to a state change.
    Noted,
    /// `forwarded`: A frame goes on to this port.
    Forwarded(PortNo),
    /// `dropped`: The frame is dropped.
    Dropped(Dropped),
}
