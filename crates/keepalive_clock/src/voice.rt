//! Whose keep alives are heard, and when each was heard last.
ghost use Rattle.std.specs.Prelude.{◌≡◌};

use fab_base::{Enode, FcId, Moment};
use sorted_lists::enode_number;

/// Whose keep alives are heard: an ENode, or the N_Port of an address.
#[derive(Clone, Copy, Debug, PartialEq, Eq)]
pub enum Voice {
    Node(Enode),
    Port(FcId),
}

impl Voice {
    ghost use Rattle.keepalive_clock.specs.Order.{number_of, IsWhole};

    // A number that no other voice has.
    pub(crate) fn number(&self) -> u64
        ensures value { result ≡ number_of self.now }
        ensures whole { IsWhole self.now }
    {
        match self {
            Voice::Node(node) => enode_number(node),
            Voice::Port(address) => address.value() as u64,
        }
    }
}

/// A voice with the moment at which it was last heard.
#[derive(Clone, Copy, Debug, PartialEq, Eq)]
pub struct LastHeard {
    pub voice: Voice,
    pub last: Moment,
}
