//! Ethernet II frames with at most one IEEE 802.1Q tag.
#![tactic(auto)]

ghost use Rattle.std.specs.Prelude.{◌≡◌};
ghost use Rattle.eth_frames.specs.Ethernet.{vlan_of_tag};

mod assigned;
mod laws;
mod reading;
mod writing;

pub use assigned::{ALL_ENODES, ALL_FCFS, FCOE, FIP};
use fab_base::Mac;
pub use laws::{eth_is_written, eth_reads_back, eth_stands_once};
pub use reading::read_eth;
use thiserror::Error;
pub use writing::write_eth;

/// A frame without its check sequence. `tag` is the 16 bits behind 8100, `kind` the Ethertype, and
/// `body` all that follows it, with its pad.
#[derive(Clone, Copy, Debug)]
pub struct EthFrame<'a> {
    pub dst: Mac,
    pub src: Mac,
    pub tag: Option<u16>,
    pub kind: u16,
    pub body: &'a [u8],
}

impl EthFrame<'_> {
    /// The VLAN number, 0 to 4095. A frame without a tag has 0, as has a tag that is for its
    /// priority alone.
    pub fn vlan(&self) -> u16
        ensures vlan { result ≡ vlan_of_tag self.now.tag }
    {
        match self.tag {
            Some(tag) => tag % VLANS,
            None => 0,
        }
    }
}

/// Why bytes are no frame.
#[derive(Clone, Copy, Debug, PartialEq, Eq, Error)]
pub enum EthFault {
    /// Fewer than 14 bytes, or fewer than 18 behind the Ethertype of a tag.
    #[error("the frame is shorter than its Ethernet header")]
    Short,
}

/// How many VLAN numbers there are: 12 bits.
const VLANS: u16 = 4096;

/// The Ethertype that announces a tag.
const TAGGED: u16 = 0x8100;

/// The least length of a frame without its check sequence.
const LEAST: usize = 60;
