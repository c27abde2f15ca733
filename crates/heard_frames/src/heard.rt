//! A captured frame and what it is (IEEE 802.3, IEEE 802.1Q; FC-BB-5).
ghost use Rattle.std.specs.Prelude.{◌≡◌, nat_lt};
ghost use Rattle.std.specs.List.{AllPass};
ghost use Rattle.eth_frames.specs.Ethernet.{view as eth_view};
ghost use Rattle.heard_frames.specs.View.{view};
ghost use Rattle.heard_frames.specs.Heard as spec;
ghost use Rattle.heard_frames.specs.Heard.{decoded, frame_in};

use crate::Unreadable;
use eth_frames::{EthFrame, FCOE, FIP, read_eth};
use fab_base::Caught;
use fcoe_codec::{FcoeFault, FcoeFrame, read_fcoe};
use fip_codec::{FipMessage, read_fip};

/// A frame as it was decoded.
#[derive(Debug, Drop)]
pub enum What<'a> {
    /// It can't be read, for this fault.
    Bad(Unreadable),
    /// A message of FIP.
    Fip {
        eth: EthFrame<'a>,
        message: FipMessage<'a>,
    },
    /// A body of FCoE, read or with the fault of it.
    Fcoe {
        eth: EthFrame<'a>,
        read: Result<FcoeFrame<'a>, FcoeFault>,
    },
}

/// A captured frame with its decoding.
#[derive(Debug, Drop)]
pub struct Heard<'a> {
    pub caught: &'a Caught,
    pub what: What<'a>,
    ghost decoded: { view what ≡ decoded caught.now },
}

/// A captured frame is decoded: its Ethernet header, and then the body by its Ethertype.
pub fn hear(caught: &Caught) -> Heard<'_>
    ensures caught { result.caught.now ≡ caught.now }
    ensures bytes { AllPass (λ b. nat_lt b 256) caught.now.bytes }
{
    let what = what_of(caught);
    Heard { caught, what }
}

#[tactic(auto, unfolding(crate::specs::Heard::decoded))]
fn what_of(caught: &Caught) -> What<'_>
    ensures value { view result ≡ decoded caught.now }
    ensures bytes { AllPass (λ b. nat_lt b 256) caught.now.bytes }
{
    let bytes = caught.bytes.view();
    if !caught.whole {
        return What::Bad(Unreadable::Truncated);
    }
    match read_eth(bytes) {
        Ok(eth) => what_in(&eth),
        Err(_) => What::Bad(Unreadable::EthShort),
    }
}

// What a frame carries, by its Ethertype.
fn what_in<'a>(eth: &EthFrame<'a>) -> What<'a>
    ensures { view result ≡ frame_in (eth_view eth.now) }
{
    if eth.kind == FIP {
        return fip_in(eth);
    }
    if eth.kind == FCOE {
        let read = read_fcoe(eth.body);
        return What::Fcoe {
            eth: same_frame(eth),
            read,
        };
    }
    What::Bad(Unreadable::Ethertype)
}

fn fip_in<'a>(eth: &EthFrame<'a>) -> What<'a>
    ensures { view result ≡ spec.fip_in (eth_view eth.now) }
{
    match read_fip(eth.body) {
        Ok(message) => What::Fip {
            eth: same_frame(eth),
            message,
        },
        Err(fault) => What::Bad(Unreadable::Fip(fault)),
    }
}

// The frame again, part by part.
fn same_frame<'a>(eth: &EthFrame<'a>) -> EthFrame<'a>
    ensures { eth_view result ≡ eth_view eth.now }
{
    EthFrame {
        dst: eth.dst,
        src: eth.src,
        tag: eth.tag,
        kind: eth.kind,
        body: eth.body,
    }
}
