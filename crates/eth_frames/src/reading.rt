//! From bytes to a frame.
ghost use Rattle.std.specs.Prelude.{◌≡◌, MatchResult, IfOk, Ok, Err};
ghost use Rattle.eth_frames.specs.Ethernet.{decoded, view, IsEth};

use crate::{EthFault, EthFrame, TAGGED};
use fab_base::fields::{mac_at, u16_at};

/// The frame that these bytes are. One tag is read; the Ethertype of a second tag is the kind.
#[tactic(auto, unfolding(crate::specs::Ethernet::decoded))]
pub fn read_eth(bytes: &[u8]) -> Result<EthFrame<'_>, EthFault>
    ensures exact { MatchResult result
        (λ f. decoded bytes.now ≡ Ok (view f))
        (λ e. decoded bytes.now ≡ Err e) }
    ensures layout { IfOk result (λ f. IsEth (view f) bytes.now) }
{
    if bytes.len() < 14 {
        return Err(EthFault::Short);
    }
    let dst = mac_at(bytes, 0);
    let src = mac_at(bytes, 6);
    let first = u16_at(bytes, 12);
    if first != TAGGED {
        return Ok(EthFrame {
            dst,
            src,
            tag: None,
            kind: first,
            body: &bytes[14..],
        });
    }
    if bytes.len() < 18 {
        return Err(EthFault::Short);
    }
    Ok(EthFrame {
        dst,
        src,
        tag: Some(u16_at(bytes, 14)),
        kind: u16_at(bytes, 16),
        body: &bytes[18..],
    })
}
