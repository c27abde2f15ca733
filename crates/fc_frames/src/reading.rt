//! From bytes to a frame.
ghost use Rattle.std.specs.Prelude.{◌≡◌, MatchResult, IfOk, Ok, Err, ◌≤◌, length};
ghost use Rattle.fc_frames.specs.Frame.{IsFrame, decoded, header_of, view};

use crate::{FcFault, FcFrame, FcHeader, HEADER, MOST};
use fab_base::fields::{address_at, u16_at, u24_at, u32_at};

/// The frame that these bytes are.
#[tactic(auto, unfolding(crate::specs::Frame::decoded))]
pub fn read_frame(bytes: &[u8]) -> Result<FcFrame<'_>, FcFault>
    ensures exact { MatchResult result (λ f. decoded bytes.now ≡ Ok (view f))
        (λ e. decoded bytes.now ≡ Err e) }
    ensures layout { IfOk result (λ f. IsFrame (view f) bytes.now) }
{
    if bytes.len() < HEADER {
        return Err(FcFault::Short);
    }
    if bytes.len() % 4 != 0 {
        return Err(FcFault::Odd);
    }
    if bytes.len() - HEADER > MOST {
        return Err(FcFault::Long);
    }
    Ok(FcFrame {
        head: header_at(bytes),
        payload: &bytes[HEADER..],
    })
}

fn header_at(bytes: &[u8]) -> FcHeader
    requires { 24 ≤ length bytes.now }
    ensures { result ≡ header_of bytes.now }
{
    FcHeader {
        r_ctl: bytes[0],
        d_id: address_at(bytes, 1),
        cs_ctl: bytes[4],
        s_id: address_at(bytes, 5),
        kind: bytes[8],
        f_ctl: u24_at(bytes, 9),
        seq_id: bytes[12],
        df_ctl: bytes[13],
        seq_cnt: u16_at(bytes, 14),
        ox_id: u16_at(bytes, 16),
        rx_id: u16_at(bytes, 18),
        parameter: u32_at(bytes, 20),
    }
}
