//! From bytes to a frame.
ghost use Rattle.std.specs.Prelude.{◌≡◌, ◌≢◌, ◌+◌, ◌-◌, ◌%◌, ◌≤◌};
ghost use Rattle.std.specs.Prelude.{MatchResult, IfOk, IfErr, OnOk, Ok, Err, length};
ghost use Rattle.fab_base.specs.Layout.{field, little_endian};
ghost use Rattle.fc_check.specs.Crc.{crc};
ghost use Rattle.fc_frames.specs.Frame as fc;
ghost use Rattle.fcoe_codec.specs.declared.FcoeFault.TheVariants.{Crc};
ghost use Rattle.fcoe_codec.specs.Fcoe as spec;

use crate::delimiters::{is_eof, is_sof};
use crate::{FcoeFault, FcoeFrame, HEADER_AT, LEAST, MOST, SOF_AT, TAIL};
use fc_check::crc32;
use fc_frames::{FcFrame, read_frame};

/// The frame in this body. Reserved bytes are not looked at.
#[tactic(auto, unfolding(crate::specs::Fcoe::decoded))]
pub fn read_fcoe(body: &[u8]) -> Result<FcoeFrame<'_>, FcoeFault>
    ensures exact { MatchResult result (λ f. spec.decoded body.now ≡ Ok (spec.view f))
        (λ e. spec.decoded body.now ≡ Err e) }
    ensures layout { IfOk result (λ f. spec.IsFcoe (spec.view f) body.now) }
{
    if body.len() < LEAST || body.len() > MOST || body.len() % 4 != 2 {
        return Err(FcoeFault::Length);
    }
    if body[0] / 16 != 0 {
        return Err(FcoeFault::Version);
    }
    let sof = body[SOF_AT];
    if !is_sof(sof) {
        return Err(FcoeFault::Sof);
    }
    let eof = body[body.len() - 4];
    if !is_eof(eof) {
        return Err(FcoeFault::Eof);
    }
    let covered = covered(body);
    test_crc(covered, check_at(body, body.len() - TAIL))?;
    Ok(FcoeFrame {
        sof,
        eof,
        frame: frame_in(covered),
    })
}

/// The header and the payload.
fn covered(body: &[u8]) -> &[u8]
    requires { 46 ≤ length body.now }
    ensures { result.now ≡ spec.covered body.now }
{
    &body[HEADER_AT..body.len() - TAIL]
}

fn check_at(body: &[u8], at: usize) -> u32
    requires { at + 4 ≤ length body.now }
    ensures { result ≡ little_endian (field body.now at 4) }
{
    u32::from_le_bytes([body[at], body[at + 1], body[at + 2], body[at + 3]])
}

fn test_crc(covered: &[u8], found: u32) -> Result<(), FcoeFault>
    ensures ok { OnOk result (found ≡ crc covered.now) }
    ensures err { IfErr result (λ e. (e ≡ Crc found (crc covered.now))
        × (found ≢ crc covered.now)) }
{
    let made = crc32(covered);
    if found != made {
        return Err(FcoeFault::Crc { found, made });
    }
    Ok(())
}

/// The frame of these bytes, whose length was tested.
fn frame_in(covered: &[u8]) -> FcFrame<'_>
    requires least { 24 ≤ length covered.now }
    requires most { length covered.now ≤ 2136 }
    requires words { length covered.now % 4 ≡ 0 }
    ensures value { fc.view result ≡ spec.frame_in covered.now }
    ensures layout { fc.IsFrame (fc.view result) covered.now }
{
    match read_frame(covered) {
        Ok(frame) => frame,
        Err(_) => unreachable!(),
    }
}
