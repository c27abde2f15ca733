//! From a frame to bytes.
ghost use Rattle.std.specs.Prelude.{◌≡◌, ◌≤◌, ◌+◌, ◌++◌, [], ◌∷◌};
ghost use Rattle.std.specs.Prelude.{IsTrue, length, drop, IfOk, OnOk, OnErr, vec_len};
ghost use Rattle.fab_base.specs.Layout.{zeros};
ghost use Rattle.fc_check.specs.Crc.{crc, crc_bytes as check_bytes};
ghost use Rattle.fc_frames.specs.Frame as fc;
ghost use Rattle.fcoe_codec.specs.Fcoe as spec;

use crate::{FcoeFrame, HEADER_AT, LEAST, SOF_AT};
use fab_base::{NoMemory, append_reserved};
use fc_check::{crc_bytes, crc32};
use fc_frames::write_frame;
use std::alloc::Global;

/// Appends the body with its CRC; reserved bytes are 0. Where memory is refused, `out` is as it
/// was.
pub fn write_fcoe(alloc: Global, frame: &FcoeFrame<'_>, out: &mut Vec<u8>) -> Result<(), NoMemory>
    requires sof { IsTrue (spec.is_sof frame.now.sof) }
    requires eof { IsTrue (spec.is_eof frame.now.eof) }
    requires payload { fc.IsPayload frame.now.frame.payload.now }
    ensures ok { OnOk result (out.new.items ≡ out.old.items ++ spec.written (spec.view frame.now)) }
    ensures size { OnOk result (length (spec.written (spec.view frame.now))
        ≡ 46 + length frame.now.frame.payload.now) }
    ensures err { OnErr result (out.new.items ≡ out.old.items) }
{
    out.reserve(LEAST + frame.frame.payload.len())?;
    append_reserved(out, &start_with(frame.sof));
    let from = out.len();
    write_frame(alloc, &frame.frame, out).unwrap();
    let check = check_of(out, from);
    append_reserved(out, &check);
    append_reserved(out, &[frame.eof, 0, 0, 0]);
    Ok(())
}

/// The bytes of the body alone.
pub fn fcoe_bytes(alloc: Global, frame: &FcoeFrame<'_>) -> Result<Vec<u8>, NoMemory>
    requires sof { IsTrue (spec.is_sof frame.now.sof) }
    requires eof { IsTrue (spec.is_eof frame.now.eof) }
    requires payload { fc.IsPayload frame.now.frame.payload.now }
    ensures bytes { IfOk result (λ v. v.items ≡ spec.written (spec.view frame.now)) }
    ensures size { IfOk result (λ v. vec_len v ≡ 46 + length frame.now.frame.payload.now) }
{
    let mut body = Vec::new(alloc);
    write_fcoe(alloc, frame, &mut body)?;
    Ok(body)
}

/// Version 0, reserved bytes, and the code of the start.
fn start_with(sof: u8) -> [u8; HEADER_AT]
    ensures { result ≡ zeros 13 ++ sof ∷ [] }
{
    let mut start = [0; HEADER_AT];
    start[SOF_AT] = sof;
    start
}

/// The CRC of the bytes from this place on.
fn check_of(out: &[u8], from: usize) -> [u8; 4]
    requires { from ≤ length out.now }
    ensures { result ≡ check_bytes (crc (drop from out.now)) }
{
    crc_bytes(crc32(&out[from..]))
}
