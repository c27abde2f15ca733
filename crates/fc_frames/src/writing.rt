//! From a frame to bytes.
ghost use Rattle.std.specs.Prelude.{◌≡◌, ◌<◌, ◌≤◌, ◌+◌, ◌++◌};
ghost use Rattle.std.specs.Prelude.{length, OnOk, OnErr, vec_len, vec_capacity};
ghost use Rattle.fc_frames.specs.Frame.{IsPayload, frame_bytes, header_bytes, view};

use crate::{FcFrame, FcHeader, HEADER};
use fab_base::{NoMemory, append_reserved};
use std::alloc::Global;

/// Appends the header and the payload. Where memory is refused, `out` is as it was.
pub fn write_frame(_alloc: Global, frame: &FcFrame<'_>, out: &mut Vec<u8>) -> Result<(), NoMemory>
    requires { IsPayload frame.now.payload.now }
    ensures ok { OnOk result (out.new.items ≡ out.old.items ++ frame_bytes (view frame.now)) }
    ensures size { OnOk result (length (frame_bytes (view frame.now))
        ≡ 24 + length frame.now.payload.now) }
    ensures err { OnErr result (out.new.items ≡ out.old.items) }
    ensures grows { OnOk result (vec_len out.new ≡ vec_len out.old +
        (24 + length frame.now.payload.now)) }
    ensures room { vec_capacity out.old ≤ vec_capacity out.new }
    ensures full { OnErr result (vec_capacity out.old < vec_len out.old +
        (24 + length frame.now.payload.now)) }
{
    let head = header(&frame.head);
    out.reserve(HEADER + frame.payload.len())?;
    append_reserved(out, &head);
    append_reserved(out, frame.payload);
    Ok(())
}

fn header(head: &FcHeader) -> [u8; 24]
    ensures { result ≡ header_bytes head.now }
{
    let [_, d0, d1, d2] = head.d_id.value().to_be_bytes();
    let [_, s0, s1, s2] = head.s_id.value().to_be_bytes();
    let [_, f0, f1, f2] = head.f_ctl.to_be_bytes();
    let [cnt0, cnt1] = head.seq_cnt.to_be_bytes();
    let [ox0, ox1] = head.ox_id.to_be_bytes();
    let [rx0, rx1] = head.rx_id.to_be_bytes();
    let [p0, p1, p2, p3] = head.parameter.to_be_bytes();
    [
        head.r_ctl,
        d0,
        d1,
        d2,
        head.cs_ctl,
        s0,
        s1,
        s2,
        head.kind,
        f0,
        f1,
        f2,
        head.seq_id,
        head.df_ctl,
        cnt0,
        cnt1,
        ox0,
        ox1,
        rx0,
        rx1,
        p0,
        p1,
        p2,
        p3,
    ]
}
