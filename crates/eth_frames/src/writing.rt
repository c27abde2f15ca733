//! From a frame to bytes.
ghost use Rattle.std.specs.Prelude.{◌≡◌, ◌≢◌, ◌≤◌, ◌+◌, ◌++◌};
ghost use Rattle.std.specs.Prelude.{None, length, OnOk, OnErr};
ghost use Rattle.arrayvec.specs.ArrayVec.{array_vec_len};
ghost use Rattle.eth_frames.specs.Ethernet.{view, head_bytes, written};

use crate::{EthFrame, LEAST, TAGGED};
use arrayvec::ArrayVec;
use fab_base::{NoMemory, append_reserved, put};
use std::alloc::Global;

/// Appends the frame, and zeros until it has 60 bytes. Where memory is refused, `out` is as it was.
pub fn write_eth(_alloc: Global, frame: &EthFrame<'_>, out: &mut Vec<u8>) -> Result<(), NoMemory>
    requires { frame.now.tag ≡ None → frame.now.kind ≢ 0x8100 }
    ensures ok { OnOk result (out.new.items ≡ out.old.items ++ written (view frame.now)) }
    ensures size { OnOk result (length (written (view frame.now))
        ≤ 60 + length frame.now.body.now) }
    ensures err { OnErr result (out.new.items ≡ out.old.items) }
{
    let head = head_of(frame);
    let len = head.len() + frame.body.len();
    let pad = LEAST.saturating_sub(len);
    out.reserve(len + pad)?;
    append_reserved(out, &head);
    append_reserved(out, frame.body);
    append_reserved(out, &[0; LEAST][..pad]);
    Ok(())
}

/// What stands before the body: addresses, tag and Ethertype.
fn head_of(frame: &EthFrame<'_>) -> ArrayVec<u8, 18>
    ensures bytes { result.items ≡ head_bytes (view frame.now) }
    ensures size { array_vec_len result ≤ 18 }
{
    let mut head = ArrayVec::new();
    put(&mut head, &frame.dst.0);
    put(&mut head, &frame.src.0);
    if let Some(tag) = frame.tag {
        put(&mut head, &TAGGED.to_be_bytes());
        put(&mut head, &tag.to_be_bytes());
    }
    put(&mut head, &frame.kind.to_be_bytes());
    head
}
