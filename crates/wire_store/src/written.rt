//! Writing a pcapng stream to a buffer.
ghost use Rattle.std.specs.Prelude.{◌≡◌, ◌≤◌, ◌+◌, ◌++◌, length, IfOk, OnOk, OnErr};
ghost use Rattle.fab_base.specs.Layout.{zeros};
ghost use Rattle.pcapng_file.specs.Block.{padded};
ghost use Rattle.wire_store.specs.Written.{stream_head, faces_bytes, block_bytes};

use crate::Heard;
use fab_base::{NoMemory, append_made};
use std::alloc::{AllocError, Global};

const SECTION: [u8; 28] = [
    0x0a, 0x0d, 0x0d, 0x0a, 28, 0, 0, 0, 0x4d, 0x3c, 0x2b, 0x1a, 1, 0, 0, 0, 0xff, 0xff, 0xff,
    0xff, 0xff, 0xff, 0xff, 0xff, 28, 0, 0, 0,
];

const FACE: [u8; 32] = [
    1, 0, 0, 0, 32, 0, 0, 0, 1, 0, 0, 0, 0, 0, 0, 0, 9, 0, 1, 0, 9, 0, 0, 0, 0, 0, 0, 0, 32, 0, 0,
    0,
];

/// Appends the head of a stream of so many ports, or nothing where memory is refused.
pub fn add_head(alloc: Global, ports: u32, out: &mut Vec<u8>) -> Result<(), NoMemory>
    ensures ok { OnOk result (out.new.items ≡ out.old.items ++ stream_head ports) }
    ensures err { OnErr result (out.new.items ≡ out.old.items) }
{
    append_made(alloc, head(alloc, ports), out)
}

#[tactic(auto, using(crate::proofs::HeadLemmas::head_more))]
fn head(alloc: Global, ports: u32) -> Result<Vec<u8>, AllocError>
    ensures { IfOk result (λ v. v.items ≡ stream_head ports) }
{
    let mut made = Vec::new(alloc);
    made.extend_from_slice(&SECTION)?;
    for _ in 0..ports {
        made.extend_from_slice(&FACE)?;
    }
    Ok(made)
}

/// Appends the block of a frame, or nothing where memory is refused.
pub fn add_block(alloc: Global, heard: &Heard, out: &mut Vec<u8>) -> Result<(), NoMemory>
    requires { length heard.now.frame ≤ 65535 }
    ensures ok { OnOk result (out.new.items ≡ out.old.items ++ block_bytes heard.now) }
    ensures err { OnErr result (out.new.items ≡ out.old.items) }
{
    append_made(alloc, block(alloc, heard), out)
}

fn block(alloc: Global, heard: &Heard) -> Result<Vec<u8>, AllocError>
    requires { length heard.now.frame ≤ 65535 }
    ensures { IfOk result (λ v. v.items ≡ block_bytes heard.now) }
{
    let bytes = heard.frame.view();
    let stored = bytes.len() as u32;
    let padded = padded(stored);
    let size = 32 + padded;
    let high = heard.nanos / (1 << 32);
    let low = heard.nanos % (1 << 32);
    let mut made = Vec::new(alloc);
    made.extend_from_slice(&6u32.to_le_bytes())?;
    made.extend_from_slice(&size.to_le_bytes())?;
    made.extend_from_slice(&heard.face.to_le_bytes())?;
    made.extend_from_slice(&high.to_le_bytes()[..4])?;
    made.extend_from_slice(&low.to_le_bytes()[..4])?;
    made.extend_from_slice(&stored.to_le_bytes())?;
    made.extend_from_slice(&stored.to_le_bytes())?;
    made.extend_from_slice(bytes)?;
    fill(alloc, (padded - stored) as usize, &mut made)?;
    made.extend_from_slice(&size.to_le_bytes())?;
    Ok(made)
}

// Appends so many zeros.
#[tactic(auto, using(crate::proofs::HeadLemmas::take_zeros))]
fn fill(_alloc: Global, count: usize, out: &mut Vec<u8>) -> Result<(), AllocError>
    requires { count ≤ 3 }
    ensures { OnOk result (out.new.items ≡ out.old.items ++ zeros count) }
{
    let none = [0u8; 3];
    out.extend_from_slice(&none[..count])?;
    Ok(())
}

// The least multiple of 4 that isn't below it.
fn padded(len: u32) -> u32
    requires { len ≤ 65535 }
    ensures value { result ≡ padded len }
    ensures least { len ≤ result }
    ensures most { result ≤ len + 3 }
{
    (len + 3) / 4 * 4
}
