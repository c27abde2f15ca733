//! Writing a capture to a buffer: little-endian, in microseconds, version 2.4.
ghost use Rattle.std.specs.Prelude.{◌≡◌, ◌≤◌, ◌<◌, ◌+◌, ◌^◌, ◌++◌, length, OnOk, OnErr};
ghost use Rattle.arrayvec.specs.ArrayVec.{array_vec_len};
ghost use Rattle.pcap_file.specs.Capture.{head_bytes, record_front, record_bytes};

use crate::head::{LAST_SECOND, RECORD_HEAD};
use arrayvec::ArrayVec;
use fab_base::{Moment, NoMemory, put};
use std::alloc::Global;

const HEAD_BYTES: [u8; 24] = [
    0xd4, 0xc3, 0xb2, 0xa1, 2, 0, 4, 0, 0, 0, 0, 0, 0, 0, 0, 0, 0xff, 0xff, 0, 0, 1, 0, 0, 0,
];

/// Appends the head of a capture, 24 bytes. Where memory is refused nothing is appended.
pub fn write_head(_alloc: Global, out: &mut Vec<u8>) -> Result<(), NoMemory>
    ensures ok { OnOk result (out.new.items ≡ out.old.items ++ head_bytes) }
    ensures err { OnErr result (out.new.items ≡ out.old.items) }
{
    out.extend_from_slice(&HEAD_BYTES)?;
    Ok(())
}

/// Appends a record, 16 bytes and the frame. Where memory is refused nothing is appended.
pub fn write_record(
    _alloc: Global,
    moment: Moment,
    bytes: &[u8],
    out: &mut Vec<u8>,
) -> Result<(), NoMemory>
    requires moment { moment < 2 ^ 53 }
    requires bytes { length bytes.now ≤ 65535 }
    ensures ok { OnOk result (out.new.items ≡ out.old.items ++ record_bytes moment bytes.now) }
    ensures err { OnErr result (out.new.items ≡ out.old.items) }
{
    let head = record_head(moment, bytes.len() as u32);
    out.reserve(RECORD_HEAD + bytes.len())?;
    out.extend_from_slice(head.as_slice())?;
    out.extend_from_slice(bytes)?;
    Ok(())
}

// What stands before the bytes of a record: seconds, microseconds, and both lengths.
fn record_head(moment: Moment, len: u32) -> ArrayVec<u8, RECORD_HEAD>
    requires { moment < 2 ^ 53 }
    ensures bytes { result.items ≡ record_front moment len }
    ensures size { array_vec_len result ≡ 16 }
{
    let seconds = (moment.0 / 1000).min(LAST_SECOND);
    let micros = (moment.0 - seconds * 1000) * 1000;
    let mut head = ArrayVec::new();
    put(&mut head, &seconds.to_le_bytes()[..4]);
    put(&mut head, &micros.to_le_bytes()[..4]);
    put(&mut head, &len.to_le_bytes());
    put(&mut head, &len.to_le_bytes());
    head
}
