//! Frames of Ethernet (802.1Q) and of FC (FC-FS-3, FC-BB-5): read, and written as they were read.
use crate::{ct, els, fip, keys};
use case_lines::{number_of, put, word_at};
use eth_frames::{EthFrame, read_eth, write_eth};
use fab_base::NoMemory;
use fc_frames::{FcFrame, FcHeader, Piece, pieces, read_frame, write_frame};
use fcoe_codec::{FcoeFrame, read_fcoe, write_fcoe};
use std::alloc::{AllocError, Global};

pub(crate) fn eth(alloc: Global, bytes: &[u8], out: &mut Vec<u8>) -> Result<(), AllocError> {
    match read_eth(bytes) {
        Ok(frame) => {
            say_eth(&frame, out)?;
            let mut made = Vec::new(alloc);
            let _ = write_again(alloc, &frame, &mut made);
            keys::written(out, bytes, &made)
        }
        Err(why) => keys::fault(alloc, out, why),
    }
}

fn say_eth(frame: &EthFrame<'_>, out: &mut Vec<u8>) -> Result<(), AllocError> {
    keys::mac(out, b"eth dst=", &frame.dst)?;
    keys::mac(out, b" src=", &frame.src)?;
    if let Some(tag) = frame.tag {
        keys::bytes(out, b" tag=", &tag.to_be_bytes())?;
    }
    keys::number(out, b" vlan=", u64::from(frame.vlan()))?;
    keys::bytes(out, b" type=", &frame.kind.to_be_bytes())?;
    keys::bytes(out, b" body=", frame.body)
}

fn write_again(alloc: Global, frame: &EthFrame<'_>, made: &mut Vec<u8>) -> Result<(), NoMemory> {
    if frame.tag.is_none() && frame.kind == 0x8100 {
        return Ok(());
    }
    write_eth(alloc, frame, made)
}

pub(crate) fn fc(alloc: Global, bytes: &[u8], out: &mut Vec<u8>) -> Result<(), AllocError> {
    match read_frame(bytes) {
        Ok(frame) => {
            put(out, b"fc")?;
            say_frame(&frame, out)?;
            let mut made = Vec::new(alloc);
            let _ = write_frame(alloc, &frame, &mut made);
            keys::written(out, bytes, &made)
        }
        Err(why) => keys::fault(alloc, out, why),
    }
}

fn say_frame(frame: &FcFrame<'_>, out: &mut Vec<u8>) -> Result<(), AllocError> {
    let head = &frame.head;
    keys::bytes(out, b" r-ctl=", &[head.r_ctl])?;
    keys::address(out, b" d-id=", &head.d_id)?;
    keys::bytes(out, b" cs-ctl=", &[head.cs_ctl])?;
    keys::address(out, b" s-id=", &head.s_id)?;
    keys::bytes(out, b" type=", &[head.kind])?;
    keys::bytes(out, b" f-ctl=", &head.f_ctl.to_be_bytes()[1..])?;
    say_sequence(head, out)?;
    keys::bytes(out, b" payload=", frame.payload)
}

fn say_sequence(head: &FcHeader, out: &mut Vec<u8>) -> Result<(), AllocError> {
    keys::bytes(out, b" seq-id=", &[head.seq_id])?;
    keys::bytes(out, b" df-ctl=", &[head.df_ctl])?;
    keys::number(out, b" seq-cnt=", u64::from(head.seq_cnt))?;
    keys::bytes(out, b" ox-id=", &head.ox_id.to_be_bytes())?;
    keys::bytes(out, b" rx-id=", &head.rx_id.to_be_bytes())?;
    keys::number(out, b" parameter=", u64::from(head.parameter))
}

pub(crate) fn fcoe(alloc: Global, body: &[u8], out: &mut Vec<u8>) -> Result<(), AllocError> {
    match read_fcoe(body) {
        Ok(read) => {
            keys::bytes(out, b"fcoe sof=", &[read.sof])?;
            keys::bytes(out, b" eof=", &[read.eof])?;
            say_frame(&read.frame, out)?;
            let mut made = Vec::new(alloc);
            let _ = write_fcoe(alloc, &read, &mut made);
            keys::written(out, body, &made)
        }
        Err(why) => keys::fault(alloc, out, why),
    }
}

/// A whole frame: its head, and what is in its body.
pub(crate) fn whole(alloc: Global, bytes: &[u8], out: &mut Vec<u8>) -> Result<(), AllocError> {
    eth(alloc, bytes, out)?;
    match read_eth(bytes) {
        Ok(frame) => body_of(alloc, &frame, out),
        Err(_) => Ok(()),
    }
}

fn body_of(alloc: Global, frame: &EthFrame<'_>, out: &mut Vec<u8>) -> Result<(), AllocError> {
    match frame.kind {
        0x8914 => fip::fip(alloc, frame.body, out),
        0x8906 => body_of_fcoe(alloc, frame.body, out),
        _ => Ok(()),
    }
}

fn body_of_fcoe(alloc: Global, body: &[u8], out: &mut Vec<u8>) -> Result<(), AllocError> {
    fcoe(alloc, body, out)?;
    match read_fcoe(body) {
        Ok(read) => payload_of(alloc, &read, out),
        Err(_) => Ok(()),
    }
}

// The payload of a link service, or of a request to the name server.
fn payload_of(alloc: Global, read: &FcoeFrame<'_>, out: &mut Vec<u8>) -> Result<(), AllocError> {
    let head = &read.frame.head;
    match (head.r_ctl, head.kind) {
        (0x22 | 0x23, 1) => els::els(alloc, read.frame.payload, out),
        (2, 0x20) => ct::ct(alloc, read.frame.payload, out),
        _ => Ok(()),
    }
}

/// The pieces of a payload of so many bytes, of at most so many bytes each.
pub(crate) fn cut(alloc: Global, line: &[u8], out: &mut Vec<u8>) -> Result<(), AllocError> {
    let length = number_of(word_at(line, 1)).unwrap_or(0) as usize;
    let size = number_of(word_at(line, 2)).unwrap_or(0) as usize;
    if length < 4 || length > 1_048_576 || length % 4 != 0 {
        return put(out, b"refused length\n");
    }
    if size < 256 || size > 2112 || size % 4 != 0 {
        return put(out, b"refused size\n");
    }
    match pieces(alloc, length, size) {
        Ok(list) => say_pieces(&list, out),
        Err(NoMemory) => Err(AllocError),
    }
}

fn say_pieces(list: &[Piece], out: &mut Vec<u8>) -> Result<(), AllocError> {
    put(out, b"pieces")?;
    for piece in list {
        keys::number(out, b" ", piece.from as u64)?;
        keys::number(out, b"-", piece.to as u64)?;
        put(out, if piece.last { b",last" } else { b"" })?;
    }
    put(out, b"\n")
}
