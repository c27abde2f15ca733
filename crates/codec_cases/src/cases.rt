//! Which call a case makes.
use crate::{captures, config, ct, els, fip, frames, tell, values};
use case_lines::{bytes_of, is_remark, next_line, number_of, put, put_line, word_at};
use std::alloc::{AllocError, Global};

/// Answers each case of a text behind its line. Remarks are copied.
pub(crate) fn answer_all(alloc: Global, text: &[u8], out: &mut Vec<u8>) -> Result<(), AllocError> {
    let mut held = Vec::new(alloc);
    let mut rest = text;
    while let Some((line, behind)) = next_line(rest) {
        put_line(out, line)?;
        if !is_remark(line) {
            answer(alloc, line, &mut held, out)?;
        }
        rest = behind;
    }
    Ok(())
}

// A line that adds to the bytes that are held, or one that is answered over them.
fn answer(
    alloc: Global,
    line: &[u8],
    held: &mut Vec<u8>,
    out: &mut Vec<u8>,
) -> Result<(), AllocError> {
    if is_added(alloc, line, held)? {
        return Ok(());
    }
    add_bytes(alloc, line, held)?;
    call(alloc, line, held, out)?;
    held.clear();
    Ok(())
}

fn is_added(alloc: Global, line: &[u8], held: &mut Vec<u8>) -> Result<bool, AllocError> {
    match word_at(line, 0) {
        b"text" => put_line(held, behind(line, 5))?,
        b"hex" => add_bytes(alloc, line, held)?,
        b"fill" => fill(alloc, line, held)?,
        b"each" => each(line, held)?,
        b"capture" => captures::add_record(alloc, line, held)?,
        _ => return Ok(false),
    }
    Ok(true)
}

// What stands behind so many bytes of a line.
fn behind(line: &[u8], count: usize) -> &[u8] {
    line.get(count..).unwrap_or(&[])
}

// Adds the bytes of the second word, where they are some.
fn add_bytes(alloc: Global, line: &[u8], held: &mut Vec<u8>) -> Result<(), AllocError> {
    match bytes_of(alloc, word_at(line, 1)) {
        Ok(bytes) => put(held, &bytes),
        Err(_) => Ok(()),
    }
}

// Adds the bytes of the third word as often as the second says.
fn fill(alloc: Global, line: &[u8], held: &mut Vec<u8>) -> Result<(), AllocError> {
    let count = number_of(word_at(line, 1)).unwrap_or(0);
    match bytes_of(alloc, word_at(line, 2)) {
        Ok(bytes) => put_often(held, &bytes, count),
        Err(_) => Ok(()),
    }
}

fn put_often(held: &mut Vec<u8>, bytes: &[u8], count: u64) -> Result<(), AllocError> {
    for _ in 0..count {
        put(held, bytes)?;
    }
    Ok(())
}

// Adds so many lines, in which the sign % is replaced by 0, 1 and so on.
fn each(line: &[u8], held: &mut Vec<u8>) -> Result<(), AllocError> {
    let word = word_at(line, 1);
    let count = number_of(word).unwrap_or(0);
    let text = behind(line, 6);
    let text = behind(text, word.len());
    for index in 0..count {
        put_numbered(held, text, index)?;
    }
    Ok(())
}

fn put_numbered(held: &mut Vec<u8>, text: &[u8], index: u64) -> Result<(), AllocError> {
    for byte in text {
        if *byte == b'%' {
            case_lines::put_number(held, index)?;
        } else {
            held.push(*byte)?;
        }
    }
    put(held, b"\n")
}

fn call(alloc: Global, line: &[u8], held: &[u8], out: &mut Vec<u8>) -> Result<(), AllocError> {
    match word_at(line, 0) {
        b"eth" => frames::eth(alloc, held, out),
        b"fc" => frames::fc(alloc, held, out),
        b"fcoe" => frames::fcoe(alloc, held, out),
        b"fip" => fip::fip(alloc, held, out),
        b"els" => els::els(alloc, held, out),
        b"ct" => ct::ct(alloc, held, out),
        b"config" => config::config(alloc, held, out),
        _ => call_more(alloc, line, held, out),
    }
}

fn call_more(alloc: Global, line: &[u8], held: &[u8], out: &mut Vec<u8>) -> Result<(), AllocError> {
    match word_at(line, 0) {
        b"pcap-head" => captures::head(alloc, held, out),
        b"pcap" | b"pcapng" => captures::all(alloc, line, held, out),
        b"stream" => captures::stream(alloc, line, held, out),
        b"frame" => frames::whole(alloc, held, out),
        b"pieces" => frames::cut(alloc, line, out),
        b"tell" => tell::tell(alloc, line, out),
        _ => values::value(line, held, out),
    }
}
