//! Files that are written down piece by piece.
//!
//! | Piece | It is |
//! |---|---|
//! | `\| TEXT` | a line of text |
//! | `.` | nothing, and the line feed before it is taken back |
//! | `@ SECONDS MICROS HEX [+N]` | a record of a capture, with N zero bytes behind its digits |
//! | `= HEX [+N]` | bytes |
//! | `< NAME [FROM TO]` | the bytes of an earlier file, or those from a place to another |
//! | `* N NAME` | an earlier file, so many times |
//! | `! AT HEX` | the byte at that place is changed |

use crate::lines::{Fault, number, place, put_digits, put_zeros, small};
use case_lines::put_line;
use fab_base::MemDepot;
use std::alloc::Global;

/// The head of a capture: least significant byte first, microseconds, Ethernet.
pub(crate) const HEAD: [u8; 24] = [
    0xd4, 0xc3, 0xb2, 0xa1, 2, 0, 4, 0, 0, 0, 0, 0, 0, 0, 0, 0, 255, 255, 0, 0, 1, 0, 0, 0,
];

/// One piece more.
pub(crate) fn put_piece(
    alloc: Global,
    bytes: &mut Vec<u8>,
    shelf: &MemDepot,
    piece: &str,
) -> Result<(), Fault> {
    if let Some(text) = piece.strip_prefix("| ") {
        return put_text(bytes, text);
    }
    if let Some(words) = piece.strip_prefix("@ ") {
        return put_record(alloc, bytes, words);
    }
    if let Some(words) = piece.strip_prefix("= ") {
        return put_bytes(alloc, bytes, words);
    }
    put_other(bytes, shelf, piece)
}

// A piece that isn't spelled out.
fn put_other(bytes: &mut Vec<u8>, shelf: &MemDepot, piece: &str) -> Result<(), Fault> {
    if let Some(words) = piece.strip_prefix("< ") {
        return put_part(bytes, shelf, words);
    }
    if let Some(words) = piece.strip_prefix("* ") {
        return put_times(bytes, shelf, words);
    }
    if let Some(words) = piece.strip_prefix("! ") {
        return change(bytes, words);
    }
    match piece {
        "|" => put_text(bytes, ""),
        "." => {
            let _ = bytes.pop();
            Ok(())
        }
        _ => Err(Fault::Line),
    }
}

fn put_text(bytes: &mut Vec<u8>, text: &str) -> Result<(), Fault> {
    Ok(put_line(bytes, text.as_bytes())?)
}

// A record, of which all was captured.
fn put_record(alloc: Global, bytes: &mut Vec<u8>, words: &str) -> Result<(), Fault> {
    let mut words = words.split_whitespace();
    let seconds = small(words.next())?;
    let micros = small(words.next())?;
    let digits = words.next().unwrap_or("-");
    let zeros = zeros(words.next())?;
    let length = length_of(digits).wrapping_add(zeros);
    for number in [seconds, micros, length, length] {
        bytes.extend_from_slice(&number.to_le_bytes())?;
    }
    put_digits(alloc, bytes, digits)?;
    put_zeros(bytes, zeros)
}

// How many bytes digits write.
fn length_of(digits: &str) -> u32 {
    match u32::try_from(digits.len() / 2) {
        Ok(length) => length,
        Err(_) => 0,
    }
}

fn put_bytes(alloc: Global, bytes: &mut Vec<u8>, words: &str) -> Result<(), Fault> {
    let mut words = words.split_whitespace();
    put_digits(alloc, bytes, words.next().unwrap_or("-"))?;
    put_zeros(bytes, zeros(words.next())?)
}

// The number behind a plus; 0 without a word.
fn zeros(word: Option<&str>) -> Result<u32, Fault> {
    match word {
        Some(word) => small(word.strip_prefix("+")),
        None => Ok(0),
    }
}

fn put_part(bytes: &mut Vec<u8>, shelf: &MemDepot, words: &str) -> Result<(), Fault> {
    let mut words = words.split_whitespace();
    let file = file_of(shelf, words.next())?;
    let Some(from) = words.next() else {
        bytes.extend_from_slice(file)?;
        return Ok(());
    };
    let (from, to) = (place(Some(from))?, place(words.next())?);
    match file.get(from..to) {
        Some(part) => bytes.extend_from_slice(part)?,
        None => return Err(Fault::Line),
    }
    Ok(())
}

fn put_times(bytes: &mut Vec<u8>, shelf: &MemDepot, words: &str) -> Result<(), Fault> {
    let mut words = words.split_whitespace();
    let count = number(words.next())?;
    let file = file_of(shelf, words.next())?;
    for _ in 0..count {
        bytes.extend_from_slice(file)?;
    }
    Ok(())
}

// An earlier file.
fn file_of<'a>(shelf: &'a MemDepot, name: Option<&str>) -> Result<&'a [u8], Fault> {
    let Some(name) = name else {
        return Err(Fault::Line);
    };
    match shelf.content(name) {
        Some(file) => Ok(file),
        None => Err(Fault::Line),
    }
}

fn change(bytes: &mut Vec<u8>, words: &str) -> Result<(), Fault> {
    let mut words = words.split_whitespace();
    let at = place(words.next())?;
    let Ok(value) = u8::from_str_radix(words.next().unwrap_or(""), 16) else {
        return Err(Fault::Line);
    };
    match bytes.get_mut(at) {
        Some(byte) => *byte = value,
        None => return Err(Fault::Line),
    }
    Ok(())
}
