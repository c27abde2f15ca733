//! Files as they are printed, in the pieces that `pieces` reads.
use crate::lines::Fault;
use crate::pieces::HEAD;
use case_lines::{put, put_hex, put_line, put_number};
use fc_check::crc32;

/// A line of two texts.
pub(crate) fn print(out: &mut Vec<u8>, first: &str, second: &str) -> Result<(), Fault> {
    put(out, first.as_bytes())?;
    put_line(out, second.as_bytes())?;
    Ok(())
}

/// A number between two texts.
fn print_number(out: &mut Vec<u8>, before: &str, number: u64, behind: &str) -> Result<(), Fault> {
    put(out, before.as_bytes())?;
    put_number(out, number)?;
    put(out, behind.as_bytes())?;
    Ok(())
}

/// The status of a command.
pub(crate) fn print_status(out: &mut Vec<u8>, status: u8) -> Result<(), Fault> {
    print_number(out, "status ", u64::from(status), "\n")
}

/// A file: a capture, a text or bytes.
pub(crate) fn print_file(out: &mut Vec<u8>, name: &str, file: Option<&[u8]>) -> Result<(), Fault> {
    let Some(bytes) = file else {
        return print(out, "none ", name);
    };
    if is_capture(bytes) {
        print(out, "capture ", name)?;
        return print_records(out, bytes);
    }
    print(out, "file ", name)?;
    if is_text(bytes) {
        return print_lines(out, " | ", bytes);
    }
    put(out, b" =")?;
    print_bytes(out, bytes)
}

/// The lines of a text, each behind a mark. Where the last one doesn't end a line with a dot says
/// so.
pub(crate) fn print_lines(out: &mut Vec<u8>, mark: &str, text: &[u8]) -> Result<(), Fault> {
    let mut begins = true;
    for byte in text {
        if begins {
            out.extend_from_slice(mark.as_bytes())?;
        }
        out.push(*byte)?;
        begins = *byte == b'\n';
    }
    if !begins {
        out.extend_from_slice(b"\n .\n")?;
    }
    Ok(())
}

/// The length of a file and its check sequence.
pub(crate) fn print_sum(out: &mut Vec<u8>, name: &str, file: Option<&[u8]>) -> Result<(), Fault> {
    let Some(bytes) = file else {
        return print(out, "none ", name);
    };
    put(out, b"sum ")?;
    put(out, name.as_bytes())?;
    print_number(out, " ", bytes.len() as u64, " bytes, CRC ")?;
    put_hex(out, &crc32(bytes).to_be_bytes())?;
    print(out, "", "")
}

/// How much of a file is as in another one.
pub(crate) fn print_front(
    out: &mut Vec<u8>,
    name: &str,
    file: Option<&[u8]>,
    other: &[u8],
) -> Result<(), Fault> {
    let Some(bytes) = file else {
        return print(out, "none ", name);
    };
    if !other.starts_with(bytes) {
        return print(out, "other ", name);
    }
    put(out, b"front ")?;
    put(out, name.as_bytes())?;
    print_number(out, " of ", bytes.len() as u64, "")?;
    print_number(out, " of ", other.len() as u64, " bytes\n")
}

// Whether all bytes are signs that can be printed, and line feeds.
fn is_text(bytes: &[u8]) -> bool {
    for byte in bytes {
        if !matches!(*byte, b'\n' | 32..=126) {
            return false;
        }
    }
    true
}

// Bytes in hexadecimal digits; zeros at the end as their number.
fn print_bytes(out: &mut Vec<u8>, bytes: &[u8]) -> Result<(), Fault> {
    let zeros = zeros_behind(bytes);
    let shown = bytes
        .get(..bytes.len().saturating_sub(zeros))
        .unwrap_or(bytes);
    put(out, b" ")?;
    put_hex(out, shown)?;
    if zeros > 0 {
        print_number(out, " +", zeros as u64, "")?;
    }
    print(out, "", "")
}

// How many zeros stand behind the rest; none where they are few.
fn zeros_behind(bytes: &[u8]) -> usize {
    let mut count = 0usize;
    for byte in bytes.iter().rev() {
        if *byte != 0 {
            break;
        }
        count = count.saturating_add(1);
    }
    if count < 8 { 0 } else { count }
}

// A record, of which all was captured.
#[derive(Clone, Copy)]
struct Record {
    seconds: u32,
    micros: u32,
    from: usize,
    to: usize,
}

// The record at a place.
fn record_at(capture: &[u8], at: usize) -> Option<Record> {
    let record = capture.get(at..)?;
    let length = number_at(record, 8)?;
    if number_at(record, 12)? != length {
        return None;
    }
    let from = at.saturating_add(16);
    let to = from.saturating_add(length as usize);
    if to > capture.len() {
        return None;
    }
    Some(Record {
        seconds: number_at(record, 0)?,
        micros: number_at(record, 4)?,
        from,
        to,
    })
}

// Four bytes, the least significant first.
fn number_at(bytes: &[u8], at: usize) -> Option<u32> {
    let four = bytes.get(at..)?.first_chunk::<4>()?;
    Some(u32::from_le_bytes(*four))
}

// Whether bytes are such a head and whole records.
fn is_capture(bytes: &[u8]) -> bool {
    if !bytes.starts_with(&HEAD) {
        return false;
    }
    let mut at = HEAD.len();
    for _ in 0..bytes.len() {
        match record_at(bytes, at) {
            Some(record) => at = record.to,
            None => break,
        }
    }
    at == bytes.len()
}

fn print_records(out: &mut Vec<u8>, capture: &[u8]) -> Result<(), Fault> {
    let mut at = HEAD.len();
    for _ in 0..capture.len() {
        let Some(record) = record_at(capture, at) else {
            break;
        };
        print_record(out, capture, &record)?;
        at = record.to;
    }
    Ok(())
}

fn print_record(out: &mut Vec<u8>, capture: &[u8], record: &Record) -> Result<(), Fault> {
    print_number(out, " @ ", u64::from(record.seconds), " ")?;
    print_number(out, "", u64::from(record.micros), "")?;
    print_bytes(out, capture.get(record.from..record.to).unwrap_or(&[]))
}
