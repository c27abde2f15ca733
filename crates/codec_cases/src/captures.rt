//! Captures, as pcap and as pcapng, read from a depot of one file whose fetches give a few bytes.
use crate::keys;
use case_lines::{OpenFiles, bytes_of, number_of, put, word_at};
use fab_base::{Caught, Moment, NoMemory};
use pcap_file::{Budget, CaptureHead, Reader, write_head, write_record};
use pcapng_file::{NgRecord, NgRecords, NgStream, classic_capture, read_ng};
use std::alloc::{AllocError, Global};
use std::fmt;

/// The greatest moment of a record that is written.
const LAST: u64 = 4_294_967_295_999;

/// Adds the head of a capture, or a record of this moment and these bytes.
pub(crate) fn add_record(alloc: Global, line: &[u8], held: &mut Vec<u8>) -> Result<(), AllocError> {
    let made = match number_of(word_at(line, 1)) {
        None => write_head(alloc, held),
        Some(moment) => match bytes_of(alloc, word_at(line, 2)) {
            Ok(bytes) => add_frame(alloc, moment.min(LAST), &bytes, held),
            Err(_) => Ok(()),
        },
    };
    match made {
        Ok(()) => Ok(()),
        Err(NoMemory) => Err(AllocError),
    }
}

fn add_frame(alloc: Global, moment: u64, bytes: &[u8], held: &mut Vec<u8>) -> Result<(), NoMemory> {
    if bytes.len() > 65535 || moment > LAST {
        return Ok(());
    }
    write_record(alloc, Moment(moment), bytes, held)
}

pub(crate) fn head(alloc: Global, bytes: &[u8], out: &mut Vec<u8>) -> Result<(), AllocError> {
    match CaptureHead::read(bytes) {
        Ok(head) => {
            keys::flag(out, b"head big=", head.big)?;
            keys::flag(out, b" nano=", head.nano)?;
            put(out, b"\n")
        }
        Err(why) => keys::fault(alloc, out, why),
    }
}

// A file, and the limits within which it is read.
#[derive(Drop)]
struct Given<'a> {
    depot: OpenFiles<'a>,
    budget: Budget,
}

// The limits and the bytes of a fetch are in the line.
fn file_in<'a>(line: &[u8], bytes: &'a [u8]) -> Given<'a> {
    let step = number_of(word_at(line, 2)).unwrap_or(5000) as usize;
    Given {
        depot: OpenFiles::one(bytes, step),
        budget: Budget {
            bytes: number_of(word_at(line, 3)).unwrap_or(0),
            frames: number_of(word_at(line, 4)).unwrap_or(0),
        },
    }
}

/// Each record of a capture, or each packet of a file, and what is left of the limits.
pub(crate) fn all(
    alloc: Global,
    line: &[u8],
    bytes: &[u8],
    out: &mut Vec<u8>,
) -> Result<(), AllocError> {
    let mut given = file_in(line, bytes);
    match word_at(line, 0) {
        b"pcap" => pcap(alloc, &mut given, out)?,
        _ => pcapng(alloc, &mut given, out)?,
    }
    say_rest(&given, out)
}

// Each record of a capture, and how it ends. After a fault the reader is asked once more.
fn pcap(alloc: Global, given: &mut Given<'_>, out: &mut Vec<u8>) -> Result<(), AllocError> {
    match Reader::open(&mut given.depot, 0, &mut given.budget) {
        Ok(mut reader) => say_records(alloc, &mut reader, given, out),
        Err(why) => keys::fault(alloc, out, why),
    }
}

fn say_records(
    alloc: Global,
    reader: &mut Reader,
    given: &mut Given<'_>,
    out: &mut Vec<u8>,
) -> Result<(), AllocError> {
    for _ in 0..u64::MAX {
        match reader.next(alloc, &mut given.depot, 0, &mut given.budget) {
            Ok(Some(record)) => say_record(&record.moment, &record.caught, out)?,
            Ok(None) => return Ok(()),
            Err(why) => {
                keys::fault(alloc, out, why)?;
                let before = given.depot.made();
                let again = reader.next(alloc, &mut given.depot, 0, &mut given.budget);
                let more = given.depot.made().saturating_sub(before);
                return say_again(alloc, again.err(), more, out);
            }
        }
    }
    Ok(())
}

// What a reader answers after its fault, and how many fetches that took.
fn say_again<E: fmt::Debug + fmt::Display + Drop>(
    alloc: Global,
    again: Option<E>,
    more: u64,
    out: &mut Vec<u8>,
) -> Result<(), AllocError> {
    match again {
        None => put(out, b"again: no fault\n")?,
        Some(why) => {
            put(out, b"again: ")?;
            keys::fault(alloc, out, why)?;
        }
    }
    say_fetches(b"fetches for it: ", more, out)
}

fn say_fetches(key: &[u8], count: u64, out: &mut Vec<u8>) -> Result<(), AllocError> {
    keys::number(out, key, count)?;
    put(out, b"\n")
}

fn say_record(moment: &Moment, caught: &Caught, out: &mut Vec<u8>) -> Result<(), AllocError> {
    keys::number(out, b"record moment=", moment.0)?;
    keys::flag(out, b" whole=", caught.whole)?;
    keys::bytes(out, b" bytes=", caught.bytes.view())?;
    put(out, b"\n")
}

fn say_rest(given: &Given<'_>, out: &mut Vec<u8>) -> Result<(), AllocError> {
    keys::number(out, b"left bytes=", given.budget.bytes)?;
    keys::number(out, b" frames=", given.budget.frames)?;
    keys::number(out, b" fetches=", given.depot.made())?;
    put(out, b"\n")
}

// Each packet of a file, and the file as a capture.
fn pcapng(alloc: Global, given: &mut Given<'_>, out: &mut Vec<u8>) -> Result<(), AllocError> {
    match &read_ng(alloc, &mut given.depot, 0, &mut given.budget) {
        Ok(records) => {
            say_packets(records, out)?;
            say_classic(alloc, records, out)
        }
        Err(why) => keys::fault(alloc, out, *why),
    }
}

fn say_packets(records: &NgRecords, out: &mut Vec<u8>) -> Result<(), AllocError> {
    for index in 0..records.len() {
        if let Some(record) = records.at(index) {
            say_packet(record, out)?;
        }
    }
    Ok(())
}

fn say_packet(packet: &NgRecord, out: &mut Vec<u8>) -> Result<(), AllocError> {
    keys::number(out, b"original=", u64::from(packet.original))?;
    keys::number(out, b" face=", u64::from(packet.face))?;
    put(out, b" ")?;
    say_record(&packet.moment, &packet.caught, out)
}

// The same packets as a pcap file.
fn say_classic(alloc: Global, records: &NgRecords, out: &mut Vec<u8>) -> Result<(), AllocError> {
    match classic_capture(alloc, records) {
        Ok(bytes) => {
            keys::bytes(out, b"as pcap ", &bytes)?;
            put(out, b"\n")
        }
        Err(NoMemory) => Err(AllocError),
    }
}

/// Each packet of a file as it comes, with the fetches that were made up to it, and how the file
/// ends. A fetch fails once so many were made as a last word says. After a fault the stream is
/// asked once more.
pub(crate) fn stream(
    alloc: Global,
    line: &[u8],
    bytes: &[u8],
    out: &mut Vec<u8>,
) -> Result<(), AllocError> {
    let mut given = file_in(line, bytes);
    if let Some(most) = number_of(word_at(line, 5)) {
        given.depot.fetches = most;
    }
    let mut stream = NgStream::new(alloc, given.budget);
    say_arriving(alloc, &mut stream, &mut given.depot, out)
}

fn say_arriving(
    alloc: Global,
    stream: &mut NgStream,
    depot: &mut OpenFiles<'_>,
    out: &mut Vec<u8>,
) -> Result<(), AllocError> {
    let start = depot.made();
    for _ in 0..u64::MAX {
        match stream.next(alloc, depot, 0) {
            Ok(Some(packet)) => {
                say_packet(&packet, out)?;
                say_fetches(b"fetches=", depot.made().saturating_sub(start), out)?;
            }
            Ok(None) => {
                put(out, b"end ")?;
                return say_fetches(b"fetches=", depot.made().saturating_sub(start), out);
            }
            Err(why) => {
                keys::fault(alloc, out, why)?;
                let before = depot.made();
                let again = stream.next(alloc, depot, 0);
                let more = depot.made().saturating_sub(before);
                return say_again(alloc, again.err(), more, out);
            }
        }
    }
    Ok(())
}
