//! How a value is spelled in an answer: its key, and what it is.
use case_lines::{put, put_address, put_hex, put_mac, put_name, put_number};
use fab_base::{FcId, Mac, Wwn};
use fc_check::crc32;
use std::alloc::{AllocError, Global};
use std::fmt;

/// More bytes than these are given by their number and their CRC.
const MOST_BYTES: usize = 700;

pub(crate) fn number(out: &mut Vec<u8>, key: &[u8], value: u64) -> Result<(), AllocError> {
    put(out, key)?;
    put_number(out, value)
}

pub(crate) fn flag(out: &mut Vec<u8>, key: &[u8], value: bool) -> Result<(), AllocError> {
    put(out, key)?;
    put(out, if value { b"yes" } else { b"no" })
}

pub(crate) fn mac(out: &mut Vec<u8>, key: &[u8], value: &Mac) -> Result<(), AllocError> {
    put(out, key)?;
    put_mac(out, value)
}

pub(crate) fn name(out: &mut Vec<u8>, key: &[u8], value: &Wwn) -> Result<(), AllocError> {
    put(out, key)?;
    put_name(out, value)
}

pub(crate) fn address(out: &mut Vec<u8>, key: &[u8], value: &FcId) -> Result<(), AllocError> {
    put(out, key)?;
    put_address(out, value)
}

pub(crate) fn bytes(out: &mut Vec<u8>, key: &[u8], value: &[u8]) -> Result<(), AllocError> {
    put(out, key)?;
    if value.len() <= MOST_BYTES {
        return put_hex(out, value);
    }
    number(out, b"", value.len() as u64)?;
    put(out, b"-bytes,crc=")?;
    put_hex(out, &crc32(value).to_be_bytes())
}

/// A fault by its name and its text.
pub(crate) fn fault<E: fmt::Debug + fmt::Display + Drop>(
    alloc: Global,
    out: &mut Vec<u8>,
    why: E,
) -> Result<(), AllocError> {
    let text = format!(in alloc; "error {why:?}: {why}\n")?;
    put(out, text.as_bytes())
}

/// What a writer made of the value that was read: the same bytes, or which ones.
pub(crate) fn written(out: &mut Vec<u8>, read: &[u8], made: &[u8]) -> Result<(), AllocError> {
    if read == made {
        return put(out, b" written=same\n");
    }
    bytes(out, b" written=", made)?;
    put(out, b"\n")
}
