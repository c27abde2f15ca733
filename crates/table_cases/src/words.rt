//! The words of a case's line, read as the field's values.
ghost use Rattle.std.specs.Prelude.{◌<◌};

use case_lines::{bytes_of, number_of, word_at};
use fab_base::{Bytes, Enode, FcId, Mac, Moment, NoMemory, PortNo, Wwn};
use fab_config::{read_mac, read_name};
use std::alloc::{AllocError, AllocFailed, Global};

/// Why a line has no answer.
#[derive(Clone, Copy)]
pub enum CaseFault {
    /// It isn't what its call takes.
    Words,
    /// Nothing is open that it could be asked of.
    Closed,
    /// What the call requires doesn't hold.
    Refused,
    /// Memory was refused.
    Memory,
}

impl From<NoMemory> for CaseFault {
    fn from(_refused: NoMemory) -> CaseFault {
        CaseFault::Memory
    }
}

impl From<AllocError> for CaseFault {
    fn from(_refused: AllocError) -> CaseFault {
        CaseFault::Memory
    }
}

impl<T: Drop> From<AllocFailed<T>> for CaseFault {
    fn from(_refused: AllocFailed<T>) -> CaseFault {
        CaseFault::Memory
    }
}

/// The word at a place as a text.
pub fn name_at(line: &[u8], place: usize) -> &str {
    str::from_utf8(word_at(line, place)).unwrap_or("")
}

/// Whether there is a word at a place.
pub fn has_word(line: &[u8], place: usize) -> bool {
    !word_at(line, place).is_empty()
}

/// A decimal number.
pub fn number(line: &[u8], place: usize) -> Result<u64, CaseFault> {
    number_of(word_at(line, place)).ok_or(CaseFault::Words)
}

/// A decimal number below 2^32.
pub fn small(line: &[u8], place: usize) -> Result<u32, CaseFault> {
    match u32::try_from(number(line, place)?) {
        Ok(number) => Ok(number),
        Err(_) => Err(CaseFault::Words),
    }
}

/// A decimal number below 65536.
pub fn short(line: &[u8], place: usize) -> Result<u16, CaseFault> {
    match u16::try_from(number(line, place)?) {
        Ok(number) => Ok(number),
        Err(_) => Err(CaseFault::Words),
    }
}

/// A decimal number below 256.
pub fn octet(line: &[u8], place: usize) -> Result<u8, CaseFault> {
    match u8::try_from(number(line, place)?) {
        Ok(number) => Ok(number),
        Err(_) => Err(CaseFault::Words),
    }
}

/// A moment in milliseconds.
pub fn moment(line: &[u8], place: usize) -> Result<Moment, CaseFault> {
    Ok(Moment(number(line, place)?))
}

/// A moment, or the word - for none.
pub fn some_moment(line: &[u8], place: usize) -> Result<Option<Moment>, CaseFault> {
    if name_at(line, place) == "-" {
        return Ok(None);
    }
    Ok(Some(moment(line, place)?))
}

/// A number in hexadecimal digits.
pub fn hexadecimal(line: &[u8], place: usize) -> Result<u32, CaseFault> {
    match u32::from_str_radix(name_at(line, place), 16) {
        Ok(number) => Ok(number),
        Err(_) => Err(CaseFault::Words),
    }
}

/// A byte in two hexadecimal digits.
pub fn code(line: &[u8], place: usize) -> Result<u8, CaseFault> {
    match u8::from_str_radix(name_at(line, place), 16) {
        Ok(number) => Ok(number),
        Err(_) => Err(CaseFault::Words),
    }
}

/// An address in six hexadecimal digits.
pub fn address(line: &[u8], place: usize) -> Result<FcId, CaseFault> {
    FcId::new(hexadecimal(line, place)?).ok_or(CaseFault::Words)
}

/// A port from 1 to 64.
pub fn port(line: &[u8], place: usize) -> Result<PortNo, CaseFault> {
    PortNo::new(small(line, place)?).ok_or(CaseFault::Words)
}

/// A MAC with colons.
pub fn mac(line: &[u8], place: usize) -> Result<Mac, CaseFault> {
    read_mac(word_at(line, place)).ok_or(CaseFault::Words)
}

/// A worldwide name with colons.
pub fn name(line: &[u8], place: usize) -> Result<Wwn, CaseFault> {
    read_name(word_at(line, place)).ok_or(CaseFault::Words)
}

/// A port and a MAC.
pub fn enode(line: &[u8], place: usize) -> Result<Enode, CaseFault>
    requires { place < 1000 }
{
    let port = port(line, place)?;
    let mac = mac(line, place + 1)?;
    Ok(Enode { port, mac })
}

/// Bytes in hexadecimal digits, and - for none.
pub fn hex(alloc: Global, line: &[u8], place: usize) -> Result<Bytes, CaseFault> {
    match bytes_of(alloc, word_at(line, place)) {
        Ok(bytes) => Ok(Bytes::from_vec(bytes)),
        Err(_) => Err(CaseFault::Words),
    }
}
