//! Words of a line, and what they mean.
use case_lines::{bytes_of, number_of};
use fab_base::NoMemory;
use std::alloc::{AllocError, AllocFailed, Global};

/// Why a line isn't obeyed.
#[derive(Clone, Copy, Debug, PartialEq, Eq)]
pub(crate) enum Fault {
    /// It can't be read, or has the name of a file that isn't there.
    Line,
    /// Memory was refused.
    Memory,
}

impl From<AllocError> for Fault {
    fn from(_refused: AllocError) -> Fault {
        Fault::Memory
    }
}

impl<T: Drop> From<AllocFailed<T>> for Fault {
    fn from(_refused: AllocFailed<T>) -> Fault {
        Fault::Memory
    }
}

impl From<NoMemory> for Fault {
    fn from(_refused: NoMemory) -> Fault {
        Fault::Memory
    }
}

/// A decimal number.
pub(crate) fn number(word: Option<&str>) -> Result<u64, Fault> {
    match number_of(word.unwrap_or("").as_bytes()) {
        Some(number) => Ok(number),
        None => Err(Fault::Line),
    }
}

/// A number below 2 to the 32.
pub(crate) fn small(word: Option<&str>) -> Result<u32, Fault> {
    match u32::try_from(number(word)?) {
        Ok(number) => Ok(number),
        Err(_) => Err(Fault::Line),
    }
}

/// A place in a file.
pub(crate) fn place(word: Option<&str>) -> Result<usize, Fault> {
    Ok(number(word)? as usize)
}

/// Bytes in hexadecimal digits; `-` is none.
pub(crate) fn put_digits(alloc: Global, bytes: &mut Vec<u8>, word: &str) -> Result<(), Fault> {
    match bytes_of(alloc, word.as_bytes()) {
        Ok(more) => bytes.extend_from_slice(&more)?,
        Err(_) => return Err(Fault::Line),
    }
    Ok(())
}

/// So many zero bytes.
pub(crate) fn put_zeros(bytes: &mut Vec<u8>, count: u32) -> Result<(), Fault> {
    for _ in 0..count {
        bytes.push(0)?;
    }
    Ok(())
}

/// The words of a command. One in quotes may be empty, and has `_` for each space.
pub(crate) fn words_of(alloc: Global, line: &str) -> Result<Vec<String>, Fault> {
    let mut words = Vec::new(alloc);
    for word in line.split_whitespace() {
        words.push(word_of(alloc, word)?)?;
    }
    Ok(words)
}

fn word_of(alloc: Global, word: &str) -> Result<String, Fault> {
    let Some(inner) = word.strip_prefix("'") else {
        return Ok(String::from_str(alloc, word)?);
    };
    let mut text = String::new(alloc);
    for sign in inner.chars() {
        match sign {
            '\'' => {}
            '_' => text.push(' ')?,
            _ => text.push(sign)?,
        }
    }
    Ok(text)
}

/// The two parts of a word like `K=plain`.
pub(crate) fn pair(word: &str) -> Result<(&str, &str), Fault> {
    let Some(at) = word.find("=") else {
        return Err(Fault::Line);
    };
    let (name, rest) = word.split_at(at);
    match rest.strip_prefix("=") {
        Some(other) => Ok((name, other)),
        None => Err(Fault::Line),
    }
}
