//! Configurations: read, written, and read again.
use crate::keys;
use case_lines::put;
use fab_base::NoMemory;
use fab_config::{Config, read_config, write_config};
use std::alloc::{AllocError, Global};

/// A longer text is given by its number of bytes and its CRC.
const MOST_TEXT: usize = 2000;

pub(crate) fn config(alloc: Global, text: &[u8], out: &mut Vec<u8>) -> Result<(), AllocError> {
    match &read_config(alloc, text) {
        Ok(config) => say(alloc, config, out),
        Err(why) => keys::fault(alloc, out, *why),
    }
}

// A configuration as it is written, and whether that is read as the same.
fn say(alloc: Global, config: &Config, out: &mut Vec<u8>) -> Result<(), AllocError> {
    let text = written(alloc, config)?;
    say_text(&text, out)?;
    read_again(alloc, &text, out)
}

fn written(alloc: Global, config: &Config) -> Result<Vec<u8>, AllocError> {
    let mut made = Vec::new(alloc);
    match write_config(alloc, config, &mut made) {
        Ok(()) => Ok(made),
        Err(NoMemory) => Err(AllocError),
    }
}

fn say_text(text: &[u8], out: &mut Vec<u8>) -> Result<(), AllocError> {
    if text.len() <= MOST_TEXT {
        return put(out, text);
    }
    keys::bytes(out, b"text of ", text)?;
    put(out, b"\n")
}

fn read_again(alloc: Global, text: &[u8], out: &mut Vec<u8>) -> Result<(), AllocError> {
    match &read_config(alloc, text) {
        Ok(config) => say_again(alloc, config, text, out),
        Err(why) => keys::fault(alloc, out, *why),
    }
}

fn say_again(
    alloc: Global,
    config: &Config,
    text: &[u8],
    out: &mut Vec<u8>,
) -> Result<(), AllocError> {
    let again = written(alloc, config)?;
    put(
        out,
        if again.as_slice() == text {
            b"read again: same\n"
        } else {
            b"read again: other\n"
        },
    )
}
