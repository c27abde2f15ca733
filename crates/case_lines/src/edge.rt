//! Standard input and output.
use std::alloc::AllocGlobal;
use std::io;
use std::io::{Read, Write};

/// Standard input to its end.
pub fn read_input<R: Input + AllocGlobal>(rt: &R) -> io::Result<Vec<u8>> {
    let mut text = Vec::new(rt.alloc());
    rt.reader().read_to_end(&mut text)?;
    Ok(text)
}

/// Writes a text to standard output.
pub fn write_output<R: Print>(rt: &R, text: &[u8]) -> io::Result<()> {
    let mut to = io::writer(rt);
    to.write_all(text)?;
    to.flush()
}
