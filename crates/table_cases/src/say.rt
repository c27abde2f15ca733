//! Answers, in one spelling of the field's terms.
ghost use Rattle.case_lines.specs.Printing.{Grows};

use crate::words::CaseFault;
use case_lines::{put, put_address, put_hex, put_line, put_mac, put_name, put_number};
use fab_base::{Enode, FcId, Mac, Moment, PortNo, Wwn};

/// A word and a space.
pub fn say(out: &mut Vec<u8>, word: &str) -> Result<(), CaseFault>
    ensures grows { Grows out.old.items out.new.items }
{
    put(out, word.as_bytes())?;
    put(out, b" ")?;
    Ok(())
}

/// A number and a space.
pub fn say_number(out: &mut Vec<u8>, number: u64) -> Result<(), CaseFault>
    ensures grows { Grows out.old.items out.new.items }
{
    put_number(out, number)?;
    put(out, b" ")?;
    Ok(())
}

/// An address and a space.
pub fn say_address(out: &mut Vec<u8>, address: FcId) -> Result<(), CaseFault>
    ensures grows { Grows out.old.items out.new.items }
{
    put_address(out, &address)?;
    put(out, b" ")?;
    Ok(())
}

/// A MAC and a space.
pub fn say_mac(out: &mut Vec<u8>, mac: &Mac) -> Result<(), CaseFault>
    ensures grows { Grows out.old.items out.new.items }
{
    put_mac(out, mac)?;
    put(out, b" ")?;
    Ok(())
}

/// A worldwide name and a space.
pub fn say_name(out: &mut Vec<u8>, name: &Wwn) -> Result<(), CaseFault>
    ensures grows { Grows out.old.items out.new.items }
{
    put_name(out, name)?;
    put(out, b" ")?;
    Ok(())
}

/// A port, a MAC and a space.
pub fn say_enode(out: &mut Vec<u8>, enode: &Enode) -> Result<(), CaseFault>
    ensures grows { Grows out.old.items out.new.items }
{
    say_number(out, u64::from(enode.port.value()))?;
    say_mac(out, &enode.mac)
}

/// A port and a moment.
pub fn say_when(out: &mut Vec<u8>, port: PortNo, moment: Moment) -> Result<(), CaseFault>
    ensures grows { Grows out.old.items out.new.items }
{
    say_number(out, u64::from(port.value()))?;
    say_number(out, moment.0)
}

/// A last word.
pub fn end(out: &mut Vec<u8>, word: &str) -> Result<(), CaseFault>
    ensures grows { Grows out.old.items out.new.items }
{
    put_line(out, word.as_bytes())?;
    Ok(())
}

/// Bytes as the last word.
pub fn end_hex(out: &mut Vec<u8>, bytes: &[u8]) -> Result<(), CaseFault>
    ensures grows { Grows out.old.items out.new.items }
{
    put_hex(out, bytes)?;
    put(out, b"\n")?;
    Ok(())
}

/// A number as the last word.
pub fn end_number(out: &mut Vec<u8>, number: u64) -> Result<(), CaseFault>
    ensures grows { Grows out.old.items out.new.items }
{
    put_number(out, number)?;
    put(out, b"\n")?;
    Ok(())
}

/// `yes` or `no`.
pub fn end_bool(out: &mut Vec<u8>, yes: bool) -> Result<(), CaseFault>
    ensures grows { Grows out.old.items out.new.items }
{
    end(out, if yes { "yes" } else { "no" })
}

/// An address, or `none`.
pub fn end_address(out: &mut Vec<u8>, address: Option<FcId>) -> Result<(), CaseFault>
    ensures grows { Grows out.old.items out.new.items }
{
    match address {
        Some(address) => {
            put_address(out, &address)?;
            put(out, b"\n")?;
            Ok(())
        }
        None => end(out, "none"),
    }
}

/// A moment, or `none`.
pub fn end_moment(out: &mut Vec<u8>, moment: Option<Moment>) -> Result<(), CaseFault>
    ensures grows { Grows out.old.items out.new.items }
{
    match moment {
        Some(moment) => end_number(out, moment.0),
        None => end(out, "none"),
    }
}

/// A worldwide name, or `none`.
pub fn end_name(out: &mut Vec<u8>, name: Option<Wwn>) -> Result<(), CaseFault>
    ensures grows { Grows out.old.items out.new.items }
{
    match name {
        Some(name) => {
            put_name(out, &name)?;
            put(out, b"\n")?;
            Ok(())
        }
        None => end(out, "none"),
    }
}
