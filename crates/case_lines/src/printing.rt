//! How answers are appended. Where memory is refused, a prefix of the text may stand there.
ghost use Rattle.std.specs.Prelude.{◌≡◌, ◌++◌, ◌∷◌, [], OnOk, decimal};
ghost use Rattle.fab_base.specs.Texts.{hex, hex_bytes};
ghost use Rattle.case_lines.specs.Printing as spec;
ghost use Rattle.case_lines.specs.Printing.{Grows};

use fab_base::{FcId, Mac, Wwn, address_text, wwn_text};
use fab_config::octet_text;
use itoa::Buffer;
use std::alloc::AllocError;

/// Appends a text.
pub fn put(out: &mut Vec<u8>, text: &[u8]) -> Result<(), AllocError>
    ensures adds { OnOk result (out.new.items ≡ out.old.items ++ text.now) }
    ensures grows { Grows out.old.items out.new.items }
{
    out.extend_from_slice(text)
}

/// Appends a text and a line feed.
pub fn put_line(out: &mut Vec<u8>, text: &[u8]) -> Result<(), AllocError>
    ensures adds { OnOk result (out.new.items ≡ out.old.items ++ text.now ++ 10 ∷ []) }
    ensures grows { Grows out.old.items out.new.items }
{
    out.extend_from_slice(text)?;
    out.extend_from_slice(b"\n")?;
    Ok(())
}

/// Appends a number's decimal digits.
pub fn put_number(out: &mut Vec<u8>, number: u64) -> Result<(), AllocError>
    ensures adds { OnOk result (out.new.items ≡ out.old.items ++ decimal number) }
    ensures grows { Grows out.old.items out.new.items }
{
    let mut buffer = Buffer::new();
    out.extend_from_slice(buffer.format(number).as_bytes())
}

/// Appends two hexadecimal digits for each byte, and the word - for no bytes.
pub fn put_hex(out: &mut Vec<u8>, bytes: &[u8]) -> Result<(), AllocError>
    ensures adds { OnOk result (out.new.items ≡ out.old.items ++ spec.hex_word bytes.now) }
    ensures grows { Grows out.old.items out.new.items }
{
    if bytes.is_empty() {
        return out.extend_from_slice(b"-");
    }
    put_octets(out, bytes)
}

// Appends two digits for each byte.
fn put_octets(out: &mut Vec<u8>, bytes: &[u8]) -> Result<(), AllocError>
    ensures adds { OnOk result (out.new.items ≡ out.old.items ++ hex_bytes bytes.now) }
    ensures grows { Grows out.old.items out.new.items }
{
    for byte in bytes {
        put_octet(out, *byte)?;
    }
    Ok(())
}

// Appends a byte's two digits.
fn put_octet(out: &mut Vec<u8>, byte: u8) -> Result<(), AllocError>
    ensures adds { OnOk result (out.new.items ≡ out.old.items ++ hex 2 byte) }
    ensures grows { Grows out.old.items out.new.items }
{
    out.extend_from_slice(&octet_text(byte))
}

/// Appends a MAC with colons.
pub fn put_mac(out: &mut Vec<u8>, mac: &Mac) -> Result<(), AllocError>
    ensures adds { OnOk result (out.new.items ≡ out.old.items ++ spec.with_colons mac.now) }
    ensures grows { Grows out.old.items out.new.items }
{
    put_with_colons(out, &mac.0)
}

// Appends the digits of bytes with colons between them.
fn put_with_colons(out: &mut Vec<u8>, bytes: &[u8]) -> Result<(), AllocError>
    ensures adds { OnOk result (out.new.items ≡ out.old.items ++ spec.with_colons bytes.now) }
    ensures grows { Grows out.old.items out.new.items }
{
    match bytes.split_first() {
        None => Ok(()),
        Some((first, rest)) => {
            put_octet(out, *first)?;
            put_behind_colons(out, rest)
        }
    }
}

// Appends the digits of bytes with a colon before each.
fn put_behind_colons(out: &mut Vec<u8>, bytes: &[u8]) -> Result<(), AllocError>
    ensures adds { OnOk result (out.new.items ≡ out.old.items ++ spec.behind_colons bytes.now) }
    ensures grows { Grows out.old.items out.new.items }
{
    for byte in bytes {
        put_behind_colon(out, *byte)?;
    }
    Ok(())
}

fn put_behind_colon(out: &mut Vec<u8>, byte: u8) -> Result<(), AllocError>
    ensures adds { OnOk result (out.new.items ≡ out.old.items ++ 58 ∷ hex 2 byte) }
    ensures grows { Grows out.old.items out.new.items }
{
    out.extend_from_slice(b":")?;
    put_octet(out, byte)?;
    Ok(())
}

/// Appends the sixteen digits of a worldwide name.
pub fn put_name(out: &mut Vec<u8>, name: &Wwn) -> Result<(), AllocError>
    ensures adds { OnOk result (out.new.items ≡ out.old.items ++ hex 16 name.now) }
    ensures grows { Grows out.old.items out.new.items }
{
    out.extend_from_slice(&wwn_text(name))
}

/// Appends the six digits of an address.
pub fn put_address(out: &mut Vec<u8>, address: &FcId) -> Result<(), AllocError>
    ensures adds { OnOk result (out.new.items ≡ out.old.items ++ hex 6 address.now) }
    ensures grows { Grows out.old.items out.new.items }
{
    out.extend_from_slice(&address_text(address))
}
