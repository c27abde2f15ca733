//! Fields that are appended to bytes. Of bytes to which a call couldn't append all nothing is said.
ghost use Rattle.std.specs.Prelude.{◌≡◌, ◌+◌, ◌*◌, ◌≤◌, ◌++◌, ◌∷◌, length, vec_len, OnOk};
ghost use Rattle.fab_base.specs.Layout.{spelled, zeros};
ghost use Rattle.ct_messages.specs.Ct as spec;

use crate::{DIRECTORY, NAME_SERVER};
use fab_base::{FcId, Wwn};
use std::alloc::AllocError;

/// The preamble of 16 bytes.
pub(crate) fn preamble(command: u16, reason: u8, explanation: u8) -> [u8; 16]
    ensures { result ≡ spec.preamble command reason explanation }
{
    let [high, low] = command.to_be_bytes();
    [
        1,
        0,
        0,
        0,
        DIRECTORY,
        NAME_SERVER,
        0,
        0,
        high,
        low,
        0,
        0,
        0,
        reason,
        explanation,
        0,
    ]
}

/// A byte and an address.
pub(crate) fn put_marked(bytes: &mut Vec<u8>, mark: u8, address: FcId) -> Result<(), AllocError>
    ensures bytes { OnOk result (bytes.new.items ≡ bytes.old.items ++ mark ∷ spelled 3 address) }
    ensures size { OnOk result (vec_len bytes.new ≡ vec_len bytes.old + 4) }
{
    let [_, high, mid, low] = address.value().to_be_bytes();
    bytes.extend_from_slice(&[mark, high, mid, low])
}

/// An address word.
pub(crate) fn put_address(bytes: &mut Vec<u8>, address: FcId) -> Result<(), AllocError>
    ensures bytes { OnOk result (bytes.new.items ≡ bytes.old.items ++ spec.address_word address) }
    ensures size { OnOk result (vec_len bytes.new ≡ vec_len bytes.old + 4) }
{
    put_marked(bytes, 0, address)
}

/// Zeros, at most 255.
pub(crate) fn put_zeros(bytes: &mut Vec<u8>, count: usize) -> Result<(), AllocError>
    requires { count ≤ 255 }
    ensures bytes { OnOk result (bytes.new.items ≡ bytes.old.items ++ zeros count) }
    ensures size { OnOk result (vec_len bytes.new ≡ vec_len bytes.old + count) }
{
    bytes.extend_from_slice(&[0; 255][..count])
}

pub(crate) fn put_name(bytes: &mut Vec<u8>, name: Wwn) -> Result<(), AllocError>
    ensures bytes { OnOk result (bytes.new.items ≡ bytes.old.items ++ spelled 8 name) }
    ensures size { OnOk result (vec_len bytes.new ≡ vec_len bytes.old + 8) }
{
    bytes.extend_from_slice(&name.0.to_be_bytes())
}

pub(crate) fn put_words(bytes: &mut Vec<u8>, words: &[u32]) -> Result<(), AllocError>
    ensures bytes { OnOk result (bytes.new.items ≡ bytes.old.items ++ spec.word_bytes words.now) }
    ensures size { OnOk result (vec_len bytes.new ≡ vec_len bytes.old + 4 * length words.now) }
{
    for word in words {
        bytes.extend_from_slice(&word.to_be_bytes())?;
    }
    Ok(())
}

/// A text behind its length.
pub(crate) fn put_text(bytes: &mut Vec<u8>, text: &[u8]) -> Result<(), AllocError>
    requires { length text.now ≤ 255 }
    ensures bytes { OnOk result (bytes.new.items ≡ bytes.old.items ++ spec.counted text.now) }
    ensures size { OnOk result (vec_len bytes.new ≡ vec_len bytes.old + (length text.now + 1)) }
{
    bytes.extend_from_slice(&[text.len() as u8])?;
    bytes.extend_from_slice(text)
}
