//! Fields of a payload.
ghost use Rattle.std.specs.Prelude.{◌≡◌, ◌≤◌, ◌+◌, length, slice_index};
ghost use Rattle.ct_messages.specs.Table as table;

use crate::{PREAMBLE, TypeMap};
use fab_base::FcId;
use fab_base::fields::{address_at, u32_at};

/// The address behind the preamble, in the last three bytes of its word.
pub(crate) fn address_of(payload: &[u8]) -> FcId
    requires { 20 ≤ length payload.now }
    ensures { result ≡ table.address_of payload.now }
{
    address_at(payload, PREAMBLE + 1)
}

/// The byte at a place, and 0 past the end.
pub(crate) fn byte_or_zero(bytes: &[u8], at: usize) -> u8
    ensures { result ≡ slice_index bytes.now at }
{
    match bytes.get(at) {
        Some(byte) => *byte,
        None => 0,
    }
}

/// The eight words of RFT_ID.
pub(crate) fn types_at(bytes: &[u8]) -> TypeMap
    requires { 52 ≤ length bytes.now }
    ensures { result.0 ≡ table.words_at 8 20 bytes.now }
{
    TypeMap([
        u32_at(bytes, 20),
        u32_at(bytes, 24),
        u32_at(bytes, 28),
        u32_at(bytes, 32),
        u32_at(bytes, 36),
        u32_at(bytes, 40),
        u32_at(bytes, 44),
        u32_at(bytes, 48),
    ])
}

/// The bytes behind their length.
pub(crate) fn text_at(bytes: &[u8], at: usize) -> &[u8]
    requires { at + 1 + slice_index bytes.now at ≤ length bytes.now }
    ensures { result.now ≡ table.text_at at bytes.now }
{
    &bytes[at + 1..at + 1 + bytes[at] as usize]
}
