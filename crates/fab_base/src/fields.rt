//! Fields of bytes at a place that the caller knows to be there; numbers are big-endian.
ghost use Rattle.std.specs.Prelude.{◌≡◌, ◌<◌, ◌≤◌, ◌+◌, ◌^◌, length};
ghost use Rattle.fab_base.specs.Layout.{field, number};

use crate::{FcId, Mac, Wwn};

/// The number in two bytes.
pub fn u16_at(bytes: &[u8], at: usize) -> u16
    requires { at + 2 ≤ length bytes.now }
    ensures { result ≡ number bytes.now at 2 }
{
    u16::from_be_bytes([bytes[at], bytes[at + 1]])
}

/// The number in three bytes.
pub fn u24_at(bytes: &[u8], at: usize) -> u32
    requires { at + 3 ≤ length bytes.now }
    ensures value { result ≡ number bytes.now at 3 }
    ensures range { result < 2 ^ 24 }
{
    u32::from_be_bytes([0, bytes[at], bytes[at + 1], bytes[at + 2]])
}

/// The number in four bytes.
pub fn u32_at(bytes: &[u8], at: usize) -> u32
    requires { at + 4 ≤ length bytes.now }
    ensures { result ≡ number bytes.now at 4 }
{
    u32::from_be_bytes([bytes[at], bytes[at + 1], bytes[at + 2], bytes[at + 3]])
}

/// The number in eight bytes.
pub fn u64_at(bytes: &[u8], at: usize) -> u64
    requires { at + 8 ≤ length bytes.now }
    ensures { result ≡ number bytes.now at 8 }
{
    match bytes[at..].first_chunk::<8>() {
        Some(front) => u64::from_be_bytes(*front),
        None => unreachable!(),
    }
}

/// The address (N_Port_ID) in the three bytes at that place, as in a frame's header. A word that
/// holds an address has it one byte further on.
pub fn address_at(bytes: &[u8], at: usize) -> FcId
    requires { at + 3 ≤ length bytes.now }
    ensures { result ≡ number bytes.now at 3 }
{
    match FcId::new(u24_at(bytes, at)) {
        Some(address) => address,
        None => unreachable!(),
    }
}

/// The MAC in six bytes.
pub fn mac_at(bytes: &[u8], at: usize) -> Mac
    requires { at + 6 ≤ length bytes.now }
    ensures { result ≡ field bytes.now at 6 }
{
    match bytes[at..].first_chunk::<6>() {
        Some(front) => Mac(*front),
        None => unreachable!(),
    }
}

/// The worldwide name in eight bytes.
pub fn name_at(bytes: &[u8], at: usize) -> Wwn
    requires { at + 8 ≤ length bytes.now }
    ensures { result ≡ number bytes.now at 8 }
{
    Wwn(u64_at(bytes, at))
}
