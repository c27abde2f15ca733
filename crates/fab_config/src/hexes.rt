//! Names and addresses as pairs of hexadecimal digits with colons between them.
ghost use Rattle.std.specs.Prelude.{◌≡◌, ◌≤◌, ◌<◌, ◌+◌, ◌^◌, None, Some, length, slice_index};
ghost use Rattle.std.specs.Prelude.{MatchBool, nat_lt};
ghost use Rattle.std.specs.List.{list_any};
ghost use Rattle.fab_config.specs.Values as spec;
ghost use Rattle.fab_config.specs.Lines.{words};

use crate::words::only_word;
use fab_base::{Mac, Wwn};

/// Whether a word is so many pairs, whose bytes are written then.
fn read_octets(word: &[u8], bytes: &mut [u8]) -> bool
    requires some { 0 < length bytes.old }
    requires few { length bytes.old ≤ 8 }
    ensures { MatchBool result (spec.octets_of (length bytes.old) word.now
        ≡ Some bytes.new) (spec.octets_of (length bytes.old) word.now ≡ None) }
{
    let count = bytes.len();
    if word.len() + 1 != 3 * count {
        return false;
    }
    let Some(first) = octet(word, 0) else {
        return false;
    };
    bytes[0] = first;
    for i in 1..count {
        if word[3 * i - 1] != b':' {
            return false;
        }
        let Some(byte) = octet(word, 3 * i) else {
            return false;
        };
        bytes[i] = byte;
    }
    true
}

// The byte of two digits.
fn octet(word: &[u8], at: usize) -> Option<u8>
    requires { at + 2 ≤ length word.now }
    ensures { result ≡ spec.octet (slice_index word.now at) (slice_index word.now (at + 1)) }
{
    let mut byte = [0; 1];
    match hex::decode_to_slice(&word[at..at + 2], &mut byte) {
        Ok(()) => Some(byte[0]),
        Err(_) => None,
    }
}

/// The worldwide name that a word spells: eight pairs of hexadecimal digits with colons between
/// them, in either case.
pub fn read_name(word: &[u8]) -> Option<Wwn>
    ensures { result ≡ spec.name word.now }
{
    let mut bytes = [0; 8];
    if read_octets(word, &mut bytes) {
        Some(Wwn(u64::from_be_bytes(bytes)))
    } else {
        None
    }
}

/// The MAC of a station that a line's only word spells.
pub(crate) fn only_station(values: &[u8]) -> Option<Mac>
    ensures { result ≡ spec.only spec.station (words values.now) }
{
    read_station(only_word(values)?)
}

/// The MAC that a word spells, of a station or not: six pairs of hexadecimal digits with colons
/// between them, in either case.
pub fn read_mac(word: &[u8]) -> Option<Mac>
    ensures { result ≡ spec.octets_of 6 word.now }
{
    let mut bytes = [0; 6];
    if read_octets(word, &mut bytes) {
        Some(Mac(bytes))
    } else {
        None
    }
}

fn read_station(word: &[u8]) -> Option<Mac>
    ensures { result ≡ spec.station word.now }
{
    let mac = read_mac(word)?;
    if is_station(&mac.0) { Some(mac) } else { None }
}

// The MAC of one station.
fn is_station(mac: &[u8]) -> bool
    requires { length mac.now ≡ 6 }
    ensures { result ≡ spec.is_station mac.now }
{
    mac[0] % 2 == 0 && has_bit(mac)
}

// Not all zeros.
fn has_bit(bytes: &[u8]) -> bool
    ensures { result ≡ list_any (λ b. nat_lt 0 b) bytes.now }
{
    bytes.iter().any(|byte| *byte > 0)
}

/// The name that a line's only word spells.
pub(crate) fn only_name(values: &[u8]) -> Option<Wwn>
    ensures { result ≡ spec.only spec.name (words values.now) }
{
    read_name(only_word(values)?)
}

/// The FC-MAP that a line's only word spells.
pub(crate) fn only_fc_map(values: &[u8]) -> Option<u32>
    ensures { result ≡ spec.only spec.fc_map (words values.now) }
{
    read_fc_map(only_word(values)?)
}

fn read_fc_map(word: &[u8]) -> Option<u32>
    ensures { result ≡ spec.fc_map word.now }
{
    let mut bytes = [0; 3];
    if !read_octets(word, &mut bytes) {
        return None;
    }
    let map = u32::from_be_bytes([0, bytes[0], bytes[1], bytes[2]]);
    if map >= 0x0efc00 && map <= 0x0efcff {
        Some(map)
    } else {
        None
    }
}
