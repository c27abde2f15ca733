//! The CRC of FC frames (FC-FS-3), the same as that of IEEE 802.3.
#![tactic(auto)]

ghost use Rattle.std.specs.Prelude.{◌≡◌, ◌≤◌, ◌+◌, Bool, List, length, drop};
ghost use Rattle.fc_check.specs.Crc as spec;
ghost use Rattle.fc_check.specs.Crc.{number_of};
ghost use Rattle.fc_check.specs.Tables.{four_at, words_of, register_after};

mod division;
mod table;

use division::{begin, divide, rest_of, zeros};
use table::AFTER;

/// The CRC of these bytes. It takes no memory.
pub fn crc32(bytes: &[u8]) -> u32
    ensures crc { result ≡ spec.crc bytes.now }
{
    if bytes.len() < 640 {
        return !fed(u32::MAX, bytes, 0);
    }
    let count = (bytes.len() - 288).min(1648);
    let mut room = zeros();
    begin(&mut room);
    divide(&mut room, bytes, count);
    let rest = rest_of(&room, bytes, count);
    !fed(fed(0, &rest, 0), bytes, count + 288)
}

// The register after the bytes from a place on.
fn fed(register: u32, bytes: &[u8], from: usize) -> u32
    requires { from ≤ length bytes.now }
    ensures { (bits : List Bool) → length bits ≡ 32 → number_of bits ≡ register
        → result ≡ register_after bits (drop from bytes.now) }
{
    let mut turned = register;
    let mut at = from;
    while at < bytes.len() {
        if bytes.len() - at >= 16 {
            let late = four_words(word_at(bytes, at + 4), 8)
                ^ four_words(word_at(bytes, at + 8), 4)
                ^ four_words(word_at(bytes, at + 12), 0);
            // What the register waits for comes last.
            turned = late ^ four_words(turned ^ word_at(bytes, at), 12);
            at += 16;
        } else {
            turned = AFTER[0][((turned ^ u32::from(bytes[at])) & 0xff) as usize] ^ (turned >> 8);
            at += 1;
        }
    }
    turned
}

// Four bytes as a number, the first the least significant.
fn word_at(bytes: &[u8], at: usize) -> u32
    requires { at + 4 ≤ length bytes.now }
    ensures { result ≡ four_at bytes.now at }
{
    u32::from_le_bytes([bytes[at], bytes[at + 1], bytes[at + 2], bytes[at + 3]])
}

// The register that the bits of a number leave behind in an empty one, where so many bytes of zeros
// follow them.
fn four_words(number: u32, after: usize) -> u32
    requires { after ≤ 12 }
    ensures { result ≡ words_of after number }
{
    AFTER[after + 3][(number & 0xff) as usize]
        ^ AFTER[after + 2][((number >> 8) & 0xff) as usize]
        ^ AFTER[after + 1][((number >> 16) & 0xff) as usize]
        ^ AFTER[after][((number >> 24) & 0xff) as usize]
}

/// The bytes of a CRC as they stand behind a frame, the least significant first.
pub fn crc_bytes(value: u32) -> [u8; 4]
    ensures bytes { result ≡ spec.crc_bytes value }
{
    value.to_le_bytes()
}
