//! What a word says.
ghost use Rattle.std.specs.Prelude.{◌≡◌, ◌≤◌, ◌+◌, ◌*◌, ◌-◌, Ok, IfOk};
ghost use Rattle.case_lines.specs.Values as spec;
ghost use Rattle.hex.specs.Hex.{decode_of};

use hex::FromHexError;
use std::alloc::Global;

/// The number that a word's decimal digits say, where it is below 2 ^ 64.
pub fn number_of(word: &[u8]) -> Option<u64>
    ensures { result ≡ spec.number_of word.now }
{
    if word.is_empty() {
        return None;
    }
    value_of(word)
}

fn value_of(word: &[u8]) -> Option<u64>
    ensures { result ≡ spec.value_of word.now }
{
    let mut value = 0u64;
    for digit in word {
        let Some(more) = with_digit(value, *digit) else {
            return None;
        };
        value = more;
    }
    Some(value)
}

// A digit behind those of a number.
fn with_digit(value: u64, digit: u8) -> Option<u64>
    ensures { result ≡ spec.with_digit value digit }
{
    if digit < b'0' || digit > b'9' {
        return None;
    }
    value.checked_mul(10)?.checked_add(u64::from(digit - b'0'))
}

/// The bytes that a word's hexadecimal digits say; the word - says none.
pub fn bytes_of(alloc: Global, word: &[u8]) -> Result<Vec<u8>, FromHexError>
    ensures { IfOk result (λ bytes. decode_of (spec.digits_of word.now) ≡ Ok bytes.items) }
{
    if is_none(word) {
        hex::decode(alloc, b"".as_slice())
    } else {
        hex::decode(alloc, word)
    }
}

// The word -.
fn is_none(word: &[u8]) -> bool
    ensures { result ≡ spec.is_none word.now }
{
    word.len() == 1 && word[0] == b'-'
}
