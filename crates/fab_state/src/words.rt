//! The words of a line, read generously: a word that spells a value gives that value, and any other
//! word gives some value. Who reads so writes the value again, and compares.
ghost use Rattle.std.specs.Prelude.{◌≡◌, ◌++◌, ◌∷◌, ◌<◌, ◌^◌, ◌≤◌, [], true, ℕ, List, Option, IfOk, IfSome, length, take, drop, decimal, slice_get, unwrap_or};
ghost use Rattle.std.specs.List.{list_all};
ghost use Rattle.fab_base.specs.Texts.{hex_bytes};
ghost use Rattle.fab_policy.specs.Private.LineWords.{Ends, IsWord, is_inside};
ghost use Rattle.fab_policy.specs.Text.{address_word};
ghost use Rattle.fab_pieces.specs.Seam as spec;
ghost use Rattle.fab_state.specs.Words.{EndsLine, IsLine, first_of, is_no_feed};

use fab_base::{Bytes, FcId, Mac, NoMemory, PortNo, Wwn};
use hex::FromHexError;
use std::alloc::Global;
use std::str::from_utf8;

/// The first line of a text with its line feed, and the text behind it.
pub(crate) fn cut_line(text: &[u8]) -> (&[u8], &[u8])
    ensures less { 0 < length text.now → length result.1.now < length text.now }
    ensures line { (ws : List (List ℕ)) (more : List ℕ) → IsLine ws
        → text.now ≡ spec.row_text ws ++ more
        → (result.0.now ≡ spec.row_text ws) × (result.1.now ≡ more) }
{
    let end = feed_at(text);
    if end < text.len() {
        text.split_at(end + 1)
    } else {
        text.split_at(end)
    }
}

// The place of the first line feed, or the length.
fn feed_at(text: &[u8]) -> usize
    ensures bound { result ≤ length text.now }
    ensures inside { list_all is_no_feed (take result text.now) ≡ true }
    ensures ends { EndsLine (drop result text.now) }
{
    for (i, byte) in text.iter().enumerate() {
        if *byte == b'\n' {
            return i;
        }
    }
    text.len()
}

/// The word at a place of a line, counted from 0; none behind the last.
pub(crate) fn word_at(line: &[u8], place: usize) -> &[u8]
    ensures { (ws : List (List ℕ)) → IsLine ws → line.now ≡ spec.row_text ws
        → result.now ≡ unwrap_or (slice_get ws place) [] }
{
    let mut rest = line;
    for index in 0..place {
        rest = split_word(rest).1;
    }
    split_word(rest).0
}

// The first word, and what is behind the byte that ends it.
fn split_word(line: &[u8]) -> (&[u8], &[u8])
    ensures some { (w : List ℕ) (ws : List (List ℕ)) → IsWord w
        → line.now ≡ spec.row_text (w ∷ ws)
        → (result.0.now ≡ w) × (result.1.now ≡ spec.row_text ws) }
    ensures none { line.now ≡ [] → (result.0.now ≡ []) × (result.1.now ≡ []) }
{
    let (word, rest) = line.split_at(word_len(line));
    match rest.split_first() {
        Some((_, behind)) => (word, behind),
        None => (word, rest),
    }
}

// The length of the word at the beginning.
fn word_len(line: &[u8]) -> usize
    ensures bound { result ≤ length line.now }
    ensures inside { IsWord (take result line.now) }
    ensures ends { Ends (drop result line.now) }
{
    for (i, byte) in line.iter().enumerate() {
        if !is_inside(*byte) {
            return i;
        }
    }
    line.len()
}

fn is_inside(byte: u8) -> bool
    ensures { result ≡ is_inside byte }
{
    byte != b' ' && byte != b'\n'
}

/// The number of a word in decimal digits.
pub(crate) fn number_of(word: &[u8]) -> u64
    ensures { (n : ℕ) → n < 2 ^ 64 → word.now ≡ decimal n → result ≡ n }
{
    match from_utf8(word) {
        Ok(text) => value_of(text),
        Err(_) => 0,
    }
}

fn value_of(text: &str) -> u64
    ensures { (n : ℕ) → n < 2 ^ 64 → text.now ≡ decimal n → result ≡ n }
{
    match text.parse::<u64>() {
        Ok(value) => value,
        Err(_) => 0,
    }
}

/// The number of a word that may be missing.
pub(crate) fn may_number_of(word: &[u8]) -> Option<u64>
    ensures { (o : Option ℕ) → IfSome o spec.IsLong → word.now ≡ first_of (spec.may_word o)
        → result ≡ o }
{
    if word.is_empty() {
        None
    } else {
        Some(number_of(word))
    }
}

/// The bytes of a word of two digits a byte, where it is as long as that.
pub(crate) fn read_digits(word: &[u8], bytes: &mut [u8])
    ensures { (bs : List ℕ) → spec.AreBelow 256 bs → length bs ≡ length bytes.old
        → word.now ≡ hex_bytes bs → bytes.new ≡ bs }
{
    // Another word leaves some bytes, of which nobody asks.
    hex::decode_to_slice(word, bytes).ok();
}

/// The address of a word of six digits.
pub(crate) fn address_of(word: &[u8]) -> FcId
    ensures { (a : ℕ) → a < 2 ^ 24 → word.now ≡ address_word a → result ≡ a }
{
    let mut bytes = [0; 3];
    read_digits(word, &mut bytes);
    address_of_number(u32::from_be_bytes([0, bytes[0], bytes[1], bytes[2]]))
}

fn address_of_number(number: u32) -> FcId
    ensures { number < 2 ^ 24 → result ≡ number }
{
    match FcId::new(number) {
        Some(address) => address,
        None => FcId::new(0).unwrap(),
    }
}

/// The name of a word of sixteen digits.
pub(crate) fn name_of(word: &[u8]) -> Wwn
    ensures { (n : ℕ) → n < 2 ^ 64 → word.now ≡ spec.name_word n → result ≡ n }
{
    let mut bytes = [0; 8];
    read_digits(word, &mut bytes);
    Wwn(u64::from_be_bytes(bytes))
}

/// The MAC of a word of twelve digits.
pub(crate) fn mac_of(word: &[u8]) -> Mac
    ensures { (mac : List ℕ) → length mac ≡ 6 → spec.AreBelow 256 mac
        → word.now ≡ spec.bytes_word mac → result ≡ mac }
{
    let mut bytes = [0; 6];
    read_digits(word, &mut bytes);
    Mac(bytes)
}

/// The port of a word.
pub(crate) fn port_of(word: &[u8]) -> PortNo
    ensures { (p : ℕ) → 1 ≤ p → p ≤ 64 → word.now ≡ decimal p → result ≡ p }
{
    port_of_number(number_of(word))
}

fn port_of_number(number: u64) -> PortNo
    ensures { 1 ≤ number → number ≤ 64 → result ≡ number }
{
    if number >= 1 && number <= 64 {
        PortNo::new(number as u32).unwrap()
    } else {
        PortNo::at(0)
    }
}

/// The bytes of a word of two digits a byte, or of a dash.
pub(crate) fn bytes_of(alloc: Global, word: &[u8]) -> Result<Bytes, NoMemory>
    ensures { IfOk result (λ b. (bs : List ℕ) → spec.AreBelow 256 bs
        → word.now ≡ spec.bytes_word bs → b ≡ bs) }
{
    match hex::decode(alloc, word) {
        Ok(bytes) => Ok(Bytes::from_vec(bytes)),
        Err(FromHexError::OutOfMemory) => Err(NoMemory),
        Err(FromHexError::OddLength) => Bytes::copy(alloc, &[]),
        Err(FromHexError::InvalidStringLength) => Bytes::copy(alloc, &[]),
        Err(FromHexError::InvalidHexCharacter { .. }) => Bytes::copy(alloc, &[]),
    }
}
