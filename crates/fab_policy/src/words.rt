//! The words of a line: cut off, and read.
ghost use Rattle.std.specs.Prelude.{◌≡◌, ◌∷◌, ◌++◌, ◌≤◌, ◌<◌, ◌^◌, ℕ, List, Option, true, false};
ghost use Rattle.std.specs.Prelude.{length, take, drop, decimal, IfSome, IfNone, MatchBool};
ghost use Rattle.fab_policy.specs.Private.LineWords.{Ends, Finds, IsCut, IsNext, IsShortest, IsWord};
ghost use Rattle.fab_policy.specs.Private.LineWords.{SpellNone, is_inside};
ghost use Rattle.fab_policy.specs.Text.{SPACE, address_word, code_word, rule_word};
ghost use Rattle.fab_base.specs.Texts.{hex, hex_digit};

use crate::Rule;
use fab_base::{FcId, PortNo};
use std::str::from_utf8;

/// The word at the beginning of a text, and what is behind it.
pub(crate) fn first_word(text: &[u8]) -> (&[u8], &[u8])
    ensures { IsCut text.now result.0.now result.1.now }
{
    let end = word_end(text);
    (&text[..end], &text[end..])
}

/// The word behind a space at the beginning of a text, and what is behind it.
pub(crate) fn next_word(text: &[u8]) -> Option<(&[u8], &[u8])>
    ensures some { IfSome result (λ p. IsNext text.now p.0.now p.1.now) }
    ensures none { IfNone result ((more : List ℕ) → text.now ≡ SPACE ∷ more → ⊥) }
{
    if text.is_empty() || text[0] != b' ' {
        return None;
    }
    Some(first_word(&text[1..]))
}

// The length of the word at the beginning of a text.
fn word_end(text: &[u8]) -> usize
    ensures bound { result ≤ length text.now }
    ensures inside { IsWord (take result text.now) }
    ensures ends { Ends (drop result text.now) }
{
    for (i, byte) in text.iter().enumerate() {
        if !is_inside(*byte) {
            return i;
        }
    }
    text.len()
}

fn is_inside(byte: u8) -> bool
    ensures { result ≡ is_inside byte }
{
    byte != b' ' && byte != b'\n'
}

/// Whether a word is this one.
pub(crate) fn is(word: &[u8], text: &str) -> bool
    ensures { MatchBool result (word.now ≡ text.now) (word.now ≡ text.now → ⊥) }
{
    word == text.as_bytes()
}

/// The number that a word spells in decimal digits.
pub(crate) fn read_number(word: &[u8]) -> Option<u64>
    ensures { Finds (λ n. (n < 2 ^ 64) × (word.now ≡ decimal n)) result }
{
    if !is_shortest(word) {
        return None;
    }
    match from_utf8(word) {
        Ok(text) => value_of(text),
        Err(_) => None,
    }
}

// No sign is there, and no needless zero.
fn is_shortest(word: &[u8]) -> bool
    ensures { MatchBool result (IsShortest word.now) (IsShortest word.now → ⊥) }
{
    if word.is_empty() || word[0] == b'+' {
        return false;
    }
    word[0] != b'0' || word.len() == 1
}

fn value_of(text: &str) -> Option<u64>
    requires { IsShortest text.now }
    ensures { Finds (λ n. (n < 2 ^ 64) × (text.now ≡ decimal n)) result }
{
    match text.parse::<u64>() {
        Ok(value) => Some(value),
        Err(_) => None,
    }
}

/// The number that a word spells, where it isn't above `most`.
pub(crate) fn number_up_to(word: &[u8], most: u64) -> Option<u64>
    ensures { Finds (λ n. (n ≤ most) × (word.now ≡ decimal n)) result }
{
    match read_number(word) {
        Some(number) => { if number <= most { Some(number) } else { None } }
        None => None,
    }
}

/// The port that a word spells.
pub(crate) fn read_port(word: &[u8]) -> Option<PortNo>
    ensures { Finds (λ p. (1 ≤ p) × (p ≤ 64) × (word.now ≡ decimal p)) result }
{
    match read_number(word) {
        Some(number) => port_of(number),
        None => None,
    }
}

// The port of a number.
fn port_of(number: u64) -> Option<PortNo>
    ensures { Finds (λ p. (1 ≤ p) × (p ≤ 64) × (p ≡ number)) result }
{
    match u32::try_from(number) {
        Ok(number) => PortNo::new(number),
        Err(_) => None,
    }
}

/// The address that a word spells.
pub(crate) fn read_address(word: &[u8]) -> Option<FcId>
    ensures { Finds (λ a. (a < 2 ^ 24) × (word.now ≡ address_word a)) result }
{
    match read_digits(word, 6) {
        Some(number) => FcId::new(number),
        None => None,
    }
}

/// The code that a word spells.
pub(crate) fn read_code(word: &[u8]) -> Option<u8>
    ensures { Finds (λ b. (b < 256) × (word.now ≡ code_word b)) result }
{
    match read_digits(word, 2) {
        Some(number) => Some(number as u8),
        None => None,
    }
}

// The number of a word of so many digits.
fn read_digits(word: &[u8], count: usize) -> Option<u32>
    requires { count ≤ 6 }
    ensures { Finds (λ n. (n < 16 ^ count) × (word.now ≡ hex count n)) result }
{
    if word.len() != count {
        return None;
    }
    read_hex(word)
}

// The number of hexadecimal digits in lower case.
fn read_hex(word: &[u8]) -> Option<u32>
    requires { length word.now ≤ 6 }
    ensures { Finds (λ n.
        (n < 16 ^ length word.now) × (word.now ≡ hex (length word.now) n)) result }
{
    let mut value = 0;
    for byte in word {
        match digit_value(*byte) {
            Some(digit) => value = 16 * value + digit,
            None => return None,
        }
    }
    Some(value)
}

fn digit_value(byte: u8) -> Option<u32>
    ensures { Finds (λ d. (d < 16) × (byte ≡ hex_digit d)) result }
{
    if byte >= b'0' && byte <= b'9' {
        Some(u32::from(byte - b'0'))
    } else if byte >= b'a' && byte <= b'f' {
        Some(u32::from(byte - b'a') + 10)
    } else {
        None
    }
}

/// The word of a rule.
pub(crate) fn rule_text(rule: Rule) -> &'static str
    ensures word { result.now ≡ rule_word rule }
    ensures short { length result.now ≤ 17 }
{
    match rule {
        Rule::Truncated => "truncated",
        Rule::EthShort => "eth-short",
        Rule::Ethertype => "ethertype",
        Rule::FipShort => "fip-short",
        Rule::FipVersion => "fip-version",
        Rule::FipOperation => "fip-operation",
        Rule::FipList => "fip-list",
        Rule::FipLength => "fip-length",
        Rule::FipCritical => "fip-critical",
        Rule::FipDouble => "fip-double",
        Rule::FipMissing => "fip-missing",
        Rule::Vlan => "vlan",
        Rule::FipDest => "fip-dest",
        Rule::FipRole => "fip-role",
        Rule::FipMac => "fip-mac",
        Rule::ElsShort => "els-short",
        Rule::ElsKind => "els-kind",
        Rule::KeepaliveUnknown => "keepalive-unknown",
        Rule::FcoeLength => "fcoe-length",
        Rule::FcoeVersion => "fcoe-version",
        Rule::FcoeSof => "fcoe-sof",
        Rule::FcoeEof => "fcoe-eof",
        Rule::FcoeCrc => "fcoe-crc",
        Rule::FcoeClass => "fcoe-class",
        Rule::FcoeDest => "fcoe-dest",
        Rule::SourceMac => "source-mac",
        Rule::SourceLogin => "source-login",
        Rule::SourcePort => "source-port",
        Rule::ServiceAddress => "service-address",
        Rule::ServiceFrame => "service-frame",
        Rule::CtShort => "ct-short",
        Rule::OwnAddress => "self",
        Rule::DestLogin => "dest-login",
        Rule::Zone => "zone",
    }
}

/// All rules.
static RULES: [Rule; 34] = [
    Rule::Truncated,
    Rule::EthShort,
    Rule::Ethertype,
    Rule::FipShort,
    Rule::FipVersion,
    Rule::FipOperation,
    Rule::FipList,
    Rule::FipLength,
    Rule::FipCritical,
    Rule::FipDouble,
    Rule::FipMissing,
    Rule::Vlan,
    Rule::FipDest,
    Rule::FipRole,
    Rule::FipMac,
    Rule::ElsShort,
    Rule::ElsKind,
    Rule::KeepaliveUnknown,
    Rule::FcoeLength,
    Rule::FcoeVersion,
    Rule::FcoeSof,
    Rule::FcoeEof,
    Rule::FcoeCrc,
    Rule::FcoeClass,
    Rule::FcoeDest,
    Rule::SourceMac,
    Rule::SourceLogin,
    Rule::SourcePort,
    Rule::ServiceAddress,
    Rule::ServiceFrame,
    Rule::CtShort,
    Rule::OwnAddress,
    Rule::DestLogin,
    Rule::Zone,
];

/// The rule of a word.
pub(crate) fn read_rule(word: &[u8]) -> Option<Rule>
    ensures { Finds (λ r. word.now ≡ rule_word r) result }
{
    rule_among(&RULES, word)
}

// The first of these rules that is spelled so.
fn rule_among(rules: &[Rule], word: &[u8]) -> Option<Rule>
    ensures some { IfSome result (λ r. word.now ≡ rule_word r) }
    ensures none { IfNone result (SpellNone rules.now word.now) }
{
    for rule in rules {
        if is(word, rule_text(*rule)) {
            return Some(*rule);
        }
    }
    None
}
