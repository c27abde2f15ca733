//! The verdict of a line's last words.
ghost use Rattle.std.specs.Prelude.{◌≡◌, ◌∷◌, ◌≤◌, ◌<◌, ◌^◌, [], ℕ, List, Option, Some, None};
ghost use Rattle.std.specs.Prelude.{MatchBool, is_some, codes};
ghost use Rattle.fab_policy.specs.Cause.{is_numbered};
ghost use Rattle.fab_policy.specs.Ranged.{IsRangedVerdict};
ghost use Rattle.fab_policy.specs.Private.LineWords.{Ends, Finds, IsSpelledAfter, IsWord, NamesAddress};
ghost use Rattle.fab_policy.specs.Private.LineWords.{NamesCodes, NamesNumber, verdict_words};
ghost use Rattle.fab_policy.specs.Text.{LINE_FEED, rule_word};

use crate::words::{is, next_word, number_up_to, read_address, read_code, read_port, read_rule};
use crate::{Dropped, Verdict};

/// The verdict that ends a line.
pub(crate) fn read_verdict(text: &[u8]) -> Option<Verdict>
    ensures { Finds (λ v. IsRangedVerdict v × IsSpelledAfter [] text.now v) result }
{
    match next_word(text) {
        Some((word, rest)) => verdict_of_one(word, rest),
        None => None,
    }
}

fn verdict_of_one(word: &[u8], rest: &[u8]) -> Option<Verdict>
    ensures { Finds (λ v. IsRangedVerdict v × IsSpelledAfter (word.now ∷ []) rest.now v) result }
{
    if is_end(rest) {
        return read_one(word);
    }
    match next_word(rest) {
        Some((second, rest)) => verdict_of_two(word, second, rest),
        None => None,
    }
}

fn verdict_of_two(word: &[u8], second: &[u8], rest: &[u8]) -> Option<Verdict>
    ensures { Finds (λ v.
        IsRangedVerdict v × IsSpelledAfter (word.now ∷ second.now ∷ []) rest.now v) result }
{
    if is_end(rest) {
        return read_two(word, second);
    }
    match next_word(rest) {
        Some((third, rest)) => verdict_of_three(word, second, third, rest),
        None => None,
    }
}

fn verdict_of_three(word: &[u8], second: &[u8], third: &[u8], rest: &[u8]) -> Option<Verdict>
    ensures { Finds (λ v.
        IsRangedVerdict v
        × IsSpelledAfter (word.now ∷ second.now ∷ third.now ∷ []) rest.now v) result }
{
    if is_end(rest) {
        read_three(word, second, third)
    } else {
        None
    }
}

/// Whether only the line feed is left.
pub(crate) fn is_end(rest: &[u8]) -> bool
    ensures { MatchBool result (rest.now ≡ LINE_FEED ∷ []) (rest.now ≡ LINE_FEED ∷ [] → ⊥) }
{
    rest == b"\n".as_slice()
}

fn read_one(word: &[u8]) -> Option<Verdict>
    ensures { Finds (λ v. IsRangedVerdict v × (verdict_words v ≡ word.now ∷ [])) result }
{
    if is(word, "vlans") {
        Some(Verdict::Vlans)
    } else if is(word, "advertised") {
        Some(Verdict::Advertised)
    } else if is(word, "alive") {
        Some(Verdict::AliveNode)
    } else if is(word, "ns-login") {
        Some(Verdict::NsLogin)
    } else if is(word, "ns-logout") {
        Some(Verdict::NsLogout)
    } else if is(word, "registered") {
        Some(Verdict::Registered)
    } else if is(word, "answered") {
        Some(Verdict::Answered)
    } else if is(word, "noted") {
        Some(Verdict::Noted)
    } else {
        None
    }
}

fn read_two(word: &[u8], second: &[u8]) -> Option<Verdict>
    ensures { Finds (λ v.
        IsRangedVerdict v × (verdict_words v ≡ word.now ∷ second.now ∷ [])) result }
{
    if is(word, "dropped") {
        return match read_dropped(second, None) {
            Some(dropped) => Some(Verdict::Dropped(dropped)),
            None => None,
        };
    }
    match read_with_address(word, second) {
        Some(verdict) => Some(verdict),
        None => read_with_number(word, second),
    }
}

fn read_three(word: &[u8], second: &[u8], third: &[u8]) -> Option<Verdict>
    ensures { Finds (λ v.
        IsRangedVerdict v × (verdict_words v ≡ word.now ∷ second.now ∷ third.now ∷ [])) result }
{
    if is(word, "dropped") {
        read_numbered(second, third)
    } else {
        read_with_codes(word, second, third)
    }
}

fn read_with_address(word: &[u8], second: &[u8]) -> Option<Verdict>
    ensures { Finds (λ v.
        NamesAddress v × IsRangedVerdict v
        × (verdict_words v ≡ word.now ∷ second.now ∷ [])) result }
{
    match read_address(second) {
        Some(address) => {
            if is(word, "granted") {
                Some(Verdict::Granted(address))
            } else if is(word, "logout") {
                Some(Verdict::Logout(address))
            } else if is(word, "alive") {
                Some(Verdict::AlivePort(address))
            } else {
                None
            }
        }
        None => None,
    }
}

fn read_with_number(word: &[u8], second: &[u8]) -> Option<Verdict>
    ensures { Finds (λ v.
        NamesNumber v × IsRangedVerdict v
        × (verdict_words v ≡ word.now ∷ second.now ∷ [])) result }
{
    if is(word, "watching") {
        match number_up_to(second, 255) {
            Some(function) => Some(Verdict::Watching(function as u8)),
            None => None,
        }
    } else if is(word, "forwarded") {
        match read_port(second) {
            Some(port) => Some(Verdict::Forwarded(port)),
            None => None,
        }
    } else {
        None
    }
}

fn read_with_codes(word: &[u8], second: &[u8], third: &[u8]) -> Option<Verdict>
    ensures { Finds (λ v.
        NamesCodes v × IsRangedVerdict v
        × (verdict_words v ≡ word.now ∷ second.now ∷ third.now ∷ [])) result }
{
    let Some(reason) = read_code(second) else {
        return None;
    };
    match read_code(third) {
        Some(explanation) => {
            if is(word, "rejected") {
                Some(Verdict::Rejected(reason, explanation))
            } else if is(word, "refused") {
                Some(Verdict::Refused(reason, explanation))
            } else {
                None
            }
        }
        None => None,
    }
}

// A rule that has a number.
fn read_numbered(rule: &[u8], number: &[u8]) -> Option<Verdict>
    ensures { Finds (λ v.
        IsRangedVerdict v
        × (verdict_words v ≡ codes "dropped" ∷ rule.now ∷ number.now ∷ [])) result }
{
    match number_up_to(number, 0xffff_ffff) {
        Some(number) => match read_dropped(rule, Some(number as u32)) {
            Some(dropped) => Some(Verdict::Dropped(dropped)),
            None => None,
        },
        None => None,
    }
}

fn read_dropped(rule: &[u8], number: Option<u32>) -> Option<Dropped>
    ensures { Finds (λ c.
        (rule.now ≡ rule_word c.rule) × (c.number ≡ number)
        × (is_some c.number ≡ is_numbered c.rule)) result }
{
    match read_rule(rule) {
        Some(rule) => Dropped::new(rule, number),
        None => None,
    }
}
