//! The number of a load, and the moment that a node starts at.
ghost use Rattle.std.specs.Prelude.{◌≡◌, MatchBool};
ghost use Rattle.fab_policy.specs.Private.LineWords.{IsShortest};
ghost use Rattle.fabric_tool.specs.Command as spec;

use fab_base::Moment;
use fab_config::LAST_MOMENT;

/// The moment that a word spells as a number, no later than a capture can have.
pub(crate) fn start_of(word: &str) -> Option<Moment>
    ensures { result ≡ spec.start_of word.now }
{
    let number = number_of(word)?;
    if number <= LAST_MOMENT {
        Some(Moment(number))
    } else {
        None
    }
}

/// The number below 2^64 that a word spells in decimal digits, without a sign or a needless zero.
pub(crate) fn number_of(word: &str) -> Option<u64>
    ensures { result ≡ spec.number_of word.now }
{
    if !is_shortest(word.as_bytes()) {
        return None;
    }
    match word.parse::<u64>() {
        Ok(number) => Some(number),
        Err(_) => None,
    }
}

// No sign is there, and no needless zero.
fn is_shortest(word: &[u8]) -> bool
    ensures { MatchBool result (IsShortest word.now) (IsShortest word.now → ⊥) }
{
    if word.is_empty() || word[0] == b'+' {
        return false;
    }
    word[0] != b'0' || word.len() == 1
}
