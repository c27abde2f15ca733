//! Decimal numbers.
ghost use Rattle.std.specs.Prelude.{◌≡◌, ◌≤◌, ◌<◌, ◌^◌, IfSome};
ghost use Rattle.fab_config.specs.Values as spec;
ghost use Rattle.fab_config.specs.Lines.{words};

use crate::words::only_word;

/// The number that a word says, where it is between these.
pub(crate) fn number_between(word: &[u8], least: u64, most: u64) -> Option<u64>
    requires { most < 2 ^ 60 }
    ensures value { result ≡ spec.number_between least most word.now }
    ensures range { IfSome result (λ n. n ≤ most) }
{
    if word.is_empty() || word.len() > 1 && word[0] == b'0' {
        return None;
    }
    let number = value_up_to(word, most)?;
    if number >= least { Some(number) } else { None }
}

// The value of decimal digits, where it isn't above `most`.
fn value_up_to(word: &[u8], most: u64) -> Option<u64>
    requires { most < 2 ^ 60 }
    ensures { result ≡ spec.value_up_to most word.now }
{
    let mut value = 0u64;
    for digit in word {
        if *digit < b'0' || *digit > b'9' {
            return None;
        }
        value = 10 * value + u64::from(*digit - b'0');
        if value > most {
            return None;
        }
    }
    Some(value)
}

/// The number that a line's only word says, where it is between these.
pub(crate) fn only_number(values: &[u8], least: u32, most: u32) -> Option<u32>
    ensures { result ≡ spec.only (spec.number_between least most) (words values.now) }
{
    let word = only_word(values)?;
    let number = number_between(word, u64::from(least), u64::from(most))?;
    Some(number as u32)
}
