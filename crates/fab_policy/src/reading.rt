//! The lines of a journal, read.
ghost use Rattle.std.specs.Prelude.{◌≡◌, ◌+◌, ◌≤◌, ◌<◌, ◌^◌, ℕ, List, Option, None, Some, map};
ghost use Rattle.std.specs.Prelude.{IfOk, IfErr};
ghost use Rattle.fab_policy.specs.Ranged.{AscendFrom};
ghost use Rattle.fab_policy.specs.Spelling.{Spells};
ghost use Rattle.fab_policy.specs.Private.LineWords.{Finds, IsFrameOf, IsTickOf, rest_of};
ghost use Rattle.fab_policy.specs.Text.{address_word};

use crate::verdict_words::{is_end, read_verdict};
use crate::words::{first_word, is, next_word, read_address, read_number, read_port};
use crate::{Format, Line};
use fab_base::{FcId, IdList, Moment};
use std::alloc::Global;
use thiserror::Error;

/// Why no line is read.
#[derive(Clone, Copy, Debug, PartialEq, Eq, Error)]
pub enum LineError {
    /// The text is no line's one spelling.
    #[error("the text is no line of a journal")]
    Fault,
    #[error("memory was refused")]
    Memory,
}

/// The line that a text spells in a format. Its line feed belongs to it.
pub fn read_line(alloc: Global, format: Format, text: &[u8]) -> Result<Line, LineError>
    ensures ok { IfOk result (λ l. Spells format text.now l) }
    ensures fault { IfErr result (λ e.
        e ≡ LineError.Fault → (l : Line) → Spells format text.now l → ⊥) }
{
    match format {
        Format::One => read_plain(alloc, text),
        Format::Two => read_clocked(alloc, text),
    }
}

fn read_plain(alloc: Global, text: &[u8]) -> Result<Line, LineError>
    ensures ok { IfOk result (λ l. Spells Format.One text.now l) }
    ensures fault { IfErr result (λ e.
        e ≡ LineError.Fault → (l : Line) → Spells Format.One text.now l → ⊥) }
{
    let (word, rest) = first_word(text);
    if is(word, "tick") {
        return match next_word(rest) {
            Some((moment, rest)) => read_tick(alloc, moment, rest),
            None => Err(LineError::Fault),
        };
    }
    match read_frame(word, rest, None) {
        Some(line) => Ok(line),
        None => Err(LineError::Fault),
    }
}

fn read_clocked(alloc: Global, text: &[u8]) -> Result<Line, LineError>
    ensures ok { IfOk result (λ l. Spells Format.Two text.now l) }
    ensures fault { IfErr result (λ e.
        e ≡ LineError.Fault → (l : Line) → Spells Format.Two text.now l → ⊥) }
{
    let (clock, rest) = first_word(text);
    let Some((word, rest)) = next_word(rest) else {
        return Err(LineError::Fault);
    };
    if is(word, "tick") {
        return read_tick(alloc, clock, rest);
    }
    let Some(clock) = read_number(clock) else {
        return Err(LineError::Fault);
    };
    match read_frame(word, rest, Some(Moment(clock))) {
        Some(line) => Ok(line),
        None => Err(LineError::Fault),
    }
}

// A tick of this moment, and its addresses.
fn read_tick(alloc: Global, moment: &[u8], rest: &[u8]) -> Result<Line, LineError>
    ensures ok { IfOk result (λ l. IsTickOf moment.now rest.now l) }
    ensures fault { IfErr result (λ e.
        e ≡ LineError.Fault → (l : Line) → IsTickOf moment.now rest.now l → ⊥) }
{
    let Some(moment) = read_number(moment) else {
        return Err(LineError::Fault);
    };
    match read_addresses(alloc, rest) {
        Ok(ended) => Ok(Line::Tick {
            moment: Moment(moment),
            ended,
        }),
        Err(fault) => Err(fault),
    }
}

// A frame of this port, its index and its verdict.
fn read_frame(word: &[u8], rest: &[u8], clock: Option<Moment>) -> Option<Line>
    ensures { Finds (λ l. IsFrameOf word.now rest.now clock l) result }
{
    let Some(port) = read_port(word) else {
        return None;
    };
    let Some((index, rest)) = next_word(rest) else {
        return None;
    };
    let Some(index) = read_number(index) else {
        return None;
    };
    match read_verdict(rest) {
        Some(verdict) => Some(Line::Frame {
            port,
            index,
            verdict,
            clock,
        }),
        None => None,
    }
}

// Addresses that ascend strictly, each after a space, up to the line feed.
fn read_addresses(alloc: Global, text: &[u8]) -> Result<IdList, LineError>
    ensures ok { IfOk result (λ l. AscendFrom 0 l × (text.now ≡ rest_of (map address_word l))) }
    ensures fault { IfErr result (λ e.
        e ≡ LineError.Fault → (l : List ℕ) → AscendFrom 0 l →
        text.now ≡ rest_of (map address_word l) → ⊥) }
{
    let Ok(mut ended) = IdList::new(alloc) else {
        return Err(LineError::Memory);
    };
    let mut rest = text;
    let mut least = 0;
    'words: while let Some((word, behind)) = next_word(rest) {
        let Some(address) = address_from(word, least) else {
            return Err(LineError::Fault);
        };
        let Ok(()) = ended.push(alloc, address) else {
            return Err(LineError::Memory);
        };
        least = address.value() + 1;
        rest = behind;
    }
    if is_end(rest) {
        Ok(ended)
    } else {
        Err(LineError::Fault)
    }
}

// The address that a word spells, if it isn't below `least`.
fn address_from(word: &[u8], least: u32) -> Option<FcId>
    ensures { Finds (λ a. (least ≤ a) × (a < 2 ^ 24) × (word.now ≡ address_word a)) result }
{
    match read_address(word) {
        Some(address) => {
            if address.value() >= least {
                Some(address)
            } else {
                None
            }
        }
        None => None,
    }
}
