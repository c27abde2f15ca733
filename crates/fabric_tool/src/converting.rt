//! The command `convert`.
ghost use Rattle.std.specs.Prelude.{◌≡◌, true, codes};
ghost use Rattle.fabric_tool.specs.Command as spec;
ghost use Rattle.fabric_tool.specs.Ends.{Holds, TouchesOwn};
ghost use Rattle.fabric_tool.specs.Outcome.{kind_of};
ghost use Rattle.fabric_tool.specs.Reading.{unconverted_by};

use crate::limits::{MOST_BYTES, MOST_FRAMES};
use crate::outcome::Outcome;
use fab_base::{Depot, word_at};
use pcap_file::{Budget, LimitKind};
use pcapng_file::{ConvertError, NgError, NgLimit, convert};
use std::alloc::Global;

/// Writes the packets of a pcapng file as a classic capture. The file is read whole before the
/// capture is opened.
pub(crate) fn convert_file<D: Depot>(alloc: Global, words: &[String], depot: &mut D) -> Outcome
    requires convert { spec.is_pair (codes "convert") words.now ≡ true }
    requires known { spec.AllKnown (D.seen depot.old) words.now }
    ensures holds { Holds (spec.Convert (spec.pair_of words.now))
        (D.seen depot.old) (D.seen depot.new) result }
    ensures touches { TouchesOwn (spec.Convert (spec.pair_of words.now))
        (D.seen depot.old) (D.seen depot.new) }
{
    let limits = Budget {
        bytes: MOST_BYTES,
        frames: MOST_FRAMES,
    };
    match convert(alloc, depot, word_at(words, 1), word_at(words, 2), limits) {
        Ok(records) => Outcome::Converted { records },
        Err(ConvertError::Input(error)) => unconverted(error),
        Err(ConvertError::Write(_)) => Outcome::WriteFault,
    }
}

fn unconverted(error: NgError) -> Outcome
    ensures { result ≡ unconverted_by error }
{
    match error {
        NgError::Fault { at, why } => Outcome::BadBlock { at, why },
        NgError::Limit(limit) => Outcome::Limit { kind: kind(limit) },
        NgError::Read(_) => Outcome::ReadFault,
        NgError::Memory => Outcome::Memory,
    }
}

fn kind(limit: NgLimit) -> LimitKind
    ensures { result ≡ kind_of limit }
{
    match limit {
        NgLimit::Bytes => LimitKind::Bytes,
        NgLimit::Frames => LimitKind::Frames,
    }
}
