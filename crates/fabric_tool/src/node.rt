//! The command `enode`.
ghost use Rattle.std.specs.Prelude.{◌≡◌, ◌≤◌, true};
ghost use Rattle.fabric_tool.specs.Command as spec;
ghost use Rattle.fabric_tool.specs.Ends.{Holds, TouchesOwn};
ghost use Rattle.fabric_tool.specs.Opening.{stood_by};

use crate::limits::{MOST_BYTES, MOST_FRAMES};
use crate::outcome::Outcome;
use crate::running::stopped;
use enode_core::{Identity, Phase};
use fab_base::{Depot, Moment, word_at};
use pcap_file::Budget;
use run_files::RunFault;
use side_runs::run_node;
use std::alloc::Global;

/// Runs a node over the frames that its port receives, and writes what it sends. The input is read
/// whole before the output is opened.
pub(crate) fn enode<D: Depot>(
    alloc: Global,
    start: Moment,
    own: Identity,
    words: &[String],
    depot: &mut D,
) -> Outcome
    requires start { start ≤ 4294967295999 }
    requires enode { spec.is_enode words.now ≡ true }
    requires known { spec.AllKnown (D.seen depot.old) words.now }
    ensures holds { Holds (spec.Enode (spec.enode_of start own words.now))
        (D.seen depot.old) (D.seen depot.new) result }
    ensures touches { TouchesOwn (spec.Enode (spec.enode_of start own words.now))
        (D.seen depot.old) (D.seen depot.new) }
{
    let limits = Budget {
        bytes: MOST_BYTES,
        frames: MOST_FRAMES,
    };
    let (from, to) = (word_at(words, 5), word_at(words, 6));
    stood(run_node(alloc, depot, from, to, start, own, limits))
}

// How the end of a node's run ends the command.
fn stood(end: Result<Phase, RunFault>) -> Outcome
    ensures { result ≡ stood_by end }
{
    match end {
        Ok(phase) => Outcome::Stood { phase },
        Err(fault) => stopped(&fault),
    }
}
