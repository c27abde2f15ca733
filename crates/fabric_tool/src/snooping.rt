//! The command `snoop`.
ghost use Rattle.std.specs.Prelude.{◌≡◌, true};
ghost use Rattle.fabric_tool.specs.Command as spec;
ghost use Rattle.fabric_tool.specs.Ends.{Holds, TouchesOwn};
ghost use Rattle.fabric_tool.specs.Opening.{crossed_by};

use crate::command::sides_of;
use crate::inputs::config_of;
use crate::limits::{MOST_BYTES, MOST_FRAMES};
use crate::outcome::Outcome;
use crate::running::stopped;
use fab_base::{Depot, word_at};
use fip_snoop::{data_goes_down, data_goes_up, enodes_are_apart};
use pcap_file::Budget;
use run_files::RunFault;
use side_runs::{Crossed, run_bridge};
use std::alloc::Global;

/// Lets the frames of all captures cross a bridge, and writes those of each port. All inputs are
/// read whole before an output is opened.
pub(crate) fn snoop<D: Depot>(alloc: Global, words: &[String], depot: &mut D) -> Outcome
    requires snoop { spec.is_snoop words.now ≡ true }
    requires known { spec.AllKnown (D.seen depot.old) words.now }
    ensures holds { Holds (spec.Snoop (spec.snoop_of words.now))
        (D.seen depot.old) (D.seen depot.new) result }
    ensures touches { TouchesOwn (spec.Snoop (spec.snoop_of words.now))
        (D.seen depot.old) (D.seen depot.new) }
{
    // Law: data goes up and down exactly by logins, and no ENode gets what another one sent;
    // HasSnooped says so too.
    data_goes_up();
    data_goes_down();
    enodes_are_apart();
    let config = match config_of(alloc, depot, word_at(words, 1)) {
        Ok(config) => config,
        Err(outcome) => return outcome,
    };
    let limits = Budget {
        bytes: MOST_BYTES,
        frames: MOST_FRAMES,
    };
    crossed(run_bridge(alloc, depot, &config, sides_of(words), limits))
}

// How the end of a bridge ends the command.
fn crossed(end: Result<Crossed, RunFault>) -> Outcome
    ensures { result ≡ crossed_by end }
{
    match end {
        Ok(crossed) => Outcome::Bridged {
            passed: crossed.passed,
            dropped: crossed.dropped,
        },
        Err(fault) => stopped(&fault),
    }
}
