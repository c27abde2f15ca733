//! The next window of captures, which may start too long after the first.
ghost use Rattle.std.specs.Prelude.{◌≡◌, ◌≤◌, Some, length};
ghost use Rattle.window_records.specs.First.{IsNextWindow};
ghost use Rattle.window_records.specs.Gather.{Gathers};
ghost use Rattle.window_records.specs.Ports.{AreInputs, AreReady, slots_of, walk_at};

use crate::{GatherFault, Input, LimitKind, Shelf, looks_to_come, take_windows};
use fab_base::Depot;
use fab_config::Config;
use pcap_file::{Budget, MOST_SPAN};
use std::alloc::Global;

/// Takes the records of the next window, unless it starts more than the most span of milliseconds
/// after the first one. On Err the shelves hold some of them.
pub fn gather<D: Depot>(
    alloc: Global,
    depot: &mut D,
    config: &Config,
    first: u64,
    window: u64,
    ins: &mut [Input],
    shelves: &mut [Shelf],
    budget: &mut Budget,
) -> Result<(), GatherFault>
    requires count { length shelves.old ≡ length ins.old }
    requires ports { length ins.old ≤ 64 }
    requires inputs { AreInputs (D.seen depot.old) (slots_of ins.old) }
    requires ready { AreReady config.now window ins.old shelves.old budget.old }
    requires next { IsNextWindow config.now shelves.old (Some window) }
    ensures gathers { Gathers config.now first window
        (walk_at (D.seen depot.old) ins.old shelves.old budget.old)
        (walk_at (D.seen depot.new) ins.new shelves.new budget.new) result }
{
    // Law: where the next window is too late, what is still to be read stops there, as it says.
    looks_to_come();
    if window.saturating_sub(first) > MOST_SPAN {
        return Err(GatherFault::Limit(LimitKind::Span));
    }
    take_windows(alloc, depot, config, window, ins, shelves, budget)
}
