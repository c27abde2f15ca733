//! The records of a window, taken of all ports in their order.
ghost use Rattle.std.specs.Prelude.{◌≡◌, ◌≤◌, length};
ghost use Rattle.window_records.specs.Gather.{TakesAll};
ghost use Rattle.window_records.specs.Ports.{AreInputs, AreReady, slots_of, walk_at};

use crate::port::take_window;
use crate::{GatherFault, Input, Shelf};
use fab_base::{Depot, PortNo};
use fab_config::Config;
use pcap_file::Budget;
use std::alloc::Global;

/// Takes the records of a window of each port, in port order, in place of those on its shelf, and
/// looks at one further of each. On Err the shelves hold some of them.
pub fn take_windows<D: Depot>(
    alloc: Global,
    depot: &mut D,
    config: &Config,
    window: u64,
    ins: &mut [Input],
    shelves: &mut [Shelf],
    budget: &mut Budget,
) -> Result<(), GatherFault>
    requires count { length ins.old ≡ length shelves.old }
    requires ports { length ins.old ≤ 64 }
    requires inputs { AreInputs (D.seen depot.old) (slots_of ins.old) }
    requires ready { AreReady config.now window ins.old shelves.old budget.old }
    ensures takes { TakesAll config.now window
        (walk_at (D.seen depot.old) ins.old shelves.old budget.old)
        (walk_at (D.seen depot.new) ins.new shelves.new budget.new) result }
{
    for port in 0..ins.len() {
        match take_window(
            alloc,
            depot,
            config,
            PortNo::at(port),
            window,
            &mut ins[port],
            &mut shelves[port],
            budget,
        ) {
            Ok(()) => {}
            Err(fault) => return Err(fault),
        }
    }
    Ok(())
}
