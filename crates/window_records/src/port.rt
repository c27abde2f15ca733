//! The records of a window, taken of one port's capture.
ghost use Rattle.std.specs.Prelude.{◌≡◌, IsTrue};
ghost use Rattle.window_records.specs.Port.{IsReady, TakesWindow, is_in, port_walk_at};

use crate::window::window_start;
use crate::{GatherFault, Input, Shelf, looks_go_on, steps_find_the_stop};
use fab_base::{Depot, PortNo};
use fab_config::Config;
use pcap_file::{Budget, Record, fault_of};
use std::alloc::Global;

/// Takes the records of a window of a port into its shelf, in place of those that it has, and looks
/// at one further.
pub(crate) fn take_window<D: Depot>(
    alloc: Global,
    depot: &mut D,
    config: &Config,
    port: PortNo,
    window: u64,
    input: &mut Input,
    shelf: &mut Shelf,
    budget: &mut Budget,
) -> Result<(), GatherFault>
    requires input { IsTrue ((D.seen depot.old).input input.old.slot) }
    requires ready { IsReady input.old.reader shelf.old.next shelf.old.count budget.old }
    ensures slot { input.new.slot ≡ input.old.slot }
    ensures takes { TakesWindow config.now port window input.old.slot
        (port_walk_at (D.seen depot.old) input.old.reader shelf.old budget.old)
        (port_walk_at (D.seen depot.new) input.new.reader shelf.new budget.new) result }
{
    // Law: where the looks at a capture go on, and which stop a reader's step at one finds; the
    // clause takes counts in looks.
    looks_go_on();
    steps_find_the_stop();
    shelf.batch.clear();
    'records: while is_of(config, &shelf.next, window) {
        match input.reader.next(alloc, depot, input.slot, budget) {
            Ok(next) => match shelf.push_record(next) {
                Ok(()) => {}
                Err(_) => return Err(GatherFault::Memory),
            },
            Err(error) => return Err(fault_of(error, port)),
        }
    }
    Ok(())
}

// Whether a record is there and belongs to a window.
fn is_of(config: &Config, ahead: &Option<Record>, window: u64) -> bool
    ensures { result ≡ is_in config.now ahead.now window }
{
    match ahead {
        Some(record) => window_start(config, record.moment) == window,
        None => false,
    }
}
