//! The look at the first record of each port's capture.
ghost use Rattle.std.specs.Prelude.{◌≡◌, ◌≤◌, ◌<◌, ◌^◌, IsTrue, length};
ghost use Rattle.fab_config.specs.Settings.{Settings};
ghost use Rattle.window_records.specs.First.{AreFresh, IsFresh, LooksFirst, LooksOnce, start_at};
ghost use Rattle.window_records.specs.Ports.{AreInputs, slots_of};
ghost use Rattle.pcap_file.specs.Reading.{reader_stand};

use crate::{GatherFault, Input, Shelf, looks_go_on, steps_find_the_stop};
use fab_base::{Depot, PortNo};
use pcap_file::{Budget, fault_of};
use std::alloc::Global;

/// Looks at the first record of each port, in port order. Nothing is on the shelves then.
pub fn first_looks<D: Depot>(
    alloc: Global,
    depot: &mut D,
    ins: &mut [Input],
    budget: &mut Budget,
) -> Result<Vec<Shelf>, GatherFault>
    requires ports { length ins.old ≤ 64 }
    requires inputs { AreInputs (D.seen depot.old) (slots_of ins.old) }
    requires fresh { AreFresh ins.old }
    ensures looks { (c : Settings) → LooksFirst c
        (start_at (D.seen depot.old) ins.old budget.old)
        (start_at (D.seen depot.new) ins.new budget.new) result }
{
    // Law: where the looks at a capture go on and where they end; the clause looks counts in them.
    looks_go_on();
    let mut shelves = Vec::new(alloc);
    for port in 0..ins.len() {
        match look(alloc, depot, PortNo::at(port), &mut ins[port], budget) {
            Ok(shelf) => match shelves.push(shelf) {
                Ok(()) => {}
                Err(_) => return Err(GatherFault::Memory),
            },
            Err(fault) => return Err(fault),
        }
    }
    Ok(shelves)
}

// Looks at the first record of a port.
fn look<D: Depot>(
    alloc: Global,
    depot: &mut D,
    port: PortNo,
    input: &mut Input,
    budget: &mut Budget,
) -> Result<Shelf, GatherFault>
    requires input { IsTrue ((D.seen depot.old).input input.old.slot) }
    requires fresh { IsFresh input.old.reader }
    ensures slot { input.new.slot ≡ input.old.slot }
    ensures looks { (c : Settings) → LooksOnce c port input.old.slot
        (reader_stand (D.seen depot.old) input.old.reader budget.old)
        (reader_stand (D.seen depot.new) input.new.reader budget.new) result }
{
    // Law: where the looks at a capture go on, and which stop a reader's step at one finds; the
    // clause looks counts in them.
    looks_go_on();
    steps_find_the_stop();
    // For the proof: the frames that are left are a number of 64 bits.
    let _few = frames_left(budget);
    match input.reader.next(alloc, depot, input.slot, budget) {
        Ok(next) => Ok(Shelf {
            batch: Vec::new(alloc),
            count: u64::from(next.is_some()),
            next,
        }),
        Err(error) => Err(fault_of(error, port)),
    }
}

// The frames that are left, a number of 64 bits.
fn frames_left(budget: &Budget) -> u64
    ensures { budget.now.frames < 2 ^ 64 }
{
    budget.frames
}
