//! The captures of all ports, each read whole.
ghost use Rattle.std.specs.Prelude.{◌≤◌, IsTrue, length};
ghost use Rattle.side_runs.specs.Opening.{ReadsInput, ReadsInputs};
ghost use Rattle.side_runs.specs.Sides.{AreKnown, ins_of};

use crate::sides::{input_at, side_count};
use fab_base::{Depot, OwnedList, PortNo};
use pcap_file::{Budget, GatherFault, Record, read_capture};
use std::alloc::Global;

/// Reads the captures of all ports, in port order, off one budget.
pub(crate) fn read_captures<D: Depot>(
    alloc: Global,
    depot: &mut D,
    sides: &[String],
    budget: &mut Budget,
) -> Result<Vec<OwnedList<Record>>, GatherFault>
    requires few { length sides.now ≤ 128 }
    requires known { AreKnown (D.seen depot.old) sides.now }
    ensures reads { ReadsInputs (ins_of sides.now) (D.seen depot.old) (D.seen depot.new)
        budget.old result }
{
    let mut ins = Vec::new(alloc);
    for port in 0..side_count(sides) {
        let name = input_at(sides, port);
        let records = match read_input(alloc, depot, PortNo::at(port), name, budget) {
            Ok(records) => records,
            Err(fault) => return Err(fault),
        };
        match ins.push(records) {
            Ok(()) => {}
            Err(_) => return Err(GatherFault::Memory),
        }
    }
    Ok(ins)
}

fn read_input<D: Depot>(
    alloc: Global,
    depot: &mut D,
    port: PortNo,
    name: &str,
    budget: &mut Budget,
) -> Result<OwnedList<Record>, GatherFault>
    requires known { IsTrue ((D.seen depot.old).knows name.now) }
    ensures reads { ReadsInput port name.now (D.seen depot.old) (D.seen depot.new) budget.old
        budget.new result }
{
    match depot.open_in(name) {
        Ok(slot) => read_capture(alloc, depot, port, slot, budget),
        Err(_) => Err(GatherFault::Read),
    }
}
