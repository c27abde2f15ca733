//! The frames of a window, one port after another.
ghost use Rattle.std.specs.Prelude.{◌≤◌, ◌∷◌, [], IsSome, OnOk};
ghost use Rattle.window_records.specs.Reads.{first_index};
ghost use Rattle.fab_shared.specs.Handled.{CanTake, HandledPort, HandledShelves};

use fab_base::{Gate, NoMemory, PortNo};
use fab_policy::{Verdict, entries_come_in_parts};
use forward_core::{Fabric, StepFault, granted_address};
use heard_frames::hear;
use pcap_file::Record;
use std::alloc::Global;
use window_records::Shelf;

/// Handles the records on the shelves, those of one port after those of another, under a gate.
pub(crate) fn in_turn<G: Gate>(
    alloc: Global,
    fabric: &mut Fabric,
    shelves: &[Shelf],
    gate: &G,
) -> Result<(), NoMemory>
    requires { CanTake fabric.old shelves.now }
    ensures handled { OnOk result (HandledShelves shelves.now fabric.old fabric.new) }
{
    // Law: entries may come in two parts; each port's come behind those of the ports before it.
    entries_come_in_parts();
    for (place, shelf) in shelves.iter().enumerate() {
        take_port(alloc, fabric, PortNo::at(place), shelf, gate)?;
    }
    Ok(())
}

// Handles the records on a port's shelf in their order.
fn take_port<G: Gate>(
    alloc: Global,
    fabric: &mut Fabric,
    port: PortNo,
    shelf: &Shelf,
    gate: &G,
) -> Result<(), NoMemory>
    requires clock { IsSome fabric.old.state.tables.clock }
    requires port { (1 ≤ port) × (port ≤ fabric.old.count) }
    ensures handled { OnOk result (HandledPort port (first_index shelf.now)
        shelf.now.batch.items fabric.old fabric.new) }
{
    // Law: entries may come in two parts; a record's comes behind those of the records before it.
    entries_come_in_parts();
    let first = shelf.first_index();
    for (place, record) in shelf.batch.iter().enumerate() {
        let index = first + place as u64;
        gate.pass(port, index);
        let verdict = take_record(alloc, fabric, port, index, record)?;
        gate.done(port, index, granted_address(&verdict));
    }
    Ok(())
}

// Hears the frame of a record, and has the fabric handle it.
fn take_record(
    alloc: Global,
    fabric: &mut Fabric,
    port: PortNo,
    index: u64,
    found: &Record,
) -> Result<Verdict, NoMemory>
    requires clock { IsSome fabric.old.state.tables.clock }
    requires port { (1 ≤ port) × (port ≤ fabric.old.count) }
    ensures handled { OnOk result (HandledPort port index (found.now ∷ []) fabric.old fabric.new) }
{
    match fabric.step(alloc, port, index, &hear(&found.caught), None) {
        Ok(verdict) => Ok(verdict),
        Err(StepFault::Memory) => Err(NoMemory),
        Err(StepFault::WishTaken) => unreachable!(),
    }
}
