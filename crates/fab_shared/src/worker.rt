//! A worker of one port.
ghost use Rattle.std.specs.Prelude.{◌≡◌, [], IsSome, OnOk, Some};
ghost use Rattle.fab_policy.specs.Legal.{numbered_from};
ghost use Rattle.window_records.specs.Reads.{first_index};
ghost use Rattle.fab_turn.specs.Lock.{own, IsPassOf, IsIdle};
ghost use Rattle.fab_shared.specs.Shared.{opened};
ghost use Rattle.fab_shared.specs.Workers.{frames_in, IsReady, IsNew, IsDone};

use crate::{Pass, SharedFabric};
use fab_base::{Gate, NoMemory, PortNo};
use forward_core::granted_address;
use heard_frames::hear;
use std::alloc::Global;
use std::sync::Wait;
use window_records::Shelf;

/// A port with its pass, and whether memory was refused.
#[derive(Drop)]
pub(crate) struct Worker {
    pub(crate) pass: Pass,
    pub(crate) port: PortNo,
    pub(crate) refused: bool,
}

// Has a worker take the frames on its shelf.
pub(crate) fn work<R: Wait, G: Gate>(
    rt: &R,
    alloc: Global,
    shared: &SharedFabric,
    shelves: &[Shelf],
    gate: &G,
    worker: &mut Worker,
)
    requires ready { IsReady shared.now worker.old }
    requires new { IsNew shelves.now worker.old }
    requires clock { IsSome (opened shared.now).state.tables.clock }
    ensures ready { IsReady shared.now worker.new }
    ensures port { worker.new.port ≡ worker.old.port }
    ensures done { IsDone shelves.now worker.new }
{
    let port = worker.port;
    let shelf = &shelves[port.index()];
    let taken = take_batch(rt, alloc, shared, &mut worker.pass, port, shelf, gate);
    worker.refused = taken.is_err();
}

// Submits the frames on the shelf of a port in their order, under a gate.
fn take_batch<R: Wait, G: Gate>(
    rt: &R,
    alloc: Global,
    shared: &SharedFabric,
    pass: &mut Pass,
    port: PortNo,
    shelf: &Shelf,
    gate: &G,
) -> Result<(), NoMemory>
    requires pass { IsPassOf shared.now.lock pass.old × IsIdle pass.old
        × (pass.old.port ≡ Some port) }
    requires new { own pass.old ≡ [] }
    requires clock { IsSome (opened shared.now).state.tables.clock }
    ensures pass { IsPassOf shared.now.lock pass.new × IsIdle pass.new
        × (pass.new.port ≡ Some port) }
    ensures own { OnOk result (frames_in (own pass.new)
        ≡ numbered_from (first_index shelf.now) shelf.now.batch.items) }
{
    let first = shelf.first_index();
    for (place, record) in shelf.batch.iter().enumerate() {
        let index = first + place as u64;
        gate.pass(port, index);
        let verdict = shared.submit(rt, alloc, pass, index, &hear(&record.caught))?;
        gate.done(port, index, granted_address(&verdict));
    }
    Ok(())
}
