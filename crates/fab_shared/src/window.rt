//! The frames of a window.
ghost use Rattle.std.specs.Prelude.{◌≡◌, IfOk, length};
ghost use Rattle.fab_shared.specs.Handled.{CanTake, HandledShelves};
ghost use Rattle.fab_shared.specs.Sizes.{busy_on, goes_by_workers};

use crate::SharedFabric;
use crate::crew::by_workers;
use crate::frames::in_turn;
use crate::sizes::lacking;
use fab_base::{Gate, NoMemory};
use forward_core::Fabric;
use std::alloc::Global;
use std::sync::Wait;
use std::thread::Threads;
use window_records::Shelf;

/// From so many bytes of frames on a window goes by workers under any gate. In none that is smaller
/// were they found to save anything over one port after another.
const WORTH_WORKERS: u64 = 64 << 20;

/// Handles the records on the shelves under a gate, those of each port in their order. Where
/// several ports have any, it is by a worker a port if the gate may hold one or the frames are
/// worth the threads, and else one port after another. Where memory is refused the fabric is gone.
pub fn take_frames<R: Threads + Wait + Sync, G: Gate + Sync>(
    rt: &R,
    alloc: Global,
    fabric: Fabric,
    shelves: &[Shelf],
    gate: &G,
) -> Result<Fabric, NoMemory>
    requires { CanTake fabric shelves.now }
    ensures handled { IfOk result (λ f. HandledShelves shelves.now fabric f) }
{
    if by_crew(shelves, G::HOLDS) {
        match SharedFabric::open(alloc, fabric) {
            Ok((shared, root)) => by_workers(rt, alloc, shared, root, shelves, gate),
            Err(_) => Err(NoMemory),
        }
    } else {
        let mut fabric = fabric;
        in_turn(alloc, &mut fabric, shelves, gate)?;
        Ok(fabric)
    }
}

// Whether a window goes by workers, under a gate that may hold one or that holds nobody.
fn by_crew(shelves: &[Shelf], holds: bool) -> bool
    ensures { result ≡ goes_by_workers holds shelves.now }
{
    busy(shelves) > 1 && (holds || lacking(shelves, WORTH_WORKERS) == 0)
}

// How many ports have a record on their shelf.
fn busy(shelves: &[Shelf]) -> usize
    ensures { result ≡ length (busy_on shelves.now) }
{
    shelves
        .iter()
        .filter(|shelf| !shelf.batch.is_empty())
        .count()
}
