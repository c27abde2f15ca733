//! The workers of a window, each in a thread of its own.
ghost use Rattle.std.specs.Prelude.{◌≡◌, ◌<◌, ◌≤◌, ◌+◌, ℕ, List, [], Some, All, IsSome, IfOk, false, length, vec_capacity, slice_get, slice_index_or};
ghost use Rattle.window_records.specs.declared.shelf.Shelf as of_gather;
ghost use Rattle.fab_turn.specs.Lock.{own, given, kept, IsRootOf, IsIdle, AllJoined};
ghost use Rattle.fab_shared.specs.Shared.{opened};
ghost use Rattle.fab_shared.specs.Handled.{CanTake, HandledShelves};
ghost use Rattle.fab_shared.specs.Workers.{IsReady, IsNew, IsDone, HasWorkers, AreHired, AreTaken};
ghost use Rattle.fab_shared.specs.declared.worker.Worker as of_workers;

use crate::worker::{Worker, work};
use crate::{Pass, SharedFabric};
use fab_base::{Gate, NoMemory, PortNo};
use forward_core::Fabric;
use std::alloc::Global;
use std::sync::Wait;
use std::thread;
use std::thread::Threads;
use window_records::Shelf;

/// Has a worker for each port with a frame handle the frames of that port, and takes their passes
/// back. All memory for the workers is asked for before a port is given out.
pub(crate) fn by_workers<R: Threads + Wait + Sync, G: Gate + Sync>(
    rt: &R,
    alloc: Global,
    shared: SharedFabric,
    root: Pass,
    shelves: &[Shelf],
    gate: &G,
) -> Result<Fabric, NoMemory>
    requires root { IsRootOf shared.lock root × IsIdle root }
    requires lists { (given root ≡ []) × (kept root ≡ []) }
    requires can { CanTake (opened shared) shelves.now }
    ensures handled { IfOk result (λ f. HandledShelves shelves.now (opened shared) f) }
{
    let mut root = root;
    let mut workers = Vec::with_capacity(alloc, shelves.len())?;
    hire(&shared, &mut root, &mut workers, shelves);
    work_all(rt, alloc, &shared, shelves, gate, workers.as_mut_slice());
    let refused = join_all(&shared, &mut root, workers);
    let fabric = shared.close(root);
    if refused { Err(NoMemory) } else { Ok(fabric) }
}

// Hires a worker for each port with a frame on its shelf.
fn hire(shared: &SharedFabric, root: &mut Pass, workers: &mut Vec<Worker>, shelves: &[Shelf])
    requires root { IsRootOf shared.now.lock root.old × IsIdle root.old }
    requires lists { (given root.old ≡ []) × (kept root.old ≡ []) }
    requires room { (workers.old.items ≡ []) × (length shelves.now ≤ vec_capacity workers.old) }
    requires few { length shelves.now ≤ 64 }
    ensures { AreHired shared.now shelves.now (length shelves.now) root.new workers.new.items }
{
    for (place, shelf) in shelves.iter().enumerate() {
        hire_for(shared, root, workers, place, shelf);
    }
}

// Hires a worker for the next port, where it has a frame on its shelf.
fn hire_for(
    shared: &SharedFabric,
    root: &mut Pass,
    workers: &mut Vec<Worker>,
    place: usize,
    shelf: &Shelf,
)
    requires place { (place < 64) × (place < vec_capacity workers.old) }
    requires hired { (shelves : List of_gather.Shelf)
        × (slice_get shelves place ≡ Some shelf.now)
        × AreHired shared.now shelves place root.old workers.old.items }
    ensures capacity { vec_capacity workers.new ≡ vec_capacity workers.old }
    ensures hired { (shelves : List of_gather.Shelf)
        → slice_get shelves place ≡ Some shelf.now
        → AreHired shared.now shelves place root.old workers.old.items
        → AreHired shared.now shelves (place + 1) root.new workers.new.items }
{
    if !shelf.batch.is_empty() {
        let port = PortNo::at(place);
        let pass = shared.split(root, port);
        workers.push_reserved(Worker {
            pass,
            port,
            refused: false,
        });
    }
}

// Has each worker take the frames on its shelf.
fn work_all<R: Threads + Wait + Sync, G: Gate + Sync>(
    rt: &R,
    alloc: Global,
    shared: &SharedFabric,
    shelves: &[Shelf],
    gate: &G,
    workers: &mut [Worker],
)
    requires ready { All (λ w. IsReady shared.now w) workers.old }
    requires new { All (λ w. IsNew shelves.now w) workers.old }
    requires clock { IsSome (opened shared.now).state.tables.clock }
    ensures ready { All (λ w. IsReady shared.now w) workers.new }
    ensures done { All (λ w. IsDone shelves.now w) workers.new }
    ensures ports { (k : ℕ) (d : of_workers.Worker) → k < length workers.old →
        (slice_index_or workers.new k d).port ≡ (slice_index_or workers.old k d).port }
{
    if workers.is_empty() {
        return;
    }
    let threads = workers.len();
    thread::for_each_mut(
        rt,
        workers,
        threads,
        &|_: usize, worker: &mut Worker|
            requires ready { IsReady shared.now worker.old }
            requires new { IsNew shelves.now worker.old }
            requires clock { IsSome (opened shared.now).state.tables.clock }
            ensures ready { IsReady shared.entry.now worker.new }
            ensures port { worker.new.port ≡ worker.old.port }
            ensures done { IsDone shelves.entry.now worker.new }
        { work(rt, alloc, shared, shelves, gate, worker) },
    );
}

// Takes all passes back. Whether a worker was refused memory.
fn join_all(shared: &SharedFabric, root: &mut Pass, workers: Vec<Worker>) -> bool
    requires root { IsRootOf shared.now.lock root.old × IsIdle root.old }
    requires kept { kept root.old ≡ [] }
    requires ready { All (λ w. IsReady shared.now w) workers.items }
    requires workers { HasWorkers root.old workers.items }
    ensures root { IsRootOf shared.now.lock root.new × IsIdle root.new }
    ensures joined { AllJoined root.new }
    ensures given { given root.new ≡ given root.old }
    ensures taken { result ≡ false → (shelves : List of_gather.Shelf)
        → All (λ w. IsDone shelves w) workers.items → AreTaken shelves root.new }
{
    let mut workers = workers;
    let mut refused = false;
    while let Some(worker) = workers.pop() {
        let Worker {
            pass,
            port: _,
            refused: by_this,
        } = worker;
        shared.join(root, pass);
        refused = refused | by_this;
    }
    refused
}
