//! One frame: the ticks up to its window, and its entry.
ghost use Rattle.std.specs.Prelude.{◌≡◌, ℕ, ◌∷◌, [], ◌+◌, ◌≤◌, ◌<◌, ◌%◌, ◌^◌, IfSome, IfOk, OnOk, IsSome};
ghost use Rattle.fab_policy.specs.Journal.{frame_count};
ghost use Rattle.fab_shared.specs.Handled.{HandledPort};
ghost use Rattle.fab_live.specs.Handling.{HandlesOne};

use fab_base::{Caught, NoMemory, PortNo};
use fab_policy::Verdict;
use fab_windows::tick_to;
use forward_core::{Drained, Fabric, StepFault};
use heard_frames::hear;
use std::alloc::Global;

/// Makes the ticks up to a window, handles a frame of a port in it, and hands out what both made.
pub(crate) fn handle(
    alloc: Global,
    fabric: &mut Fabric,
    window: u64,
    port: PortNo,
    index: u64,
    caught: &Caught,
) -> Result<Drained, NoMemory>
    requires range { window < 2 ^ 63 }
    requires start { window % fabric.old.settings.window ≡ 0 }
    requires order { IfSome fabric.old.state.tables.clock (λ t. t ≤ window) }
    requires port { (1 ≤ port) × (port ≤ fabric.old.count) }
    ensures handles { IfOk result (λ d. (m : ℕ) → HandlesOne window port index
        (record { moment = m; caught = caught.now }) fabric.old fabric.new d.events d.outs) }
{
    tick_to(alloc, fabric, window)?;
    let _verdict = take_frame(alloc, fabric, port, index, caught)?;
    let drained = fabric.drain();
    Ok(drained)
}

// Hears a frame, and has the fabric handle it.
fn take_frame(
    alloc: Global,
    fabric: &mut Fabric,
    port: PortNo,
    index: u64,
    caught: &Caught,
) -> Result<Verdict, NoMemory>
    requires clock { IsSome fabric.old.state.tables.clock }
    requires port { (1 ≤ port) × (port ≤ fabric.old.count) }
    ensures handled { OnOk result ((m : ℕ) → HandledPort port index
        (record { moment = m; caught = caught.now } ∷ []) fabric.old fabric.new) }
    ensures one { OnOk result (frame_count fabric.new.events
        ≡ frame_count fabric.old.events + 1) }
{
    match fabric.step(alloc, port, index, &hear(caught), None) {
        Ok(verdict) => Ok(verdict),
        Err(StepFault::Memory) => Err(NoMemory),
        Err(StepFault::WishTaken) => unreachable!(),
    }
}
