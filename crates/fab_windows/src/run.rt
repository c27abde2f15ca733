//! The windows, one after another.
ghost use Rattle.std.specs.Prelude.{◌≡◌, ◌+◌, ◌<◌, ◌≤◌, ◌^◌, length, [], IfOk, MatchResult};
ghost use Rattle.fab_policy.specs.Outputs.{state_of};
ghost use Rattle.fab_config.specs.Settings.{Settings};
ghost use Rattle.window_records.specs.First.{start_at};
ghost use Rattle.window_records.specs.Ports.{TakesFrom, walk_at};
ghost use Rattle.fab_windows.specs.Files.{AreFiles, file_slots};
ghost use Rattle.fab_windows.specs.From.{nothing_of};
ghost use Rattle.fab_windows.specs.Pages.{IsNothing, pending};
ghost use Rattle.fab_windows.specs.Run.{AreGiven, Runs};
ghost use Rattle.fab_windows.specs.Turns.{task_of, Begun, Ended, Finishes};

use crate::files::{Slots, flush};
use crate::laws::laws_of_runs;
use crate::pages::Pages;
use crate::window::{Means, Run, run_window};
use crate::{Done, RunFault};
use fab_base::{Depot, Gate};
use forward_core::Fabric;
use pcap_file::Budget;
use std::alloc::Global;
use std::sync::Wait;
use std::thread::Threads;
use window_records::{Input, first_looks, next_window};

/// Runs a new fabric over captures whose heads were read, window by window. The journal and the
/// outputs, which are empty, are written in pieces of some 64 KiB, and wholly before the call
/// returns, but where a write fails or memory is refused; `ins` and `outs` are in port order. The
/// gate sees each frame before it is handled and after. However it ends, `ins` keep their slots,
/// the budget isn't raised, and the fabric is used up.
pub fn run_windows<R: Threads + Wait + Sync, D: Depot, G: Gate + Sync>(
    rt: &R,
    alloc: Global,
    depot: &mut D,
    fabric: Fabric,
    ins: &mut [Input],
    budget: &mut Budget,
    journal: u32,
    outs: &[u32],
    gate: &G,
) -> Result<Done, RunFault>
    requires ports { (1 ≤ length ins.old) × (length ins.old ≤ 64) }
    requires outputs { length outs.now ≡ length ins.old }
    requires given { AreGiven (D.seen depot.old) ins.old journal outs.now }
    requires count { fabric.count ≡ length ins.old }
    requires state { fabric.state ≡ state_of fabric.settings [] }
    requires nothing { (fabric.events ≡ []) × (fabric.outs ≡ []) }
    ensures runs { Runs fabric.settings (start_at (D.seen depot.old) ins.old budget.old)
        (D.seen depot.new) (file_slots journal outs.now) result }
    ensures takes { TakesFrom ins.old ins.new budget.old budget.new }
{
    let mut fabric = fabric;
    // Law: what further entries and records change, and where reading stops; Going goes on by them.
    laws_of_runs();
    let means = Means { rt, alloc, gate };
    let slots = Slots { journal, outs };
    let mut run = begin(alloc, depot, ins, budget, &slots)?;
    run.first = next_window(fabric.config(), &run.shelves).unwrap_or(0);
    'windows: while let Some(window) = next_window(fabric.config(), &run.shelves) {
        fabric = run_window(&means, depot, fabric, window, ins, &mut run, budget, &slots)?;
    }
    finish(depot, &slots, run)
}

// Writes what is still to be written at the end of all captures. It takes the run by value and is
// the last that is called, so that no fabric is owned beside it where it fails.
fn finish<D: Depot>(depot: &mut D, slots: &Slots<'_>, run: Run) -> Result<Done, RunFault>
    requires count { length slots.now.outs.now ≡ length run.pages.records.items }
    requires files { AreFiles (D.seen depot.old) slots.now.journal slots.now.outs.now }
    ensures { Finishes slots.now.journal slots.now.outs.now (pending run.pages) run.done
        (D.seen depot.old) (D.seen depot.new) result }
{
    let mut run = run;
    flush(depot, slots, &mut run.pages)?;
    Ok(run.done)
}

// Writes the heads of all files, and looks at the first record of each port. The first window isn't
// known yet.
fn begin<D: Depot>(
    alloc: Global,
    depot: &mut D,
    ins: &mut [Input],
    budget: &mut Budget,
    slots: &Slots<'_>,
) -> Result<Run, RunFault>
    requires ports { (1 ≤ length ins.old) × (length ins.old ≤ 64) }
    requires outputs { length slots.now.outs.now ≡ length ins.old }
    requires given { AreGiven (D.seen depot.old) ins.old slots.now.journal slots.now.outs.now }
    ensures begins { (c : Settings)
        → let k = task_of (start_at (D.seen depot.old) ins.old budget.old) (nothing_of c) c
        slots.now.journal slots.now.outs.now in MatchResult result
        (λ r. Begun k (walk_at (D.seen depot.new) ins.new r.shelves.items budget.new))
        (λ e. Ended k (D.seen depot.new) e) }
    ensures pages { IfOk result (λ r. length r.pages.records.items ≡ length slots.now.outs.now) }
    ensures nothing { IfOk result (λ r. IsNothing (pending r.pages)) }
    ensures done { IfOk result (λ r. (r.done.frames ≡ 0) × (r.done.entries ≡ 0)) }
    ensures takes { TakesFrom ins.old ins.new budget.old budget.new }
{
    // Law: what further entries and records change, and where reading stops; Begun rests on it.
    laws_of_runs();
    // For the proof: the bytes that are left are a number of 64 bits.
    let _few = bytes_left(budget);
    let mut pages = Pages::heads(alloc, slots.outs.len())?;
    flush(depot, slots, &mut pages)?;
    let shelves = first_looks(alloc, depot, ins, budget)?;
    let done = Done {
        frames: 0,
        entries: 0,
    };
    Ok(Run {
        first: 0,
        shelves,
        pages,
        done,
    })
}

// The bytes that are left, a number of 64 bits.
fn bytes_left(budget: &Budget) -> u64
    ensures { budget.now.bytes < 2 ^ 64 }
{
    budget.bytes
}
