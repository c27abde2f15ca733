//! One window: gathered, handled and put behind what is still to be written.
ghost use Rattle.std.specs.Prelude.{[], ◌∷◌, ◌≡◌, ◌+◌, ◌≤◌, ◌<◌, ◌^◌, ◌%◌, Some, length, IfSome, IfOk, OnOk, MatchResult};
ghost use Rattle.std.specs.List.{All};
ghost use Rattle.fab_policy.specs.Growing.{lines_from};
ghost use Rattle.fab_policy.specs.Journal.{frame_count};
ghost use Rattle.fab_policy.specs.Ranged.{IsRangedEvent};
ghost use Rattle.window_records.specs.First.{IsNextWindow, Start};
ghost use Rattle.window_records.specs.Ports.{TakesFrom, walk_at};
ghost use Rattle.fab_pages.specs.Pages.{AreEarly, sents_of};
ghost use Rattle.fab_windows.specs.Files.{AreFiles, file_slots};
ghost use Rattle.fab_windows.specs.From.{Origin};
ghost use Rattle.fab_windows.specs.Pages.{AreShort, pending};
ghost use Rattle.fab_windows.specs.Turns.{task_of, Going, Gathered, Ended, Handles, Publishes, paged_at};
ghost use Rattle.std.specs.Prelude.{List};
ghost use Rattle.window_records.specs.declared.shelf.Input as of_gather;
ghost use Rattle.pcap_file.specs.declared.Budget as of_captures;

use crate::files::{Slots, flush, flush_for};
use crate::laws::laws_of_runs;
use crate::pages::Pages;
use crate::plan::tick_to;
use crate::{Done, Input, RunFault};
use fab_base::{Depot, Gate, Moment, NoMemory};
use fab_pages::Sendings;
use fab_policy::Event;
use fab_shared::take_frames;
use forward_core::{Drained, EventList, Fabric};
use pcap_file::Budget;
use std::alloc::Global;
use std::sync::Wait;
use std::thread::Threads;
use window_records::{Shelf, gather};

/// What the work of a run is done by, and the gate that each frame passes.
#[derive(Clone, Copy)]
pub(crate) struct Means<'a, R, G> {
    pub(crate) rt: &'a R,
    pub(crate) alloc: Global,
    pub(crate) gate: &'a G,
}

/// What a run keeps from window to window: the start of its first one, the records that were looked
/// at, what is still to be written, and the numbers so far.
#[derive(Debug, Drop)]
pub(crate) struct Run {
    pub(crate) first: u64,
    pub(crate) shelves: Vec<Shelf>,
    pub(crate) pages: Pages,
    pub(crate) done: Done,
}

/// Takes the next window of all ports, handles its frames and adds what they made to the pages.
/// Where the window can't be taken, the pages are written before the run ends.
pub(crate) fn run_window<R: Threads + Wait + Sync, D: Depot, G: Gate + Sync>(
    means: &Means<'_, R, G>,
    depot: &mut D,
    fabric: Fabric,
    window: u64,
    ins: &mut [Input],
    run: &mut Run,
    budget: &mut Budget,
    slots: &Slots<'_>,
) -> Result<Fabric, RunFault>
    requires going { (s : Start) × (o : Origin)
        × Going (task_of s o fabric.settings slots.now.journal slots.now.outs.now) window
        run.old.first fabric
        (walk_at (D.seen depot.old) ins.old run.old.shelves.items budget.old) run.old.done
        (pending run.old.pages) }
    requires next { IsNextWindow fabric.settings run.old.shelves.items (Some window) }
    requires start { window % fabric.settings.window ≡ 0 }
    requires range { window < 2 ^ 43 }
    requires pages { length run.old.pages.records.items ≡ length slots.now.outs.now }
    ensures runs { (s : Start) (o : Origin)
        → let k = task_of s o fabric.settings slots.now.journal slots.now.outs.now in
        Going k window run.old.first fabric
        (walk_at (D.seen depot.old) ins.old run.old.shelves.items budget.old) run.old.done
        (pending run.old.pages) → MatchResult result
        (λ f. Going k (window + 1) run.new.first f
        (walk_at (D.seen depot.new) ins.new run.new.shelves.items budget.new) run.new.done
        (pending run.new.pages)) (λ e. Ended k (D.seen depot.new) e) }
    ensures pages { OnOk result (length run.new.pages.records.items ≡ length slots.now.outs.now) }
    ensures short { OnOk result (AreShort (pending run.new.pages)) }
    ensures settings { IfOk result (λ f. f.settings ≡ fabric.settings) }
    ensures clock { IfOk result (λ f. f.state.tables.clock ≡ Some window) }
    ensures takes { TakesFrom ins.old ins.new budget.old budget.new }
{
    // Law: what further entries and records change, and where reading stops; Going goes on by them.
    laws_of_runs();
    match gather(
        means.alloc,
        depot,
        fabric.config(),
        run.first,
        window,
        ins,
        &mut run.shelves,
        budget,
    ) {
        Ok(()) => run_gathered(means, depot, fabric, window, run, slots),
        Err(fault) => {
            let ending = RunFault::from(fault);
            Err(flush_for(depot, slots, &mut run.pages, ending))
        }
    }
}

// Handles the frames on the shelves, adds what they made to the pages and counts it.
fn run_gathered<R: Threads + Wait + Sync, D: Depot, G: Gate + Sync>(
    means: &Means<'_, R, G>,
    depot: &mut D,
    fabric: Fabric,
    window: u64,
    run: &mut Run,
    slots: &Slots<'_>,
) -> Result<Fabric, RunFault>
    requires gathered { (s : Start) × (o : Origin) × (ins : List of_gather.Input)
        × (left : of_captures.Budget)
        × Gathered (task_of s o fabric.settings slots.now.journal slots.now.outs.now) window
        run.old.first fabric
        (walk_at (D.seen depot.old) ins run.old.shelves.items left) run.old.done
        (pending run.old.pages) }
    requires start { window % fabric.settings.window ≡ 0 }
    requires range { window < 2 ^ 43 }
    requires pages { length run.old.pages.records.items ≡ length slots.now.outs.now }
    ensures runs { (s : Start) (o : Origin) (ins : List of_gather.Input)
        (left : of_captures.Budget) → let k = task_of s o fabric.settings slots.now.journal slots.now.outs.now in
        Gathered k window run.old.first fabric
        (walk_at (D.seen depot.old) ins run.old.shelves.items left) run.old.done
        (pending run.old.pages) → MatchResult result
        (λ f. Going k (window + 1) run.new.first f
        (walk_at (D.seen depot.new) ins run.new.shelves.items left) run.new.done
        (pending run.new.pages)) (λ e. Ended k (D.seen depot.new) e) }
    ensures pages { OnOk result (length run.new.pages.records.items ≡ length slots.now.outs.now) }
    ensures short { OnOk result (AreShort (pending run.new.pages)) }
    ensures settings { IfOk result (λ f. f.settings ≡ fabric.settings) }
    ensures clock { IfOk result (λ f. f.state.tables.clock ≡ Some window) }
{
    // Law: what further entries and records change, and where reading stops; Going goes on by them.
    laws_of_runs();
    let clock = fabric.clock().unwrap_or(Moment(0));
    let (fabric, drained) = drain_window(means, fabric, window, &run.shelves)?;
    let sendings = Sendings {
        config: fabric.config(),
        drained: &drained,
    };
    publish(means, depot, clock, &sendings, &mut run.pages, slots)?;
    run.done = done_after(run.done, &drained.events);
    Ok(fabric)
}

// Makes the ticks up to a window and handles its frames.
fn drain_window<R: Threads + Wait + Sync, G: Gate + Sync>(
    means: &Means<'_, R, G>,
    fabric: Fabric,
    window: u64,
    shelves: &[Shelf],
) -> Result<(Fabric, Drained), NoMemory>
    requires range { window < 2 ^ 43 }
    requires start { window % fabric.settings.window ≡ 0 }
    requires order { IfSome fabric.state.tables.clock (λ t. t < window) }
    requires ports { fabric.count ≡ length shelves.now }
    requires few { length shelves.now ≤ 64 }
    ensures handles { IfOk result (λ p.
        Handles window shelves.now fabric p.0 p.1.events p.1.outs) }
{
    let mut fabric = fabric;
    tick_to(means.alloc, &mut fabric, window)?;
    let mut fabric = take_frames(means.rt, means.alloc, fabric, shelves, means.gate)?;
    let drained = fabric.drain();
    Ok((fabric, drained))
}

// Adds the lines of entries, from a clock on, and the records of what they sent to the pages, which
// are written where they are full.
fn publish<R: Threads + Sync, D: Depot, G>(
    means: &Means<'_, R, G>,
    depot: &mut D,
    clock: Moment,
    sendings: &Sendings<'_>,
    pages: &mut Pages,
    slots: &Slots<'_>,
) -> Result<(), RunFault>
    requires files { AreFiles (D.seen depot.old) slots.now.journal slots.now.outs.now }
    requires count { length pages.old.records.items ≡ length slots.now.outs.now }
    requires ranged { All IsRangedEvent sendings.now.drained.now.events }
    requires early { AreEarly sendings.now.drained.now.outs }
    ensures publishes { Publishes (file_slots slots.now.journal slots.now.outs.now)
        (lines_from clock sendings.now.drained.now.events) (sents_of sendings.now)
        (paged_at (D.seen depot.old) (pending pages.old))
        (paged_at (D.seen depot.new) (pending pages.new)) result }
    ensures count { OnOk result (length pages.new.records.items ≡ length slots.now.outs.now) }
    ensures short { OnOk result (AreShort (pending pages.new)) }
{
    pages.add(means.rt, means.alloc, clock, sendings)?;
    if !pages.are_full() {
        return Ok(());
    }
    flush(depot, slots, pages)?;
    Ok(())
}

// The numbers of frames and entries with these entries.
fn done_after(done: Done, events: &EventList) -> Done
    requires room { (done.frames + frame_count events.now < 2 ^ 64)
        × (done.entries + length events.now < 2 ^ 64) }
    ensures frames { result.frames ≡ done.frames + frame_count events.now }
    ensures entries { result.entries ≡ done.entries + length events.now }
{
    Done {
        frames: done.frames + frames_in(events),
        entries: done.entries + events.len() as u64,
    }
}

// How many of these entries are frames.
fn frames_in(events: &EventList) -> u64
    ensures { result ≡ frame_count events.now }
{
    let mut frames = 0;
    for index in 0..events.len() {
        let Some(event) = events.at(index) else {
            unreachable!()
        };
        frames += frames_of(event);
    }
    frames
}

// A frame counts for itself, a tick for none.
fn frames_of(event: &Event) -> u64
    ensures { result ≡ frame_count (event.now ∷ []) }
{
    match event {
        Event::Tick { .. } => 0,
        Event::Frame { .. } => 1,
    }
}
