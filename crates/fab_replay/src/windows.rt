//! The windows of the captures: each is gathered, and then its lines checked.
ghost use Rattle.std.specs.Prelude.{◌≡◌, ℕ, Bool, IsErrOf, IsTrue, MatchResult, OnOk, length};
ghost use Rattle.fab_base.specs.Ending.{SparesReads, end_by};
ghost use Rattle.fab_base.specs.Seen.{Nothing, SameWriteFaults, Seen, Touches};
ghost use Rattle.fab_base.specs.Slots.{NameIn};
ghost use Rattle.window_records.specs.Ports.{AreInputs, walk_at};
ghost use Rattle.fab_policy.specs.Journal.{Journal};
ghost use Rattle.fab_replay.specs.AllOutputs.{OneRose};
ghost use Rattle.fab_replay.specs.Counts.{check_end};
ghost use Rattle.fab_replay.specs.Owed.{AreMany, IsOwed};
ghost use Rattle.fab_replay.specs.Steps.{Advances, AreCounted, ChecksLines, IsAlong, IsBefore, IsFound, IsNow, IsReached, Left, Scene, spot_at};
ghost use Rattle.fab_replay.specs.Windows as spec;
ghost use Rattle.fab_replay.specs.Check.{Task};
ghost use Rattle.fab_replay.specs.Windows.{Going, IsOf, Turns, stand_at};

use crate::frames::{Gathered, check_frames};
use crate::laws::laws_of_windows;
use crate::owed::Owed;
use crate::ticks::check_ticks;
use crate::{CheckFault, LineWhy, Place};
use fab_base::Depot;
use fab_policy::Verdict;
use forward_core::Fabric;
use pcap_file::{Budget, GatherFault};
use std::alloc::Global;
use window_records::{Input, Shelf, gather, next_window};

/// What is checked: a journal's text, how many frames each port had before it, 0 where the list is
/// shorter, and the slots of the outputs of the first ports.
#[derive(Clone, Copy, Debug)]
pub struct Written<'a> {
    pub journal: &'a [u8],
    pub firsts: &'a [u64],
    pub outs: &'a [u32],
}

/// How far a check came: the start of its first window, the place in the journal's text, and the
/// outputs.
#[derive(Debug, Drop)]
pub(crate) struct Course {
    pub(crate) first: u64,
    pub(crate) place: Place,
    pub(crate) owed: Owed,
}

/// Gathers one window of all ports after another and checks its lines.
pub(crate) fn check_windows<D: Depot>(
    alloc: Global,
    depot: &mut D,
    fabric: &mut Fabric,
    written: &Written<'_>,
    ins: &mut [Input],
    shelves: &mut [Shelf],
    budget: &mut Budget,
    course: &mut Course,
) -> Result<(), CheckFault>
    requires going { (k : Task) × IsOf k written.now × Going k 0 (stand_at fabric.old course.old
        (walk_at (D.seen depot.old) ins.old shelves.old budget.old)) }
    ensures { let seen = D.seen in Turns written.now
        (stand_at fabric.old course.old (walk_at (seen depot.old) ins.old shelves.old budget.old))
        (stand_at fabric.new course.new (walk_at (seen depot.new) ins.new shelves.new budget.new))
        result }
{
    // Law: which looks are left, what was read and what a stop keeps; Going goes on by them.
    laws_of_windows();
    // For the checker: a fault that is handed on by `?` holds these enums.
    let _verdicts: &[Verdict] = &[];
    let _whys: &[LineWhy] = &[];
    let mut from = 0;
    'windows: while let Some(window) = next_window(fabric.config(), shelves) {
        let config = fabric.config();
        let first = course.first;
        match gather(alloc, depot, config, first, window, ins, shelves, budget) {
            Ok(()) => {}
            Err(fault) => return Err(fault_of(fault)),
        }
        check_gathered(alloc, depot, fabric, written, window, shelves, course)?;
        from = window + 1;
    }
    Ok(())
}

// What a fault of gathering ends a check with.
pub(crate) fn fault_of(fault: GatherFault) -> CheckFault
    ensures { result ≡ spec.check_fault fault }
{
    match fault {
        GatherFault::Capture { port, at, why } => CheckFault::Capture { port, at, why },
        GatherFault::Limit(kind) => CheckFault::Limit(kind),
        GatherFault::Read => CheckFault::Read,
        GatherFault::Memory => CheckFault::Memory,
    }
}

// Checks the lines of the window whose records are on the shelves, and reads the outputs on against
// what it sends.
fn check_gathered<D: Depot>(
    alloc: Global,
    depot: &mut D,
    fabric: &mut Fabric,
    written: &Written<'_>,
    window: u64,
    shelves: &[Shelf],
    course: &mut Course,
) -> Result<(), CheckFault>
    requires before { let text = written.now.journal.now in
        IsBefore window shelves.now text fabric.old course.old.place }
    requires inputs { AreInputs (D.seen depot.old) written.now.outs.now }
    requires many { AreMany (length written.now.outs.now) course.old.owed }
    ensures checks { IsTrue (D.seen depot.old).told → (x : Scene) (J : Journal) (start : Seen)
        → x.bytes ≡ written.now.journal.now → IsReached x J fabric.old course.old.place
        → IsNow written.now.firsts.now shelves.now x window J
        → IsOwed x.settings (length x.records) x.from start (D.seen depot.old)
        written.now.outs.now J course.old.owed → MatchResult result
        (λ _. (K : Journal) × IsReached x K fabric.new course.new.place
        × AreCounted K shelves.now × IsOwed x.settings (length x.records) x.from start
        (D.seen depot.new) written.now.outs.now K course.new.owed)
        (λ e. IsFound x e) }
    ensures left { (x : Scene) (told : Bool) (J : Journal) → x.bytes ≡ written.now.journal.now
        → IsAlong x told J fabric.old course.old.place
        → (IsTrue told → IsNow written.now.firsts.now shelves.now x window J)
        → MatchResult result
        (λ _. (K : Journal) × IsAlong x told K fabric.new course.new.place
        × (IsTrue told → AreCounted K shelves.now)) (λ e. Left x told fabric.new e) }
    ensures advances { let text = written.now.journal.now in
        Advances window fabric.old fabric.new text course.new.place result }
    ensures many { OnOk result (AreMany (length written.now.outs.now) course.new.owed) }
    ensures first { course.new.first ≡ course.old.first }
    ensures touches { Touches Nothing (NameIn (D.seen depot.old) written.now.outs.now)
        (D.seen depot.old) (D.seen depot.new) }
    ensures cause { IsErrOf result CheckFault.Read
        → OneRose written.now.outs.now (D.seen depot.old) (D.seen depot.new) }
    ensures counts { SparesReads (end_by check_end result) (D.seen depot.old) (D.seen depot.new)
        × SameWriteFaults (D.seen depot.old) (D.seen depot.new) }
{
    // For the checker: a fault that is handed on by `?` holds these enums.
    let _verdicts: &[Verdict] = &[];
    let _whys: &[LineWhy] = &[];
    check_shelves(
        alloc,
        fabric,
        written,
        &mut course.place,
        window,
        shelves,
        &mut course.owed.pages,
    )?;
    match course.owed.read_on(depot, written.outs) {
        Ok(()) => Ok(()),
        Err(_) => Err(CheckFault::Read),
    }
}

// Checks the lines of the window whose records are on the shelves: its ticks and its frames.
fn check_shelves(
    alloc: Global,
    fabric: &mut Fabric,
    written: &Written<'_>,
    place: &mut Place,
    window: u64,
    shelves: &[Shelf],
    pages: &mut [Vec<u8>],
) -> Result<(), CheckFault>
    requires { IsBefore window shelves.now written.now.journal.now fabric.old place.old }
    ensures { ChecksLines window (λ x J. IsNow written.now.firsts.now shelves.now x window J)
        (λ x J K. AreCounted K shelves.now) written.now.journal.now
        (spot_at fabric.old place.old pages.old) (spot_at fabric.new place.new pages.new) result }
{
    // For the checker: a fault that is handed on by `?` holds these enums.
    let _verdicts: &[Verdict] = &[];
    let _whys: &[LineWhy] = &[];
    check_ticks(alloc, fabric, written.journal, place, window, pages)?;
    let gathered = Gathered {
        window,
        firsts: written.firsts,
        shelves,
    };
    check_frames(alloc, fabric, written.journal, place, &gathered, pages)
}
