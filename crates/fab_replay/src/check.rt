//! A journal checked against captures whose heads were read, and against outputs.
ghost use Rattle.std.specs.Prelude.{◌≡◌, ◌++◌, ◌+◌, ◌<◌, ◌≤◌, Bool, IfErr, IfOk, IsTrue, MatchBool, MatchResult, Err, None, length, map, [], false};
ghost use Rattle.fab_base.specs.Ending.{SparesReads, end_by};
ghost use Rattle.fab_base.specs.Seen.{Nothing, SameWriteFaults, Touches};
ghost use Rattle.fab_base.specs.Slots.{NameIn};
ghost use Rattle.window_records.specs.First.{AreFresh, opened_in};
ghost use Rattle.window_records.specs.Ports.{AreInputs, TakesFrom, slots_of, walk_at};
ghost use Rattle.window_records.specs.Reads.{HaveRead};
ghost use Rattle.fab_policy.specs.Journal.{Journal};
ghost use Rattle.fab_policy.specs.Outputs.{state_of};
ghost use Rattle.fab_replay.specs.Check.{Checks, Leaves, matter_in, Task, task_from, task_of};
ghost use Rattle.fab_replay.specs.Counts as spec;
ghost use Rattle.fab_replay.specs.Front.{has_left};
ghost use Rattle.fab_replay.specs.FrontFrom.{Origin, expects_tick_from};
ghost use Rattle.fab_replay.specs.Lines.{IsInside, IsOfLine, behind_by, end_fault};
ghost use Rattle.fab_replay.specs.Steps.{IsAlong, IsFound, IsReached, Left, Scene};
ghost use Rattle.fab_replay.specs.Windows.{Ends, Going, IsNotEarly, IsOf, stand_at};
ghost use Rattle.fab_policy.specs.Standing.{Contents};
ghost use Rattle.std.specs.Prelude.{drop};

use crate::laws::laws_of_windows;
use crate::lines::{fault_at, first_place, next_line};
use crate::owed::Owed;
use crate::windows::{Course, Written, check_windows, fault_of};
use crate::{CheckFault, LineWhy, Place};
use fab_base::Depot;
use fab_policy::{Line, Verdict};
use forward_core::Fabric;
use pcap_file::Budget;
use std::alloc::Global;
use window_records::{Input, Shelf, first_looks, next_window};

/// Where a check stands before its first window.
#[derive(Debug, Drop)]
pub(crate) struct Begun {
    pub(crate) shelves: Vec<Shelf>,
    pub(crate) course: Course,
}

/// Checks a journal, in either format, against captures in port order and against outputs of the
/// first ports, and answers how many entries it has; without outputs none is compared. A window of
/// the captures is read before its lines are checked, and an output that differs is answered only
/// where all lines are right. The fabric, which is new, represents the journal then; on Err it has
/// taken the entries of the lines before the fault, and at most one more: the frame or the tick
/// that should stand there. However it ends, `ins` keep their slots, and the budget isn't raised.
pub fn check_captures<D: Depot>(
    alloc: Global,
    depot: &mut D,
    fabric: &mut Fabric,
    journal: &[u8],
    ins: &mut [Input],
    outs: &[u32],
    budget: &mut Budget,
) -> Result<u64, CheckFault>
    requires ports { (1 ≤ length ins.old) × (length ins.old ≤ 64) }
    requires outputs { length outs.now ≤ length ins.old }
    requires inputs { AreInputs (D.seen depot.old) (slots_of ins.old ++ outs.now) }
    requires fresh { AreFresh ins.old }
    requires count { fabric.old.count ≡ length ins.old }
    requires state { fabric.old.state ≡ state_of fabric.old.settings [] }
    requires nothing { (fabric.old.events ≡ []) × (fabric.old.outs ≡ []) }
    ensures checks { Checks (task_of fabric.old.settings budget.old ins.old (D.seen depot.old)
        journal.now outs.now) (D.seen depot.new) fabric.new result }
    ensures leaves { let a = D.seen depot.old in Leaves fabric.old.settings budget.old
        (matter_in a ins.old journal.now outs.now) a.told fabric.new result }
    ensures settings { fabric.new.settings ≡ fabric.old.settings }
    ensures count { fabric.new.count ≡ fabric.old.count }
    ensures takes { TakesFrom ins.old ins.new budget.old budget.new }
    ensures counts { SparesReads (end_by spec.check_end result) (D.seen depot.old)
        (D.seen depot.new) × SameWriteFaults (D.seen depot.old) (D.seen depot.new) }
{
    // For the checker: a fault that is handed on by `?` holds these enums.
    let _verdicts: &[Verdict] = &[];
    let _whys: &[LineWhy] = &[];
    let written = Written {
        journal,
        firsts: &[],
        outs,
    };
    let mut begun = look_first(alloc, depot, fabric, &written, ins, budget)?;
    check_begun(alloc, depot, fabric, &written, ins, budget, &mut begun)
}

// Looks at the first record of each port; nothing of the journal and of the outputs is read yet.
pub(crate) fn look_first<D: Depot>(
    alloc: Global,
    depot: &mut D,
    fabric: &Fabric,
    written: &Written<'_>,
    ins: &mut [Input],
    budget: &mut Budget,
) -> Result<Begun, CheckFault>
    requires ports { (1 ≤ length ins.old) × (length ins.old ≤ 64) }
    requires outputs { length written.now.outs.now ≤ length ins.old }
    requires inputs { AreInputs (D.seen depot.old) (slots_of ins.old ++ written.now.outs.now) }
    requires fresh { AreFresh ins.old }
    requires count { fabric.now.count ≡ length ins.old }
    requires nothing { (fabric.now.events ≡ []) × (fabric.now.outs ≡ []) }
    ensures begins { (o : Origin) → fabric.now.state ≡ o.state
        → length o.firsts ≡ length ins.old → let k = task_from fabric.now.settings o budget.old ins.old (D.seen depot.old)
        written.now.journal.now written.now.outs.now in MatchResult result
        (λ b. IsNotEarly k.settings b.shelves.items fabric.now → Going k 0
        (stand_at fabric.now b.course
        (walk_at (D.seen depot.new) ins.new b.shelves.items budget.new)))
        (λ e. Ends k (D.seen depot.new) fabric.now (Err e)) }
    ensures shelves { IfOk result (λ b. length b.shelves.items ≡ length ins.old) }
    ensures touches { IfOk result (λ _. Touches Nothing
        (NameIn (D.seen depot.old) (slots_of ins.old)) (D.seen depot.old) (D.seen depot.new)) }
    ensures read { IfOk result (λ b. HaveRead fabric.now.settings 0
        (opened_in (D.seen depot.old) ins.old) (map (λ _. []) ins.old) ins.new b.shelves.items
        (D.seen depot.new)) }
    ensures takes { TakesFrom ins.old ins.new budget.old budget.new }
    ensures counts { SparesReads (end_by spec.check_end result) (D.seen depot.old)
        (D.seen depot.new) × SameWriteFaults (D.seen depot.old) (D.seen depot.new) }
{
    let place = first_place(written.journal);
    let owed = Owed::new(alloc, written.outs.len())?;
    let shelves = match first_looks(alloc, depot, ins, budget) {
        Ok(shelves) => shelves,
        Err(fault) => return Err(fault_of(fault)),
    };
    let first = next_window(fabric.config(), &shelves).unwrap_or(0);
    let course = Course { first, place, owed };
    Ok(Begun { shelves, course })
}

// Checks the lines of all windows, that no line is behind them, and then the outputs.
pub(crate) fn check_begun<D: Depot>(
    alloc: Global,
    depot: &mut D,
    fabric: &mut Fabric,
    written: &Written<'_>,
    ins: &mut [Input],
    budget: &mut Budget,
    begun: &mut Begun,
) -> Result<u64, CheckFault>
    requires going { (k : Task) × IsOf k written.now
        × Going k 0 (stand_at fabric.old begun.old.course
        (walk_at (D.seen depot.old) ins.old begun.old.shelves.items budget.old)) }
    ensures ends { (k : Task) → IsOf k written.now
        → Going k 0 (stand_at fabric.old begun.old.course
        (walk_at (D.seen depot.old) ins.old begun.old.shelves.items budget.old))
        → Ends k (D.seen depot.new) fabric.new result }
    ensures settings { fabric.new.settings ≡ fabric.old.settings }
    ensures count { fabric.new.count ≡ fabric.old.count }
    ensures takes { TakesFrom ins.old ins.new budget.old budget.new }
    ensures counts { SparesReads (end_by spec.check_end result) (D.seen depot.old)
        (D.seen depot.new) × SameWriteFaults (D.seen depot.old) (D.seen depot.new) }
{
    // Law: which looks are left, what was read and what a stop keeps; Checks ends with them.
    laws_of_windows();
    // For the checker: a fault that is handed on by `?` holds these enums.
    let _verdicts: &[Verdict] = &[];
    let _whys: &[LineWhy] = &[];
    check_windows(
        alloc,
        depot,
        fabric,
        written,
        ins,
        &mut begun.shelves,
        budget,
        &mut begun.course,
    )?;
    check_end(alloc, written.journal, &begun.course.place)?;
    begun.course.owed.read_out(depot, written.outs)?;
    Ok(begun.course.place.entries)
}

// Checks that no line is at a place, where no frame is left.
fn check_end(alloc: Global, journal: &[u8], place: &Place) -> Result<(), CheckFault>
    requires inside { IsInside journal.now place.now }
    ensures checks { (x : Scene) (J : Journal) (F : Contents) → x.bytes ≡ journal.now
        → x.stop ≡ None → IsReached x J F place.now → has_left x.settings x.records J ≡ false
        → expects_tick_from x.settings x.from x.records J ≡ false
        → MatchResult result (λ _. drop place.now.at journal.now ≡ []) (λ e. IsFound x e) }
    ensures left { (x : Scene) (told : Bool) (J : Journal) (F : Contents) → x.bytes ≡ journal.now
        → IsAlong x told J F place.now
        → (IsTrue told → expects_tick_from x.settings x.from x.records J ≡ false)
        → IfErr result (λ e. Left x told F e) }
    ensures only { IfErr result IsOfLine }
{
    // For the checker: the fault of a line holds this enum.
    let _verdicts: &[Verdict] = &[];
    if is_end(journal, place) {
        return Ok(());
    }
    let mut behind = *place;
    let next = next_line(alloc, journal, &mut behind);
    Err(fault_behind(next, place))
}

// The fault of what is read behind the last frame: of the line there, or why none is read.
fn fault_behind(next: Result<Line, CheckFault>, place: &Place) -> CheckFault
    requires room { place.now.entries + place.now.entries ≤ place.now.at }
    ensures { result ≡ end_fault next place.now }
{
    // For the checker: the fault of a line holds this enum.
    let _verdicts: &[Verdict] = &[];
    match next {
        Ok(line) => line_behind(&line, place),
        Err(fault) => fault,
    }
}

// The fault of a line that stands behind the last frame.
fn line_behind(line: &Line, place: &Place) -> CheckFault
    requires room { place.now.entries + place.now.entries ≤ place.now.at }
    ensures { result ≡ behind_by line.now place.now }
{
    match line {
        Line::Tick { .. } => fault_at(place, LineWhy::Tick),
        Line::Frame { .. } => fault_at(place, LineWhy::Frame),
    }
}

// Whether a journal ends at a place.
fn is_end(journal: &[u8], place: &Place) -> bool
    requires inside { IsInside journal.now place.now }
    ensures { MatchBool result (drop place.now.at journal.now ≡ [])
        (drop place.now.at journal.now ≡ [] → ⊥) }
{
    place.at == journal.len()
}
