//! The lines of ticks.
ghost use Rattle.std.specs.Prelude.{IfErr, Bool, IsTrue, ◌≡◌, ◌+◌, ◌<◌, ◌≤◌, ◌%◌, ◌^◌, ◌∷◌, [], ℕ, List, IfSome, MatchResult, MatchBool, OnOk, Some, length, true};
ghost use Rattle.fab_policy.specs.Journal.{Journal};
ghost use Rattle.window_records.specs.Keeping.{IsAhead};
ghost use Rattle.fab_policy.specs.Legal.{IsLeastOf, windows_left};
ghost use Rattle.fab_policy.specs.declared.event.Event.TheVariants as event;
ghost use Rattle.fab_policy.specs.declared.line.Line.TheVariants as line_;
ghost use Rattle.fab_pages.specs.Pages.{items_in};
ghost use Rattle.fab_replay.specs.Lines.{IsInside, IsOfLine, IsOtherTick};
ghost use Rattle.fab_replay.specs.Owed.{PagesGrow};
ghost use Rattle.fab_replay.specs.Steps.{Advances, HoldSame, IsAlong, IsFound, IsIdle, IsReached, IsTickNow, Left, Scene};

use crate::lines::{fault_at, next_line};
use crate::sent::take_sent;
use crate::{CheckFault, LineWhy, Place};
use fab_base::{IdList, Moment};
use fab_policy::{Event, Line, Verdict};
use forward_core::{EventList, Fabric};
use std::alloc::Global;

/// Checks the lines of the ticks up to a window, and makes the ticks.
pub(crate) fn check_ticks(
    alloc: Global,
    fabric: &mut Fabric,
    journal: &[u8],
    place: &mut Place,
    window: u64,
    pages: &mut [Vec<u8>],
) -> Result<(), CheckFault>
    requires inside { IsInside journal.now place.old }
    requires range { window < 2 ^ 53 }
    requires start { window % fabric.old.settings.window ≡ 0 }
    requires order { IfSome fabric.old.state.tables.clock (λ t. t ≤ window) }
    requires idle { IsIdle fabric.old }
    ensures checks { (x : Scene) (J : Journal) → x.bytes ≡ journal.now
        → IsReached x J fabric.old place.old
        → IsLeastOf (windows_left x.settings 1 x.records J) window
        → IsAhead (window + 1) x.stop → MatchResult result
        (λ _. (K : Journal) × IsReached x K fabric.new place.new × HoldSame J K
        × PagesGrow x.settings (length x.records) x.from J K (items_in pages.old)
        (items_in pages.new))
        (λ e. IsFound x e) }
    ensures left { (x : Scene) (told : Bool) (J : Journal) → x.bytes ≡ journal.now
        → IsAlong x told J fabric.old place.old
        → (IsTrue told → IsLeastOf (windows_left x.settings 1 x.records J) window)
        → MatchResult result
        (λ _. (K : Journal) × IsAlong x told K fabric.new place.new × HoldSame J K)
        (λ e. Left x told fabric.new e) }
    ensures advances { Advances window fabric.old fabric.new journal.now place.new result }
    ensures pages { length pages.new ≡ length pages.old }
    ensures only { IfErr result IsOfLine }
{
    // For the checker: a fault that is handed on by `?` holds these enums.
    let _verdicts: &[Verdict] = &[];
    let _whys: &[LineWhy] = &[];
    'ticks: while let Some(moment) = fabric.next_tick(window) {
        check_tick(alloc, fabric, journal, place, moment, pages)?;
    }
    Ok(())
}

// Checks the line of a tick, and makes the tick.
fn check_tick(
    alloc: Global,
    fabric: &mut Fabric,
    journal: &[u8],
    place: &mut Place,
    moment: Moment,
    pages: &mut [Vec<u8>],
) -> Result<(), CheckFault>
    requires inside { IsInside journal.now place.old }
    requires range { moment < 2 ^ 53 }
    requires order { IfSome fabric.old.state.tables.clock (λ t. t < moment) }
    requires idle { IsIdle fabric.old }
    ensures checks { (x : Scene) (J : Journal) (t : IsTickNow x J moment) → x.bytes ≡ journal.now
        → IsReached x J fabric.old place.old → IsAhead (t.window + 1) x.stop → MatchResult result
        (λ _. (ended : List ℕ) × IsReached x (event.Tick moment ended ∷ J) fabric.new place.new
        × PagesGrow x.settings (length x.records) x.from J (event.Tick moment ended ∷ J)
        (items_in pages.old) (items_in pages.new))
        (λ e. IsFound x e) }
    ensures left { (x : Scene) (told : Bool) (J : Journal) → x.bytes ≡ journal.now
        → IsAlong x told J fabric.old place.old → (IsTrue told → IsTickNow x J moment)
        → MatchResult result
        (λ _. (ended : List ℕ) × IsAlong x told (event.Tick moment ended ∷ J) fabric.new place.new)
        (λ e. Left x told fabric.new e) }
    ensures advances { Advances moment fabric.old fabric.new journal.now place.new result }
    ensures onward { OnOk result (place.old.at < place.new.at) }
    ensures pages { length pages.new ≡ length pages.old }
    ensures only { IfErr result IsOfLine }
{
    let before = *place;
    let line = next_line(alloc, journal, place)?;
    fabric.tick(alloc, moment)?;
    let drained = take_sent(alloc, fabric, pages)?;
    same_tick(&before, &line, &drained.events)?;
    Ok(())
}

// Checks that a line, which stands at a place, is that of the one entry in a list, which is a tick.
fn same_tick(place: &Place, line: &Line, events: &EventList) -> Result<(), CheckFault>
    requires room { place.now.entries + place.now.entries ≤ place.now.at }
    ensures { (moment : ℕ) (ended : List ℕ) → events.now ≡ event.Tick moment ended ∷ []
        → MatchResult result (λ _. line.now ≡ line_.Tick moment ended)
        (λ e. IsOtherTick place.now line.now moment ended e) }
{
    if is_line_of(line, events) {
        return Ok(());
    }
    Err(fault_at(place, LineWhy::Tick))
}

// Whether a line is that of the one entry in a list, which is a tick.
fn is_line_of(line: &Line, events: &EventList) -> bool
    ensures { (moment : ℕ) (ended : List ℕ) → events.now ≡ event.Tick moment ended ∷ []
        → MatchBool result (line.now ≡ line_.Tick moment ended)
        (line.now ≡ line_.Tick moment ended → ⊥) }
{
    match (line, events.at(0)) {
        (
            Line::Tick { moment, ended },
            Some(
                Event::Tick {
                    moment: at,
                    ended: ends,
                },
            ),
        ) => moment.0 == at.0 && are_same(ended, ends),
        _ => false,
    }
}

// Whether two lists have the same addresses.
fn are_same(one: &IdList, other: &IdList) -> bool
    ensures { MatchBool result (one.now ≡ other.now) (one.now ≡ other.now → ⊥) }
{
    if one.len() != other.len() {
        return false;
    }
    let mut place = 0;
    'places: while place < one.len() {
        let address = one.at(place).unwrap();
        let same = other.at(place).unwrap();
        if address.value() != same.value() {
            return false;
        }
        place += 1;
    }
    true
}
