//! The lines of the frames of a window.
ghost use Rattle.std.specs.Prelude.{◌≡◌, ◌+◌, ◌<◌, ◌≤◌, ◌^◌, ◌∷◌, ℕ, IsSome, IfOk, IfSome, MatchOption, MatchBool, MatchResult, OnOk, IfErr, length, option_copied, replicate, slice_get, unwrap_or};
ghost use Rattle.fab_policy.specs.Journal.{Journal};
ghost use Rattle.fab_policy.specs.Ranged.{IsRangedEvent};
ghost use Rattle.fab_policy.specs.declared.event.Event.TheVariants as event;
ghost use Rattle.fab_policy.specs.declared.line.Line.TheVariants as line_;
ghost use Rattle.fab_pages.specs.Pages.{items_in};
ghost use Rattle.fab_replay.specs.FrontFrom.{Origin, StandsFrom};
ghost use Rattle.fab_replay.specs.Lines.{IsOfLine};
ghost use Rattle.fab_states.specs.States.{LegalFrom};
ghost use Rattle.fab_replay.specs.Steps as spec;
ghost use Rattle.fab_replay.specs.Owed.{PagesGrow};
ghost use Rattle.fab_replay.specs.Steps.{AllDone, AreCounted, ChecksLines, HasDone, HasLeft, HasNone, HasTurned, IsAmong, IsIdle, IsOfNone, IsOfTick, IsOnShelf, IsRefused, spot_at};
ghost use Rattle.pcap_file.specs.declared.Record.{Record as of_captures};

use crate::lines::{fault_at, next_line};
use crate::sent::take_sent;
use crate::verdicts::{Misjudged, step_as};
use crate::{CheckFault, LineWhy, Place};
use fab_base::{Moment, NoMemory, PortNo};
use fab_policy::{Line, Verdict};
use forward_core::Fabric;
use heard_frames::hear;
use pcap_file::Record;
use std::alloc::Global;
use window_records::Shelf;

/// A window's records, on the shelves of their ports, and how many frames each port had before the
/// check.
#[derive(Clone, Copy, Debug)]
pub(crate) struct Gathered<'a> {
    pub(crate) window: u64,
    pub(crate) firsts: &'a [u64],
    pub(crate) shelves: &'a [Shelf],
}

// The words of a frame's line.
#[derive(Clone, Copy, Debug)]
struct FrameLine {
    port: PortNo,
    index: u64,
    verdict: Verdict,
    clock: Option<Moment>,
}

// The frame of a line, with the verdict that it has there.
#[derive(Clone, Copy, Debug)]
struct NamedFrame<'a> {
    port: PortNo,
    index: u64,
    found: &'a Record,
    verdict: Verdict,
}

/// Checks the lines of the frames on the shelves, which come in any order of ports, each port's in
/// their order, and has the fabric handle them.
pub(crate) fn check_frames(
    alloc: Global,
    fabric: &mut Fabric,
    journal: &[u8],
    place: &mut Place,
    gathered: &Gathered<'_>,
    pages: &mut [Vec<u8>],
) -> Result<(), CheckFault>
    requires { IsAmong gathered.now journal.now fabric.old place.old }
    ensures { let g = gathered.now in
        ChecksLines g.window (HasNone g) (λ x J K. AreCounted K g.shelves.now) journal.now
        (spot_at fabric.old place.old pages.old) (spot_at fabric.new place.new pages.new) result }
{
    // For the checker: a fault that is handed on by `?` holds these enums.
    let _verdicts: &[Verdict] = &[];
    let _whys: &[LineWhy] = &[];
    let mut counts = zeros(alloc, gathered.shelves.len())?;
    let done: &mut [usize] = &mut counts;
    'lines: while has_left(gathered.shelves, done) {
        check_frame(alloc, fabric, journal, place, gathered, done, pages)?;
    }
    Ok(())
}

// So many zeros.
fn zeros(alloc: Global, count: usize) -> Result<Vec<usize>, NoMemory>
    ensures zeros { IfOk result (λ v. v.items ≡ replicate count 0) }
{
    Ok(Vec::from_elem(alloc, 0, count)?)
}

// Checks the line of a frame, and has the fabric handle it.
fn check_frame(
    alloc: Global,
    fabric: &mut Fabric,
    journal: &[u8],
    place: &mut Place,
    gathered: &Gathered<'_>,
    done: &mut [usize],
    pages: &mut [Vec<u8>],
) -> Result<(), CheckFault>
    requires among { IsAmong gathered.now journal.now fabric.old place.old }
    requires width { length done.old ≡ length gathered.now.shelves.now }
    requires left { HasLeft gathered.now.shelves.now done.old }
    ensures lines { let g = gathered.now in
        ChecksLines g.window (HasDone g done.old) (λ x J. HasDone g done.new x) journal.now
        (spot_at fabric.old place.old pages.old) (spot_at fabric.new place.new pages.new) result }
    ensures onward { OnOk result (place.old.at < place.new.at) }
    ensures width { length done.new ≡ length done.old }
{
    let before = *place;
    let line = next_line(alloc, journal, place)?;
    let words = frame_line(&before, &line)?;
    let found = record_of(&before, gathered, done, &words)?;
    let named = NamedFrame {
        port: words.port,
        index: words.index,
        found,
        verdict: words.verdict,
    };
    take_frame(alloc, fabric, &before, &named, pages)?;
    done[words.port.index()] += 1;
    Ok(())
}

// The words of a line that stands at a place, if it is that of a frame.
fn frame_line(place: &Place, line: &Line) -> Result<FrameLine, CheckFault>
    requires room { place.now.entries + place.now.entries ≤ place.now.at }
    ensures words { MatchResult result
        (λ l. line.now ≡ line_.Frame l.port l.index l.verdict l.clock)
        (λ e. IsOfTick place.now line.now e) }
    ensures only { IfErr result IsOfLine }
{
    match line {
        Line::Tick { .. } => Err(fault_at(place, LineWhy::Tick)),
        Line::Frame {
            port,
            index,
            verdict,
            clock,
        } => Ok(FrameLine {
            port: *port,
            index: *index,
            verdict: *verdict,
            clock: *clock,
        }),
    }
}

// The record of a frame's line that stands at a place, if it is the next on its port's shelf.
fn record_of<'a>(
    place: &Place,
    gathered: &Gathered<'a>,
    done: &[usize],
    words: &FrameLine,
) -> Result<&'a Record, CheckFault>
    requires room { place.now.entries + place.now.entries ≤ place.now.at }
    requires count { length done.now ≡ length gathered.now.shelves.now }
    ensures named { let g = gathered.now in let l = words.now in MatchResult result
        (λ r. IsOnShelf g.firsts.now g.shelves.now done.now g.window l.port l.index l.clock r.now)
        (λ e. IsOfNone place.now (IsOnShelf g.firsts.now g.shelves.now done.now g.window l.port
        l.index l.clock) e) }
    ensures room { IfOk result (λ r. (q k : ℕ) → words.now.port ≡ q + 1
        → slice_get done.now q ≡ Some k → k + 1 < 2 ^ 64) }
    ensures only { IfErr result IsOfLine }
{
    match next_on_shelf(gathered, done, words.port, words.index, words.clock) {
        Some(found) => Ok(found),
        None => Err(fault_at(place, LineWhy::Frame)),
    }
}

// Has the fabric handle a frame as its line says, which stands at a place.
fn take_frame(
    alloc: Global,
    fabric: &mut Fabric,
    place: &Place,
    named: &NamedFrame<'_>,
    pages: &mut [Vec<u8>],
) -> Result<(), CheckFault>
    requires room { place.now.entries + place.now.entries ≤ place.now.at }
    requires clock { IsSome fabric.old.state.tables.clock }
    requires early { IfSome fabric.old.state.tables.clock (λ t. t < 2 ^ 53) }
    requires idle { IsIdle fabric.old }
    ensures entries { OnOk result ((o : Origin) (J : Journal)
        → LegalFrom fabric.old.settings o.state J → StandsFrom o fabric.old J → let n = named.now in
        let K = event.Frame n.port n.index n.found.now.caught n.verdict ∷ J in
        LegalFrom fabric.old.settings o.state K × StandsFrom o fabric.new K
        × PagesGrow fabric.old.settings fabric.old.count o J K (items_in pages.old)
        (items_in pages.new)) }
    ensures ranged { OnOk result (let n = named.now in
        IsRangedEvent (event.Frame n.port n.index n.found.now.caught n.verdict)) }
    ensures refused { IfErr result (λ e. IsRefused fabric.old.settings fabric.old.state.tables
        place.now named.now.port named.now.found.now.caught named.now.verdict e) }
    ensures left { IfErr result (λ e. (o : Origin) (J : Journal)
        → LegalFrom fabric.old.settings o.state J → StandsFrom o fabric.old J → let n = named.now in
        HasTurned fabric.old.settings o fabric.new J n.port n.index n.found.now.caught e) }
    ensures clock { OnOk result
        (fabric.new.state.tables.clock ≡ fabric.old.state.tables.clock) }
    ensures settings { (fabric.new.settings ≡ fabric.old.settings)
        × (fabric.new.count ≡ fabric.old.count) }
    ensures idle { OnOk result (IsIdle fabric.new) }
    ensures pages { length pages.new ≡ length pages.old }
    ensures only { IfErr result IsOfLine }
{
    let heard = hear(&named.found.caught);
    match step_as(
        alloc,
        fabric,
        named.port,
        named.index,
        &heard,
        named.verdict,
    ) {
        Ok(()) => {}
        Err(misjudged) => return Err(refusal(place, named.verdict, misjudged)),
    }
    take_sent(alloc, fabric, pages)?;
    Ok(())
}

// What a frame is refused with whose line at a place has a verdict that isn't right.
fn refusal(place: &Place, found: Verdict, misjudged: Misjudged) -> CheckFault
    requires room { place.now.entries + place.now.entries ≤ place.now.at }
    ensures { result ≡ spec.refusal place.now found misjudged }
{
    match misjudged {
        Misjudged::Wrong { made } => fault_at(place, LineWhy::Verdict { found, made }),
        Misjudged::Memory => CheckFault::Memory,
    }
}

// The next record on the shelf of a port, if a line is about it.
fn next_on_shelf<'a>(
    gathered: &Gathered<'a>,
    done: &[usize],
    port: PortNo,
    index: u64,
    clock: Option<Moment>,
) -> Option<&'a Record>
    requires count { length done.now ≡ length gathered.now.shelves.now }
    ensures named { let g = gathered.now in MatchOption result
        ((r : of_captures) → IsOnShelf g.firsts.now g.shelves.now done.now g.window port index
        clock r → ⊥)
        (λ r. IsOnShelf g.firsts.now g.shelves.now done.now g.window port index clock r.now) }
    ensures room { IfSome result (λ r. (q k : ℕ) → port ≡ q + 1 → slice_get done.now q ≡ Some k
        → k + 1 < 2 ^ 64) }
{
    if is_other(clock, gathered.window) {
        return None;
    }
    let at = port.index();
    let shelf = shelf_at(gathered.shelves, at)?;
    let place = done_at(done, at)?;
    let found = record_at(shelf, place)?;
    if !is_number(
        index,
        first_at(gathered.firsts, at),
        shelf.first_index() + place as u64,
    ) {
        return None;
    }
    Some(found)
}

// How many frames a port had before the check.
fn first_at(firsts: &[u64], port: usize) -> u64
    ensures { result ≡ unwrap_or (slice_get firsts.now port) 0 }
{
    match firsts.get(port) {
        Some(first) => *first,
        None => 0,
    }
}

// Whether an index is that of a frame behind the first ones.
fn is_number(index: u64, first: u64, own: u64) -> bool
    ensures { MatchBool result (index ≡ first + own) (index ≡ first + own → ⊥) }
{
    index >= first && index - first == own
}

// The shelf of a port.
fn shelf_at<'a>(shelves: &'a [Shelf], port: usize) -> Option<&'a Shelf>
    ensures { option_copied result ≡ slice_get shelves.now port }
{
    shelves.get(port)
}

// The record at a place of a shelf.
fn record_at<'a>(shelf: &'a Shelf, place: usize) -> Option<&'a Record>
    ensures { option_copied result ≡ slice_get shelf.now.batch.items place }
{
    shelf.batch.get(place)
}

// How many records of a port have lines.
fn done_at(done: &[usize], port: usize) -> Option<usize>
    ensures { result ≡ slice_get done.now port }
{
    match done.get(port) {
        Some(count) => Some(*count),
        None => None,
    }
}

// Whether a line has another clock.
fn is_other(told: Option<Moment>, clock: u64) -> bool
    ensures { MatchBool result (IfSome told (λ t. t ≡ clock) → ⊥) (IfSome told (λ t. t ≡ clock)) }
{
    match told {
        Some(told) => told.0 != clock,
        None => false,
    }
}

// Whether a record on some shelf has no line yet.
fn has_left(shelves: &[Shelf], done: &[usize]) -> bool
    requires count { length done.now ≡ length shelves.now }
    ensures { MatchBool result (HasLeft shelves.now done.now) (AllDone shelves.now done.now) }
{
    let mut port = 0;
    'ports: while port < shelves.len() {
        if has_left_at(shelves, done, port) {
            return true;
        }
        port += 1;
    }
    false
}

// Whether a record on the shelf of a port has no line yet.
fn has_left_at(shelves: &[Shelf], done: &[usize], port: usize) -> bool
    ensures { MatchBool result (spec.HasLeftAt shelves.now done.now port)
        (spec.IsDone shelves.now done.now port) }
{
    let (Some(shelf), Some(count)) = (shelf_at(shelves, port), done_at(done, port)) else {
        return false;
    };
    count < size_of(shelf)
}

// How many records are on a shelf.
fn size_of(shelf: &Shelf) -> usize
    ensures { result ≡ length shelf.now.batch.items }
{
    shelf.batch.len()
}
