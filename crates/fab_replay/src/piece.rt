//! A piece of a journal, checked from where a fabric stands.
ghost use Rattle.std.specs.Prelude.{◌≡◌, ℕ, ◌++◌, ◌<◌, ◌≤◌, IfNone, IfSome, MatchBool, [], length};
ghost use Rattle.fab_base.specs.Ending.{SparesReads, end_by};
ghost use Rattle.fab_base.specs.Seen.{SameWriteFaults};
ghost use Rattle.window_records.specs.First.{AreFresh};
ghost use Rattle.window_records.specs.Ports.{AreInputs, TakesFrom, slots_of};
ghost use Rattle.fab_replay.specs.Check.{task_from};
ghost use Rattle.fab_replay.specs.Counts as spec;
ghost use Rattle.fab_replay.specs.Piece.{AreLater, ChecksPiece, IsFirstEarly, IsShelfEarly, IsShelfLater, origin_of};

use crate::check::{check_begun, look_first};
use crate::windows::Written;
use crate::{CheckFault, LineWhy};
use fab_base::{Depot, Moment, PortNo};
use fab_config::Config;
use fab_policy::Verdict;
use forward_core::Fabric;
use pcap_file::Budget;
use std::alloc::Global;
use window_records::{Input, Shelf, window_start};

/// What the check of a piece comes to where nothing in it is wrong.
#[derive(Clone, Copy, Debug, PartialEq, Eq)]
pub enum Checked {
    /// It is right, and has so many entries.
    Right { entries: u64 },
    /// The first record of this port is in a window before the clock: no piece begins so.
    Early { port: PortNo },
}

/// Checks a piece of a journal, in either format, against its own captures in port order and
/// against outputs of the first ports, from where the fabric stands: whatever led to its state, and
/// however many frames each port had before. All is as in `check_captures`, which goes on from
/// nothing; a piece whose captures begin before the clock is refused before a line of it is read.
pub fn check_piece<D: Depot>(
    alloc: Global,
    depot: &mut D,
    fabric: &mut Fabric,
    written: &Written<'_>,
    ins: &mut [Input],
    budget: &mut Budget,
) -> Result<Checked, CheckFault>
    requires ports { (1 ≤ length ins.old) × (length ins.old ≤ 64) }
    requires outputs { length written.now.outs.now ≤ length ins.old }
    requires firsts { length written.now.firsts.now ≡ length ins.old }
    requires inputs { AreInputs (D.seen depot.old) (slots_of ins.old ++ written.now.outs.now) }
    requires fresh { AreFresh ins.old }
    requires count { fabric.old.count ≡ length ins.old }
    requires nothing { (fabric.old.events ≡ []) × (fabric.old.outs ≡ []) }
    ensures checks { ChecksPiece (task_from fabric.old.settings
        (origin_of fabric.old written.now.firsts.now) budget.old ins.old (D.seen depot.old)
        written.now.journal.now written.now.outs.now) (D.seen depot.new) fabric.old fabric.new
        result }
    ensures settings { fabric.new.settings ≡ fabric.old.settings }
    ensures count { fabric.new.count ≡ fabric.old.count }
    ensures takes { TakesFrom ins.old ins.new budget.old budget.new }
    ensures counts { SparesReads (end_by spec.check_end result) (D.seen depot.old)
        (D.seen depot.new) × SameWriteFaults (D.seen depot.old) (D.seen depot.new) }
{
    // For the checker: a fault that is handed on by `?` holds these enums.
    let _verdicts: &[Verdict] = &[];
    let _whys: &[LineWhy] = &[];
    let mut begun = look_first(alloc, depot, fabric, written, ins, budget)?;
    if let Some(place) = early_place(fabric, &begun.shelves) {
        let port = PortNo::at(place);
        return Ok(Checked::Early { port });
    }
    let entries = check_begun(alloc, depot, fabric, written, ins, budget, &mut begun)?;
    Ok(Checked::Right { entries })
}

// The first place whose record is in a window before the clock of a fabric.
fn early_place(fabric: &Fabric, shelves: &[Shelf]) -> Option<usize>
    ensures some { IfSome result (λ q. (time : ℕ) × (fabric.now.state.tables.clock ≡ Some time)
        × IsFirstEarly fabric.now.settings time shelves.now q) }
    ensures none { IfNone result (IfSome fabric.now.state.tables.clock
        (λ time. AreLater fabric.now.settings time shelves.now)) }
    ensures within { IfSome result (λ q. q < length shelves.now) }
{
    match fabric.clock() {
        Some(clock) => first_early(fabric.config(), clock, shelves),
        None => None,
    }
}

// The first place whose record is in a window before a clock.
fn first_early(config: &Config, clock: Moment, shelves: &[Shelf]) -> Option<usize>
    ensures some { IfSome result (IsFirstEarly config.now clock shelves.now) }
    ensures none { IfNone result (AreLater config.now clock shelves.now) }
    ensures within { IfSome result (λ q. q < length shelves.now) }
{
    for (i, shelf) in shelves.iter().enumerate() {
        if is_early(config, clock, shelf) {
            return Some(i);
        }
    }
    None
}

// Whether the record of a shelf is in a window before a clock.
fn is_early(config: &Config, clock: Moment, shelf: &Shelf) -> bool
    ensures { MatchBool result (IsShelfEarly config.now clock shelf.now)
        (IsShelfLater config.now clock shelf.now) }
{
    match &shelf.next {
        Some(record) => window_start(config, record.moment) < clock.0,
        None => false,
    }
}
