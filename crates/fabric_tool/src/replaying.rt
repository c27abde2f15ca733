//! The commands `replay` and `show`.
ghost use Rattle.std.specs.Prelude.{◌≡◌, ◌≤◌, true, length, IsTrue};
ghost use Rattle.fab_base.specs.Seen.{Seen};
ghost use Rattle.fabric_tool.specs.Checking.{GivenRead, HasGiven, IsChecked, JournalRead};
ghost use Rattle.fabric_tool.specs.Checking.{OutputsRead, Tells};
ghost use Rattle.fabric_tool.specs.Checking.{command_of, refused_by, unread_by};
ghost use Rattle.fabric_tool.specs.Command as spec;
ghost use Rattle.fabric_tool.specs.Ends.{Holds, TouchesOwn};
ghost use Rattle.fabric_tool.specs.Inputs as limits;

use crate::command::{Width, count_of, output_at, port_count};
use crate::heads::heads_of;
use crate::inputs::config_of;
use crate::limits::{MOST_BYTES, MOST_FRAMES};
use crate::outcome::Outcome;
use crate::running::in_range;
use arrayvec::ArrayVec;
use fab_base::{Bytes, Depot, Failed, MOST_PORTS, WholeError, read_whole, word_at};
use fab_config::Config;
use fab_replay::{CheckFault, check_captures, write_shown};
use forward_core::Fabric;
use pcap_file::{Budget, LimitKind};
use run_files::add_slot;
use std::alloc::Global;

/// Checks a journal against the captures of all ports, and then the outputs.
pub(crate) fn replay<D: Depot>(alloc: Global, words: &[String], depot: &mut D) -> Outcome
    requires pairs { spec.are_pairs words.now ≡ true }
    requires known { spec.AllKnown (D.seen depot.old) words.now }
    ensures holds { Holds (spec.Replay (spec.run_of words.now))
        (D.seen depot.old) (D.seen depot.new) result }
    ensures touches { TouchesOwn (spec.Replay (spec.run_of words.now))
        (D.seen depot.old) (D.seen depot.new) }
{
    match check_files(alloc, words, depot, Width::Two) {
        Ok((_, entries)) => Outcome::Legal { entries },
        Err(outcome) => outcome,
    }
}

/// Checks a journal against the captures of all ports, and answers what stands at its end.
pub(crate) fn show<D: Depot>(alloc: Global, words: &[String], depot: &mut D) -> Outcome
    requires singles { spec.are_singles words.now ≡ true }
    requires known { spec.AllKnown (D.seen depot.old) words.now }
    ensures holds { Holds (spec.Show (spec.show_of words.now))
        (D.seen depot.old) (D.seen depot.new) result }
    ensures touches { TouchesOwn (spec.Show (spec.show_of words.now))
        (D.seen depot.old) (D.seen depot.new) }
{
    match check_files(alloc, words, depot, Width::One) {
        Ok((fabric, entries)) => show_fabric(alloc, &fabric, entries),
        Err(outcome) => outcome,
    }
}

// Shows a fabric after so many entries.
fn show_fabric(alloc: Global, fabric: &Fabric, entries: u64) -> Outcome
    ensures tells { Tells fabric.now entries result }
{
    let mut text = Vec::new(alloc);
    match write_shown(alloc, fabric, entries, &mut text) {
        Ok(()) => Outcome::Shown {
            text: Bytes::from_vec(text),
        },
        Err(_) => Outcome::Memory,
    }
}

// Checks the journal, and answers the fabric that represents it with the number of its entries.
fn check_files<D: Depot>(
    alloc: Global,
    words: &[String],
    depot: &mut D,
    width: Width,
) -> Result<(Fabric, u64), Outcome>
    requires ports { spec.are_ports width words.now ≡ true }
    requires known { spec.AllKnown (D.seen depot.old) words.now }
    ensures checks { IsChecked width (spec.names_of width words.now) (D.seen depot.old)
        (D.seen depot.new) result }
    ensures touches { TouchesOwn (command_of width (spec.names_of width words.now))
        (D.seen depot.old) (D.seen depot.new) }
{
    let (config, journal) = config_and_journal(alloc, depot, words, width)?;
    check(alloc, words, depot, width, config, &journal)
}

// The configuration, and behind it the journal, which is read whole.
fn config_and_journal<D: Depot>(
    alloc: Global,
    depot: &mut D,
    words: &[String],
    width: Width,
) -> Result<(Config, Vec<u8>), Outcome>
    requires ports { spec.are_ports width words.now ≡ true }
    requires known { spec.AllKnown (D.seen depot.old) words.now }
    ensures reads { GivenRead (spec.names_of width words.now) (D.seen depot.old)
        (D.seen depot.new) result }
{
    let config = config_of(alloc, depot, word_at(words, 1))?;
    let journal = journal_of(alloc, depot, word_at(words, 2), MOST_BYTES)?;
    Ok((config, journal))
}

// Checks a journal that was read. Its bytes and those of the captures are within one limit.
fn check<D: Depot>(
    alloc: Global,
    words: &[String],
    depot: &mut D,
    width: Width,
    config: Config,
    journal: &[u8],
) -> Result<(Fabric, u64), Outcome>
    requires ports { spec.are_ports width words.now ≡ true }
    requires known { spec.AllKnown (D.seen depot.old) words.now }
    requires room { length journal.now ≤ limits.MOST_BYTES }
    ensures checks { (a : Seen) → HasGiven (spec.names_of width words.now) config journal.now a
        (D.seen depot.old) → IsChecked width (spec.names_of width words.now) a (D.seen depot.new)
        result }
    ensures touches { TouchesOwn (command_of width (spec.names_of width words.now))
        (D.seen depot.old) (D.seen depot.new) }
{
    let mut budget = Budget {
        bytes: MOST_BYTES - journal.len() as u64,
        frames: MOST_FRAMES,
    };
    let mut ins = heads_of(alloc, depot, words, width, &mut budget)?;
    let outs = match outs_of(depot, words, width) {
        Ok(outs) => outs,
        Err(_) => return Err(Outcome::ReadFault),
    };
    // For the proof: the values of the configuration are in their ranges.
    in_range(&config);
    let Ok(mut fabric) = Fabric::new(alloc, config, count_of(words, width) as u32) else {
        return Err(Outcome::Memory);
    };
    match check_captures(
        alloc,
        depot,
        &mut fabric,
        journal,
        &mut ins,
        outs.as_slice(),
        &mut budget,
    ) {
        Ok(entries) => Ok((fabric, entries)),
        Err(fault) => Err(refused(&fault)),
    }
}

// The outputs, opened to be read; of `show` there are none.
fn outs_of<D: Depot>(
    depot: &mut D,
    words: &[String],
    width: Width,
) -> Result<ArrayVec<u32, MOST_PORTS>, Failed>
    requires ports { spec.are_ports width words.now ≡ true }
    requires known { spec.AllKnown (D.seen depot.old) words.now }
    ensures reads { OutputsRead (λ o. o.items) (spec.names_of width words.now) (D.seen depot.old)
        (D.seen depot.new) result }
{
    match width {
        Width::One => Ok(ArrayVec::new()),
        Width::Two => open_each(depot, words),
    }
}

// A journal in a file, within a limit of bytes.
fn journal_of<D: Depot>(
    alloc: Global,
    depot: &mut D,
    name: &str,
    limit: u64,
) -> Result<Vec<u8>, Outcome>
    requires known { IsTrue ((D.seen depot.old).knows name.now) }
    ensures reads { JournalRead name.now limit (D.seen depot.old) (D.seen depot.new) result }
{
    let Ok(slot) = depot.open_in(name) else {
        return Err(Outcome::ReadFault);
    };
    match read_whole(alloc, depot, slot, limit) {
        Ok(journal) => Ok(journal),
        Err(error) => Err(outcome_of_error(error)),
    }
}

// How an error of reading the journal ends the command.
fn outcome_of_error(error: WholeError) -> Outcome
    ensures { result ≡ unread_by error }
{
    match error {
        WholeError::Bytes => Outcome::Limit {
            kind: LimitKind::Bytes,
        },
        WholeError::Memory => Outcome::Memory,
        WholeError::Read(_) => Outcome::ReadFault,
    }
}

// Opens the outputs of all ports to be read, in port order.
fn open_each<D: Depot>(depot: &mut D, words: &[String]) -> Result<ArrayVec<u32, MOST_PORTS>, Failed>
    requires pairs { spec.are_pairs words.now ≡ true }
    requires known { spec.AllKnown (D.seen depot.old) words.now }
    ensures reads { OutputsRead (λ o. o.items) (spec.run_of words.now) (D.seen depot.old)
        (D.seen depot.new) result }
{
    let mut outs = ArrayVec::new();
    for port in 0..port_count(words) {
        let slot = depot.open_in(output_at(words, port))?;
        add_slot(&mut outs, slot);
    }
    Ok(outs)
}

// How a fault of a check ends the command.
fn refused(fault: &CheckFault) -> Outcome
    ensures { result ≡ refused_by fault.now }
{
    match fault {
        CheckFault::Line { line, why } => Outcome::WrongLine {
            line: *line,
            why: *why,
        },
        CheckFault::Output { port, at } => Outcome::WrongOutput {
            port: *port,
            at: *at,
        },
        CheckFault::Capture { port, at, why } => Outcome::Capture {
            port: *port,
            at: *at,
            why: *why,
        },
        CheckFault::Limit(kind) => Outcome::Limit { kind: *kind },
        CheckFault::Read => Outcome::ReadFault,
        CheckFault::Memory => Outcome::Memory,
    }
}
