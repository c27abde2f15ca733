//! The command `run`.
ghost use Rattle.std.specs.Prelude.{◌≡◌, IsTrue, true};
ghost use Rattle.fab_config.specs.Settings.{is_in_range};
ghost use Rattle.fabric_tool.specs.Command as spec;
ghost use Rattle.fabric_tool.specs.Ends.{Holds, TouchesOwn};
ghost use Rattle.fabric_tool.specs.Left.{LegalIsSafe};
ghost use Rattle.fabric_tool.specs.Opening.{ran_by, stopped_by};
ghost use Rattle.fabric_tool.specs.Preparing.{IsPrepared};

use crate::command::{Width, port_count};
use crate::heads::heads_of;
use crate::inputs::config_of;
use crate::limits::{MOST_BYTES, MOST_FRAMES};
use crate::outcome::Outcome;
use crate::outputs::open_outputs;
use fab_base::{Depot, Gate, word_at};
use fab_config::Config;
use fab_policy::{forwarding_rule, legal_journals, records_come_later};
use fab_windows::{Done, run_windows};
use forward_core::Fabric;
use pcap_file::Budget;
use run_files::RunFault;
use std::alloc::Global;
use std::sync::Wait;
use std::thread::Threads;
use window_records::Input;

/// What a run begins with: the captures with their heads, what these leave of the limits, and a
/// fabric to which nothing has happened.
#[derive(Drop)]
pub(crate) struct Prepared {
    pub(crate) fabric: Fabric,
    pub(crate) ins: Vec<Input>,
    pub(crate) budget: Budget,
}

/// Runs the forwarder over the captures. The configuration and all heads are read, and the fabric
/// is made, before an output is opened.
pub(crate) fn run<R: Threads + Wait + Sync, D: Depot, G: Gate + Sync>(
    rt: &R,
    alloc: Global,
    words: &[String],
    depot: &mut D,
    gate: &G,
) -> Outcome
    requires run { spec.are_pairs words.now ≡ true }
    requires known { spec.AllKnown (D.seen depot.old) words.now }
    ensures holds { Holds (spec.Run (spec.run_of words.now))
        (D.seen depot.old) (D.seen depot.new) result }
    ensures touches { TouchesOwn (spec.Run (spec.run_of words.now))
        (D.seen depot.old) (D.seen depot.new) }
{
    // Law: what a legal journal says of each state that it goes through, and that without records
    // there is a run without entries; what holds after a run and before one says so.
    legal_is_safe();
    records_come_later();
    let ready = match prepare(alloc, words, depot) {
        Ok(ready) => ready,
        Err(outcome) => return outcome,
    };
    let outputs = match open_outputs(depot, words) {
        Ok(outputs) => outputs,
        Err(_) => return Outcome::WriteFault,
    };
    let journal = outputs.journal;
    let Prepared {
        fabric,
        mut ins,
        mut budget,
    } = ready;
    ran(run_windows(
        rt,
        alloc,
        depot,
        fabric,
        &mut ins,
        &mut budget,
        journal,
        outputs.outs.as_slice(),
        gate,
    ))
}

// Reads the configuration and all heads and makes the fabric. No file changes, however it ends.
fn prepare<D: Depot>(alloc: Global, words: &[String], depot: &mut D) -> Result<Prepared, Outcome>
    requires run { spec.are_pairs words.now ≡ true }
    requires known { spec.AllKnown (D.seen depot.old) words.now }
    ensures prepares { IsPrepared (spec.run_of words.now) (D.seen depot.old) (D.seen depot.new)
        result }
{
    let config = config_of(alloc, depot, word_at(words, 1))?;
    let mut budget = Budget {
        bytes: MOST_BYTES,
        frames: MOST_FRAMES,
    };
    let ins = heads_of(alloc, depot, words, Width::Two, &mut budget)?;
    // For the proof: the values of the configuration are in their ranges.
    in_range(&config);
    match Fabric::new(alloc, config, port_count(words) as u32) {
        Ok(fabric) => Ok(Prepared {
            fabric,
            ins,
            budget,
        }),
        Err(_) => Err(Outcome::Memory),
    }
}

// How the end of the windows ends the command.
fn ran(end: Result<Done, RunFault>) -> Outcome
    ensures { result ≡ ran_by end }
{
    match end {
        Ok(done) => Outcome::Ran {
            frames: done.frames,
            entries: done.entries,
        },
        Err(fault) => stopped(&fault),
    }
}

/// What a fault of a run ends a command with.
pub(crate) fn stopped(fault: &RunFault) -> Outcome
    ensures { result ≡ stopped_by fault.now }
{
    match fault {
        RunFault::Capture { port, at, why } => Outcome::Capture {
            port: *port,
            at: *at,
            why: *why,
        },
        RunFault::Limit(kind) => Outcome::Limit { kind: *kind },
        RunFault::Read => Outcome::ReadFault,
        RunFault::Write => Outcome::WriteFault,
        RunFault::Memory => Outcome::Memory,
    }
}

/// Each value of a configuration is in its range.
pub(crate) fn in_range(config: &Config)
    ensures { IsTrue (is_in_range config.now) }
{
    // For the proof: the configuration's invariant is known once a field is read.
    let _ = &config.window;
}

/// What the laws of legal journals say of each state that a journal goes through.
pub(crate) fn legal_is_safe()
    ensures { LegalIsSafe }
{
    // Law: the laws of journals and of forwarding, which LegalIsSafe says as one.
    legal_journals();
    forwarding_rule();
}
