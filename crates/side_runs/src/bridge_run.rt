//! A bridge over captures.
ghost use Rattle.std.specs.Prelude.{◌≡◌, ◌<◌, ◌≤◌, ◌^◌, length};
ghost use Rattle.fip_snoop.specs.Queue.{AllAscend};
ghost use Rattle.side_runs.specs.Bridged.{Bridges, RunsOver};
ghost use Rattle.side_runs.specs.Records.{AllFit, count_in};
ghost use Rattle.side_runs.specs.Sides.{AreDifferent, AreKnown, ins_of, outs_of, side_count};

use crate::bridge::Bridge;
use crate::captures::read_captures;
use crate::crossing::cross;
use crate::laws::what_is_taken_are_captures;
use crate::outputs::open_outputs;
use crate::span::is_too_long;
use fab_base::{Depot, OwnedList};
use fab_config::Config;
use pcap_file::{Budget, LimitKind, Record};
use run_files::RunFault;
use std::alloc::Global;

/// How many frames passed, and how many were dropped. A frame to all ENodes counts once.
#[derive(Clone, Copy, Debug, PartialEq, Eq)]
pub struct Crossed {
    pub passed: u64,
    pub dropped: u64,
}

/// Takes the captures of a bridge's ports whole, lets their frames cross, and writes the capture of
/// each port.
///
/// `sides` are the names of port 1's input and output, then of port 2's, and so on; port 1 is the
/// forwarder's. The captures are read in port order off one budget, and each is read to its end
/// before the next is opened. The outputs are opened only behind that: a `Capture`, `Limit` or
/// `Read` leaves every file as it was. After `Write` and `Memory` each output is as it was or holds
/// a prefix of its capture.
pub fn run_bridge<D: Depot>(
    alloc: Global,
    depot: &mut D,
    config: &Config,
    sides: &[String],
    budget: Budget,
) -> Result<Crossed, RunFault>
    requires few { length sides.now ≤ 128 }
    requires known { AreKnown (D.seen depot.old) sides.now }
    requires different { AreDifferent sides.now }
    ensures bridges { Bridges (ins_of sides.now) (outs_of sides.now) budget config.now
        (D.seen depot.old) (D.seen depot.new) result }
{
    // Law: what is taken of files are whole captures; the clause bridges says it of the inputs.
    what_is_taken_are_captures();
    let mut left = budget;
    let ins = read_captures(alloc, depot, sides, &mut left)?;
    run_over(alloc, depot, config, sides, ins.as_slice())
}

// The same over captures that were read.
fn run_over<D: Depot>(
    alloc: Global,
    depot: &mut D,
    config: &Config,
    sides: &[String],
    ins: &[OwnedList<Record>],
) -> Result<Crossed, RunFault>
    requires few { length sides.now ≤ 128 }
    requires known { AreKnown (D.seen depot.old) sides.now }
    requires different { AreDifferent sides.now }
    requires count { length ins.now ≡ side_count sides.now }
    requires fit { AllFit ins.now }
    requires ascend { AllAscend ins.now }
    requires frames { count_in ins.now < 2 ^ 64 }
    ensures { RunsOver (outs_of sides.now) ins.now config.now (D.seen depot.old)
        (D.seen depot.new) result }
{
    if is_too_long(ins) {
        return Err(RunFault::Limit(LimitKind::Span));
    }
    let mut bridge = match Bridge::new(alloc, config, ins.len()) {
        Ok(bridge) => bridge,
        Err(_) => return Err(RunFault::Memory),
    };
    let outs = match open_outputs(depot, sides) {
        Ok(outs) => outs,
        Err(_) => return Err(RunFault::Write),
    };
    cross(alloc, depot, ins, outs.as_slice(), &mut bridge)
}
