//! A node over files.
ghost use Rattle.std.specs.Prelude.{◌≡◌, ◌≤◌, ◌<◌, ◌^◌, IsTrue, length};
ghost use Rattle.fab_base.specs.Ending.{Uses, end_by};
ghost use Rattle.fab_base.specs.Seen.{Only};
ghost use Rattle.enode_core.specs.Laws.{IsTyped};
ghost use Rattle.enode_core.specs.Phases.{phase_of};
ghost use Rattle.side_runs.specs.NodeFiles.{RunsNode, node_task};
ghost use Rattle.run_files.specs.Faults.{run_end};

use crate::course::{Course, play};
use crate::node_input::read_input;
use crate::node_output::write_file;
use enode_core::laws::runs_are_one;
use enode_core::{Identity, Phase};
use fab_base::{Depot, Moment};
use pcap_file::Budget;
use run_files::RunFault;
use std::alloc::Global;

/// Runs a node over the frames of a capture, from a moment on, and writes the capture of what it
/// sends. The capture counts as that of port 1. Answers the node's phase in the end.
///
/// The input is read whole, and all that is sent for it is made, before the output is opened.
pub fn run_node<D: Depot>(
    alloc: Global,
    depot: &mut D,
    from: &str,
    to: &str,
    start: Moment,
    own: Identity,
    budget: Budget,
) -> Result<Phase, RunFault>
    requires from { IsTrue ((D.seen depot.old).knows from.now) }
    requires to { IsTrue ((D.seen depot.old).knows to.now) }
    requires start { start ≤ 4294967295999 }
    ensures plays { RunsNode (node_task own start from.now to.now budget) (D.seen depot.old)
        (D.seen depot.new) result }
    // No other file changes. No other answer, want of memory neither, hides a fault of the store.
    ensures uses { Uses (Only from.now) (Only to.now) (end_by run_end result)
        (D.seen depot.old) (D.seen depot.new) }
{
    // For the proof: the MAC and the names of the identity are in their ranges.
    know(&own);
    // Law: what each run over records keeps of its grant; the clause plays says it of this one.
    runs_are_one();
    let records = read_input(alloc, depot, from, start, budget)?;
    let course = match play(alloc, start, own, &records) {
        Ok(course) => course,
        Err(_) => return Err(RunFault::Memory),
    };
    match write_file(depot, to, &course.capture) {
        Ok(()) => Ok(last_phase(&course)),
        Err(_) => Err(RunFault::Write),
    }
}

fn last_phase(course: &Course) -> Phase
    ensures { result ≡ phase_of course.now.node.state }
{
    course.node.phase()
}

// What an identity has by its types.
fn know(own: &Identity)
    ensures { IsTyped own.now }
{
    // For the proof: a MAC has six bytes, and a name is a number of 64 bits.
    know_mac(&own.mac.0);
    know_name(own.name.0);
    know_name(own.node.0);
}

fn know_mac(bytes: &[u8; 6])
    ensures { length bytes.now ≡ 6 }
{}

fn know_name(name: u64)
    ensures { name < 2 ^ 64 }
{}
