//! The frames of captures, which cross a bridge in their order.
ghost use Rattle.std.specs.Prelude.{◌≡◌, ℕ, ◌<◌, ◌≤◌, ◌^◌, [], length, IsTrue, OnOk, Some};
ghost use Rattle.fab_base.specs.Slots.{name_of};
ghost use Rattle.fip_snoop.specs.Queue.{AllAscend};
ghost use Rattle.pcap_file.specs.Capture.{head_bytes};
ghost use Rattle.run_files.specs.Outputs.{AreOutputs};
ghost use Rattle.run_files.specs.Pages.{AreShort, items_in};
ghost use Rattle.side_runs.specs.Records.{AllFit, count_in};
ghost use Rattle.side_runs.specs.State.{Crosses, IsNew, Writes, WritesFull};

use crate::Crossed;
use crate::bridge::Bridge;
use fab_base::{Depot, Failed, OwnedList};
use fip_snoop::first_port;
use pcap_file::Record;
use run_files::{RunFault, flush, has_full};
use std::alloc::Global;

/// Handles all frames by moment, then port, then place, and writes what goes to each output.
pub(crate) fn cross<D: Depot>(
    alloc: Global,
    depot: &mut D,
    ins: &[OwnedList<Record>],
    outs: &[u32],
    bridge: &mut Bridge,
) -> Result<Crossed, RunFault>
    requires few { length ins.now ≤ 64 }
    requires fit { AllFit ins.now }
    requires ascend { AllAscend ins.now }
    requires frames { count_in ins.now < 2 ^ 64 }
    requires count { length outs.now ≡ length ins.now }
    requires outputs { AreOutputs (D.seen depot.old) outs.now }
    requires empty { IsTrue (D.seen depot.old).told → (q : ℕ) → q < length outs.now
        → (D.seen depot.old).file (name_of (D.seen depot.old) outs.now q) ≡ Some [] }
    requires new { IsNew bridge.old.snoop.forwarder (length ins.now) bridge.old }
    ensures crosses { Crosses bridge.old.snoop.forwarder ins.now outs.now (D.seen depot.old)
        (D.seen depot.new) result }
{
    while let Some(head) = first_port(ins, &bridge.places) {
        match bridge.pass_next(alloc, ins, head.port - 1) {
            Ok(()) => {}
            Err(_) => return Err(RunFault::Memory),
        }
        match write_full(depot, outs, bridge) {
            Ok(()) => {}
            Err(_) => return Err(RunFault::Write),
        }
    }
    match write(depot, outs, bridge) {
        Ok(()) => Ok(Crossed {
            passed: bridge.passed,
            dropped: bridge.dropped,
        }),
        Err(_) => Err(RunFault::Write),
    }
}

// Writes what the pages hold where one of them is full; then none is.
fn write_full<D: Depot>(depot: &mut D, outs: &[u32], bridge: &mut Bridge) -> Result<(), Failed>
    requires count { length outs.now ≡ length bridge.old.pages.items }
    requires outputs { AreOutputs (D.seen depot.old) outs.now }
    ensures writes { WritesFull outs.now bridge.old bridge.new (D.seen depot.old)
        (D.seen depot.new) result }
    ensures short { OnOk result (AreShort (items_in bridge.new.pages.items)) }
{
    if !has_full(&bridge.pages) {
        return Ok(());
    }
    write(depot, outs, bridge)
}

// Writes what the pages hold, and empties them.
fn write<D: Depot>(depot: &mut D, outs: &[u32], bridge: &mut Bridge) -> Result<(), Failed>
    requires count { length outs.now ≡ length bridge.old.pages.items }
    requires outputs { AreOutputs (D.seen depot.old) outs.now }
    ensures { Writes outs.now bridge.old bridge.new (D.seen depot.old) (D.seen depot.new) result }
{
    flush(depot, outs, &mut bridge.pages)
}
