//! The outputs of all ports, each against the bytes that it should have.
ghost use Rattle.std.specs.Prelude.{◌≡◌, ◌≤◌, length};
ghost use Rattle.fab_replay.specs.AllOutputs.{FeedsEach, FinishesEach};
ghost use Rattle.window_records.specs.Ports.{AreInputs};

use crate::Compared;
use fab_base::{Depot, Failed, PortNo};

/// Reads each output on against the bytes that come next on its port, in port order.
pub fn feed_each<D: Depot>(
    depot: &mut D,
    slots: &[u32],
    pages: &[Vec<u8>],
    all: &mut [Compared],
) -> Result<(), Failed>
    requires count { (length slots.now ≡ length all.old) × (length pages.now ≡ length all.old) }
    requires inputs { AreInputs (D.seen depot.old) slots.now }
    ensures feeds { FeedsEach slots.now pages.now (D.seen depot.old) (D.seen depot.new) all.old
        all.new result }
{
    for port in 0..slots.len() {
        match all[port].feed(depot, slots[port], &pages[port]) {
            Ok(()) => {}
            Err(failed) => return Err(failed),
        }
    }
    Ok(())
}

/// The first output in port order that isn't as it should be, and where it first differs; none
/// where each is as it should be.
pub fn finish_each<D: Depot>(
    depot: &mut D,
    slots: &[u32],
    all: &[Compared],
) -> Result<Option<(PortNo, u64)>, Failed>
    requires count { length slots.now ≡ length all.now }
    requires ports { length all.now ≤ 64 }
    requires inputs { AreInputs (D.seen depot.old) slots.now }
    ensures finishes { FinishesEach slots.now (D.seen depot.old) (D.seen depot.new) all.now
        result }
{
    for port in 0..slots.len() {
        match all[port].finish(depot, slots[port]) {
            Ok(None) => {}
            Ok(Some(at)) => return Ok(Some((PortNo::at(port), at))),
            Err(failed) => return Err(failed),
        }
    }
    Ok(None)
}
