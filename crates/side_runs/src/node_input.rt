//! The capture that a node's port receives.
ghost use Rattle.std.specs.Prelude.{◌≡◌, ◌≤◌, ◌+◌, ◌<◌, IsTrue, nat_lt, slice_get};
ghost use Rattle.std.specs.List.{list_any};
ghost use Rattle.enode_core.specs.Acts.{option_holds};
ghost use Rattle.enode_core.specs.Runs as runs;
ghost use Rattle.pcap_file.specs.Captures.{unless_stopped};
ghost use Rattle.side_runs.specs.NodeFiles as files;
ghost use Rattle.side_runs.specs.NodeSteps.{ReadsInput};

use fab_base::{Depot, Moment, PortNo};
use pcap_file::{Budget, GatherFault, LimitKind, MOST_SPAN, RecordList, read_capture};
use std::alloc::Global;

// Reads the capture of a name whole, and tests last how far it reaches.
pub(crate) fn read_input<D: Depot>(
    alloc: Global,
    depot: &mut D,
    from: &str,
    start: Moment,
    budget: Budget,
) -> Result<RecordList, GatherFault>
    requires known { IsTrue ((D.seen depot.old).knows from.now) }
    requires start { start ≤ 4294967295999 }
    ensures reads { ReadsInput start from.now budget (D.seen depot.old) (D.seen depot.new)
        result }
{
    let slot = match depot.open_in(from) {
        Ok(slot) => slot,
        Err(_) => return Err(GatherFault::Read),
    };
    let mut left = budget;
    let read = read_capture(alloc, depot, first_port(), slot, &mut left);
    unless_too_long(start, read)
}

fn first_port() -> PortNo
    ensures { result ≡ 1 }
{
    match PortNo::new(1) {
        Some(port) => port,
        None => unreachable!(),
    }
}

// Records that were read, unless one lies too far behind the start.
fn unless_too_long(
    start: Moment,
    read: Result<RecordList, GatherFault>,
) -> Result<RecordList, GatherFault>
    requires { start ≤ 4294967295999 }
    ensures { result ≡ unless_stopped read (files.unless_too_long start) }
{
    match read {
        Ok(records) => {
            if is_too_long(start, &records) {
                return Err(GatherFault::Limit(LimitKind::Span));
            }
            Ok(records)
        }
        Err(fault) => Err(fault),
    }
}

fn is_too_long(start: Moment, records: &RecordList) -> bool
    requires { start ≤ 4294967295999 }
    ensures { result ≡ runs.is_too_long start records.now }
{
    for place in 0..records.len() {
        if is_too_far(start, records, place) {
            return true;
        }
    }
    false
}

// Whether the record at a place lies too far behind the start.
fn is_too_far(start: Moment, records: &RecordList, place: usize) -> bool
    requires { start ≤ 4294967295999 }
    ensures { result ≡ option_holds (runs.is_too_far start) (slice_get records.now place) }
{
    match records.at(place) {
        Some(record) => start.0 + MOST_SPAN < record.moment.0,
        None => false,
    }
}
