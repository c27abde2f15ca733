//! Reading a capture whole.
ghost use Rattle.std.specs.Prelude.{◌≡◌, ◌+◌, ◌<◌, ◌^◌, IsTrue, None};
ghost use Rattle.pcap_file.specs.Reading.{reader_stand};
ghost use Rattle.pcap_file.specs.Captures.{ReadsCapture, ReadsRecords};

use crate::{Budget, GatherFault, Reader, Record, fault_of, open_fault_of};
use fab_base::{Depot, OwnedList, PortNo};
use std::alloc::Global;

/// The records of a capture, in its order.
pub type RecordList = OwnedList<Record>;

/// Reads the capture of a port from an open input to its end. The head and the records are taken
/// from the budget.
pub fn read_capture<D: Depot>(
    alloc: Global,
    depot: &mut D,
    port: PortNo,
    slot: u32,
    budget: &mut Budget,
) -> Result<RecordList, GatherFault>
    requires input { IsTrue ((D.seen depot.old).input slot) }
    ensures reads { ReadsCapture port slot (D.seen depot.old) (D.seen depot.new)
        budget.old budget.new result }
{
    // For the proof: the bytes that are left are a number of 64 bits.
    let _bytes = budget.bytes;
    match Reader::open(depot, slot, budget) {
        Ok(mut reader) => records_of(alloc, depot, port, slot, &mut reader, budget),
        Err(error) => Err(open_fault_of(error, port)),
    }
}

// The records behind a head.
fn records_of<D: Depot>(
    alloc: Global,
    depot: &mut D,
    port: PortNo,
    slot: u32,
    reader: &mut Reader,
    budget: &mut Budget,
) -> Result<RecordList, GatherFault>
    requires input { IsTrue ((D.seen depot.old).input slot) }
    requires fresh { reader.old.kept ≡ None }
    requires place { reader.old.at + budget.old.bytes < 2 ^ 64 }
    ensures reads { ReadsRecords port slot (reader_stand (D.seen depot.old) reader.old budget.old)
        (reader_stand (D.seen depot.new) reader.new budget.new) result }
{
    let mut records = OwnedList::empty(alloc);
    loop {
        match reader.next(alloc, depot, slot, budget) {
            Ok(Some(record)) => match records.push(alloc, record) {
                Ok(()) => {}
                Err(_) => return Err(GatherFault::Memory),
            },
            Ok(None) => return Ok(records),
            Err(error) => return Err(fault_of(error, port)),
        }
    }
}
