//! The classic capture of the packets of a file.
ghost use Rattle.std.specs.Prelude.{◌≡◌, ◌++◌, IsTrue, IfOk, OnOk, OnErr};
ghost use Rattle.fab_base.specs.Ending.{Uses, end_by};
ghost use Rattle.fab_base.specs.Seen.{Only};
ghost use Rattle.pcapng_file.specs.Classic.{classic_record, classic_bytes, converting_end, Converts};

use crate::fault::{ConvertError, NgError};
use crate::reading::read_ng;
use crate::{NgRecord, NgRecords};
use fab_base::{Depot, NoMemory, append_made, put_all};
use pcap_file::{Budget, write_head};
use std::alloc::{AllocError, Global};

/// Reads the file of a name as a pcapng file, and writes the classic capture of its packets to the
/// file of another. Answers how many packets there are.
pub fn convert<D: Depot>(
    alloc: Global,
    depot: &mut D,
    from: &str,
    to: &str,
    mut budget: Budget,
) -> Result<u64, ConvertError>
    requires from { IsTrue ((D.seen depot.old).knows from.now) }
    requires to { IsTrue ((D.seen depot.old).knows to.now) }
    ensures converts { Converts from.now to.now budget (D.seen depot.old)
        (D.seen depot.new) result }
    // No other file changes. No other answer, want of memory neither, hides a fault of the store.
    ensures uses { Uses (Only from.now) (Only to.now) (end_by converting_end result)
        (D.seen depot.old) (D.seen depot.new) }
{
    let slot = match depot.open_in(from) {
        Ok(slot) => slot,
        Err(failed) => return Err(ConvertError::Input(NgError::Read(failed))),
    };
    let records = match read_ng(alloc, depot, slot, &mut budget) {
        Ok(records) => records,
        Err(error) => return Err(ConvertError::Input(error)),
    };
    let Ok(bytes) = classic_capture(alloc, &records) else {
        return Err(ConvertError::Input(NgError::Memory));
    };
    let out = match depot.open_out(to) {
        Ok(out) => out,
        Err(failed) => return Err(ConvertError::Write(failed)),
    };
    match put_all(depot, out, &bytes) {
        Ok(()) => Ok(records.len() as u64),
        Err(failed) => Err(ConvertError::Write(failed)),
    }
}

/// The bytes of the classic capture of these packets: little-endian, in microseconds.
pub fn classic_capture(alloc: Global, records: &NgRecords) -> Result<Vec<u8>, NoMemory>
    ensures { IfOk result (λ v. v.items ≡ classic_bytes records.now) }
{
    let mut out = Vec::new(alloc);
    write_head(alloc, &mut out)?;
    for index in 0..records.len() {
        match records.at(index) {
            Some(packet) => add_packet(alloc, packet, &mut out)?,
            None => unreachable!(),
        }
    }
    Ok(out)
}

/// Appends the record of a packet to a classic capture, or nothing where memory is refused.
pub fn add_packet(alloc: Global, packet: &NgRecord, out: &mut Vec<u8>) -> Result<(), NoMemory>
    ensures ok { OnOk result (out.new.items ≡ out.old.items ++ classic_record packet.now) }
    ensures err { OnErr result (out.new.items ≡ out.old.items) }
{
    append_made(alloc, bytes_of(alloc, packet), out)
}

fn bytes_of(alloc: Global, packet: &NgRecord) -> Result<Vec<u8>, AllocError>
    ensures { IfOk result (λ v. v.items ≡ classic_record packet.now) }
{
    let bytes = packet.caught.bytes.view();
    let seconds = packet.moment.0 / 1000;
    let micros = packet.moment.0 % 1000 * 1000;
    let stored = bytes.len() as u64;
    let mut made = Vec::new(alloc);
    made.extend_from_slice(&seconds.to_le_bytes()[..4])?;
    made.extend_from_slice(&micros.to_le_bytes()[..4])?;
    made.extend_from_slice(&stored.to_le_bytes()[..4])?;
    made.extend_from_slice(&packet.original.to_le_bytes())?;
    made.extend_from_slice(bytes)?;
    Ok(made)
}
