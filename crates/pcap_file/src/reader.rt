//! Reading a capture from a slot, record by record.
ghost use Rattle.std.specs.Prelude.{◌≡◌, ◌<◌, ◌≤◌, ◌^◌, IsTrue};
ghost use Rattle.pcap_file.specs.Reading.{Reading, OpensReader, NextReads, RecordRead};
ghost use Rattle.pcap_file.specs.Reading.{reader_stand, supply};

use crate::ahead::Ahead;
use crate::head::{HEAD, MOST_STORED, RECORD_HEAD, number_at};
use crate::{Budget, CapError, CapOpen, CaptureHead, Record};
use fab_base::{Bytes, Caught, Depot, Moment};
use std::alloc::Global;
use std::marker::Model;

// Where a reader stands: the head of its capture, the place of the next record in the file, and the
// greatest moment so far or 0.
#[derive(Clone, Copy, Debug)]
struct Place {
    head: CaptureHead,
    at: u64,
    greatest: u64,
}

/// A capture that is being read.
///
/// A contract sees its head, its place in the file, its greatest moment so far or 0, its kept error
/// or none, and what it fetched and has not given yet.
#[derive(Debug, Drop)]
pub struct Reader {
    place: Place,
    kept: Option<CapError>,
    ahead: Ahead,
}

impl Model for Reader {
    ghost Value = { Reading };

    ghost view = { λ r. record {
      head = r.place.head;
      at = r.place.at;
      greatest = r.place.greatest;
      kept = r.kept;
      held = r.ahead;
    } };

    ghost invariant = { λ r. r.place.greatest < 2 ^ 43 };
}

impl Reader {
    /// Reads the head of a capture from an open input. On Ok alone 24 bytes are taken from the
    /// budget, which is tested before anything is fetched.
    pub fn open<D: Depot>(depot: &mut D, slot: u32, budget: &mut Budget) -> Result<Reader, CapOpen>
        requires input { IsTrue ((D.seen depot.old).input slot) }
        ensures opens { OpensReader slot (D.seen depot.old) (D.seen depot.new)
            budget.old budget.new result }
    {
        if budget.bytes < HEAD as u64 {
            return Err(CapOpen::Bytes);
        }
        let mut ahead = Ahead::new();
        let mut bytes = [0u8; HEAD];
        let got = match ahead.pull(depot, slot, &mut bytes) {
            Ok(got) => got,
            Err(failed) => return Err(CapOpen::Read(failed)),
        };
        match CaptureHead::read(&bytes[..got]) {
            Ok(head) => {
                budget.bytes -= HEAD as u64;
                Ok(Reader {
                    place: Place {
                        head,
                        at: HEAD as u64,
                        greatest: 0,
                    },
                    kept: None,
                    ahead,
                })
            }
            Err(fault) => Err(CapOpen::Head(fault)),
        }
    }

    /// The next record, or none where the bytes end before its first byte. The slot is the one
    /// that the reader was opened for. A record takes 16 plus its stored length and one frame from
    /// the budget. After an error the reader answers that error at each call, and fetches nothing.
    pub fn next<D: Depot>(
        &mut self,
        alloc: Global,
        depot: &mut D,
        slot: u32,
        budget: &mut Budget,
    ) -> Result<Option<Record>, CapError>
        requires input { IsTrue ((D.seen depot.old).input slot) }
        ensures next { NextReads slot (reader_stand (D.seen depot.old) self.old budget.old)
            (reader_stand (D.seen depot.new) self.new budget.new) result }
    {
        if let Some(error) = self.kept {
            return Err(error);
        }
        match read_record(alloc, depot, slot, &mut self.ahead, self.place, *budget) {
            Ok(Some(record)) => {
                let taken = RECORD_HEAD as u64 + record.caught.bytes.view().len() as u64;
                budget.bytes -= taken;
                budget.frames -= 1;
                self.place.at = self.place.at.saturating_add(taken);
                self.place.greatest = record.moment.0;
                Ok(Some(record))
            }
            Ok(None) => Ok(None),
            Err(error) => {
                self.kept = Some(error);
                Err(error)
            }
        }
    }
}

// The record that stands next, by the tests in their order.
fn read_record<D: Depot>(
    alloc: Global,
    depot: &mut D,
    slot: u32,
    ahead: &mut Ahead,
    place: Place,
    budget: Budget,
) -> Result<Option<Record>, CapError>
    requires input { IsTrue ((D.seen depot.old).input slot) }
    requires greatest { place.greatest < 2 ^ 43 }
    ensures reads { RecordRead slot place budget (supply ahead.old (D.seen depot.old))
        (supply ahead.new (D.seen depot.new)) result }
{
    let Place { head, at, greatest } = place;
    let mut front = [0u8; RECORD_HEAD];
    let got = match ahead.pull(depot, slot, &mut front) {
        Ok(got) => got,
        Err(failed) => return Err(CapError::Read(failed)),
    };
    if got == 0 {
        return Ok(None);
    }
    if got < RECORD_HEAD {
        return Err(CapError::Cut { at });
    }
    let len = number_at(head.big, &front, 8);
    if len > MOST_STORED {
        return Err(CapError::TooLong { at, len });
    }
    if budget.bytes < RECORD_HEAD as u64 + len as u64 {
        return Err(CapError::Bytes);
    }
    if budget.frames == 0 {
        return Err(CapError::Frames);
    }
    let Ok(mut stored) = Vec::with_capacity(alloc, len as usize) else {
        return Err(CapError::Memory);
    };
    match ahead.collect(depot, slot, len as usize, &mut stored) {
        Ok(()) => {
            if stored.len() < len as usize {
                return Err(CapError::Cut { at });
            }
        }
        Err(failed) => return Err(CapError::Read(failed)),
    }
    let whole = len >= number_at(head.big, &front, 12);
    Ok(Some(record_of(head.moment_in(&front).max(greatest), stored, whole)))
}

fn record_of(moment: u64, stored: Vec<u8>, whole: bool) -> Record
    ensures moment { result.moment ≡ moment }
    ensures bytes { result.caught.bytes ≡ stored.items }
    ensures whole { result.caught.whole ≡ whole }
{
    Record {
        moment: Moment(moment),
        caught: Caught {
            bytes: Bytes::from_vec(stored),
            whole,
        },
    }
}
