//! Reading a file block by block through one buffer.
ghost use Rattle.std.specs.Prelude.{◌≡◌, ◌≤◌, ◌<◌, ◌+◌, ◌++◌, ◌∷◌, []};
ghost use Rattle.std.specs.Prelude.{length, IsTrue, OnOk, OnErr, IfOk, Some, ◌==◌, ◌&&◌, is_some};
ghost use Rattle.pcap_file.specs.Reading.{supply};
ghost use Rattle.pcapng_file.specs.File.{Section, NgReads, BlockRead, after, found, listed};
ghost use Rattle.pcapng_file.specs.File.{before_all, place, counted};

use crate::block::{HEAD, Interface, Kind, read_head};
use crate::fault::{NgError, NgLimit, NgWhy, fault};
use crate::packet::{Content, read_block};
use crate::passing::pass_over;
use crate::{NgRecord, NgRecords};
use fab_base::{Depot, NoMemory, OwnedList};
use pcap_file::{Ahead, Budget};
use std::alloc::{AllocError, Global};
use std::marker::Model;

// A block: its total length, and what it says.
#[derive(Debug, Drop)]
pub(crate) struct Block {
    pub(crate) size: u32,
    pub(crate) content: Content,
}

// The byte order and the interfaces of a section so far; before the first section there is none.
#[derive(Debug, Drop)]
pub(crate) struct SoFar {
    pub(crate) order: Option<bool>,
    pub(crate) faces: Vec<Interface>,
}

impl Model for SoFar {
    ghost Value = { Section };

    ghost view = { λ s. record { order = s.order; faces = s.faces.items } };
}

impl SoFar {
    pub(crate) fn new(alloc: Global) -> SoFar
        ensures { result ≡ before_all }
    {
        SoFar {
            order: None,
            faces: Vec::new(alloc),
        }
    }

    fn begin(&mut self, big: bool)
        ensures { self.new ≡ record { order = Some big; faces = [] } }
    {
        self.order = Some(big);
        self.faces.clear();
    }

    fn add(&mut self, face: Interface) -> Result<(), NoMemory>
        ensures ok { OnOk result (self.new ≡ record self.old {
          faces = self.old.faces
              ++ face ∷ [];
        }) }
    {
        match self.faces.push(face) {
            Ok(()) => Ok(()),
            Err(_) => Err(NoMemory),
        }
    }

    // Goes past a block, and answers its packet, if it has one.
    pub(crate) fn enter(&mut self, content: Content) -> Result<Option<NgRecord>, NoMemory>
        ensures section { OnOk result (self.new ≡ after self.old content) }
        ensures packet { IfOk result (λ o. listed o ≡ found content) }
        ensures refused { OnErr result (found content ≡ []) }
    {
        match content {
            Content::Section(big) => {
                self.begin(big);
                Ok(None)
            }
            Content::Interface(face) => {
                self.add(face)?;
                Ok(None)
            }
            Content::Packet(record) => Ok(Some(record)),
            Content::Nothing => Ok(None),
        }
    }
}

/// The packets of a pcapng file, read from an open input to its end.
pub fn read_ng<D: Depot>(
    alloc: Global,
    depot: &mut D,
    slot: u32,
    budget: &mut Budget,
) -> Result<NgRecords, NgError>
    requires input { IsTrue ((D.seen depot.old).input slot) }
    ensures reads { NgReads slot (D.seen depot.old)
        (D.seen depot.new) budget.old budget.new result }
{
    let Ok(mut records) = OwnedList::new(alloc) else {
        return Err(NgError::Memory);
    };
    let mut ahead = Ahead::new();
    let mut section = SoFar::new(alloc);
    let start = budget.bytes;
    let mut left = *budget;
    loop {
        let at = start - left.bytes;
        let next = match next_block(alloc, depot, slot, &mut ahead, &section, left, at) {
            Ok(next) => next,
            Err(error) => return Err(error),
        };
        let Some(block) = next else {
            *budget = left;
            return Ok(records);
        };
        left.bytes -= block.size as u64;
        left.frames -= block.content.frames();
        match take(alloc, block.content, &mut section, &mut records) {
            Ok(()) => {}
            Err(_) => return Err(NgError::Memory),
        }
    }
}

// What a block changes.
fn take(
    alloc: Global,
    content: Content,
    section: &mut SoFar,
    records: &mut NgRecords,
) -> Result<(), NoMemory>
    ensures section { OnOk result (section.new ≡ after section.old content) }
    ensures records { OnOk result (records.new ≡ records.old ++ found content) }
{
    match section.enter(content)? {
        Some(record) => records.push(alloc, record),
        None => Ok(()),
    }
}

// The next block, or none at the end, by the tests in their order.
pub(crate) fn next_block<D: Depot>(
    alloc: Global,
    depot: &mut D,
    slot: u32,
    ahead: &mut Ahead,
    section: &SoFar,
    budget: Budget,
    at: u64,
) -> Result<Option<Block>, NgError>
    requires input { IsTrue ((D.seen depot.old).input slot) }
    ensures reads { BlockRead slot (place at section.now budget)
        (supply ahead.old (D.seen depot.old)) (supply ahead.new (D.seen depot.new)) result }
{
    let mut front = [0u8; HEAD];
    let got = match ahead.pull(depot, slot, &mut front) {
        Ok(got) => got,
        Err(failed) => return Err(NgError::Read(failed)),
    };
    if is_end(got, section.order) {
        return Ok(None);
    }
    if got < HEAD {
        return Err(fault(at, NgWhy::Cut));
    }
    let head = match read_head(section.order, &front) {
        Ok(head) => head,
        Err(why) => return Err(fault(at, why)),
    };
    if budget.bytes < head.size as u64 {
        return Err(NgError::Limit(NgLimit::Bytes));
    }
    if head.kind == Kind::Other {
        return pass_over(depot, slot, ahead, &front, head, at);
    }
    let mut body = vec![in alloc; 0u8; head.size as usize - HEAD]?;
    match ahead.pull(depot, slot, &mut body) {
        Ok(got) => {
            if got < body.len() {
                return Err(fault(at, NgWhy::Cut));
            }
        }
        Err(failed) => return Err(NgError::Read(failed)),
    }
    let block = concatenated(alloc, &front, &body)?;
    let content = read_block(alloc, at, head, &section.faces, &block)?;
    within_frames(budget, head.size, content)
}

// A whole block, where a frame is left for the packet in it.
fn within_frames(budget: Budget, size: u32, content: Content) -> Result<Option<Block>, NgError>
    ensures { result ≡ counted budget size content }
{
    if budget.frames < content.frames() {
        return Err(NgError::Limit(NgLimit::Frames));
    }
    Ok(Some(Block { size, content }))
}

// Whether a file ends where so many bytes of a block are left: between two blocks of a section.
fn is_end(got: usize, order: Option<bool>) -> bool
    ensures { result ≡ (got == 0 && is_some order) }
{
    got == 0 && order.is_some()
}

// The bytes of a block: its first ones and then the others.
fn concatenated(alloc: Global, front: &[u8], body: &[u8]) -> Result<Vec<u8>, AllocError>
    ensures { IfOk result (λ v. v.items ≡ front.now ++ body.now) }
{
    let mut block = Vec::new(alloc);
    block.extend_from_slice(front)?;
    block.extend_from_slice(body)?;
    Ok(block)
}
