//! A whole block, and the packet in it.
ghost use Rattle.std.specs.Prelude.{◌≡◌, ◌≤◌, ◌<◌, ◌+◌, ◌*◌};
ghost use Rattle.std.specs.Prelude.{◌/◌, ◌%◌, ◌^◌, length, slice_get, IfOk, IfErr};
ghost use Rattle.pcapng_file.specs.Block.{least, body_read, packet_read, timed_read, stored};
ghost use Rattle.pcapng_file.specs.File.{AsksLast, TellsRead, NotRead, IsPacketKept, AreKept};
ghost use Rattle.pcapng_file.specs.File.{at_fault, found, frames_of};

use crate::NgRecord;
use crate::block::{Head, Interface, Kind, is_version, read_interface};
use crate::fault::{NgError, NgWhy, fault};
use crate::options::padded;
use fab_base::{Bytes, Caught, Moment};
use pcap_file::{ETHERNET, LAST_SECOND, MOST_STORED, number_at};
use std::alloc::Global;

// What a block says.
#[derive(Debug, Drop)]
pub(crate) enum Content {
    Section(bool),
    Interface(Interface),
    Packet(NgRecord),
    Nothing,
}

// The finest unit is 10^-9 seconds.
const FINEST: u8 = 9;

impl Content {
    // How many frames it takes.
    pub(crate) fn frames(&self) -> u64
        ensures value { result ≡ frames_of self.now }
        ensures bound { result ≤ 1 }
    {
        match self {
            Content::Packet(_) => 1,
            _ => 0,
        }
    }
}

// What a whole block at a place says, or the first fault in it.
#[tactic(auto, unfolding(crate::specs::Block::body_read, crate::specs::Block::packet_read))]
pub(crate) fn read_block(
    alloc: Global,
    at: u64,
    head: Head,
    faces: &[Interface],
    block: &[u8],
) -> Result<Content, NgError>
    requires size { length block.now ≡ head.size }
    requires least { least head.kind ≤ head.size }
    ensures tells { TellsRead (at_fault at (body_read head faces.now block.now)) result }
    ensures own { IfErr result NotRead }
    ensures asks { AsksLast (body_read head faces.now block.now) result }
    ensures kept { IfOk result (λ content. AreKept (found content)) }
{
    let Head { kind, big, size } = head;
    if number_at(big, block, block.len() - 4) != size {
        return Err(fault(at, NgWhy::Length));
    }
    match kind {
        Kind::Section => {
            if !is_version(big, block) {
                return Err(fault(at, NgWhy::Version));
            }
            Ok(Content::Section(big))
        }
        Kind::Interface => match read_interface(big, block) {
            Some(face) => Ok(Content::Interface(face)),
            None => Err(NgError::Fault {
                at,
                why: NgWhy::Options,
            }),
        },
        Kind::Packet => match read_packet(alloc, at, big, faces, block) {
            Ok(record) => Ok(Content::Packet(record)),
            Err(error) => Err(error),
        },
        Kind::Simple => Err(NgError::Fault {
            at,
            why: NgWhy::Simple,
        }),
        Kind::Other => Ok(Content::Nothing),
    }
}

#[tactic(auto, unfolding(crate::specs::Block::packet_read, crate::specs::Block::timed_read))]
fn read_packet(
    alloc: Global,
    at: u64,
    big: bool,
    faces: &[Interface],
    block: &[u8],
) -> Result<NgRecord, NgError>
    requires { 32 ≤ length block.now }
    ensures tells { TellsRead (at_fault at (packet_read big faces.now block.now)) result }
    ensures own { IfErr result NotRead }
    ensures asks { AsksLast (packet_read big faces.now block.now) result }
    ensures kept { IfOk result IsPacketKept }
{
    if block.len() - 32 < padded(number_at(big, block, 20) as usize) {
        return Err(fault(at, NgWhy::Length));
    }
    match interface_at(faces, number_at(big, block, 8)) {
        Some(face) => read_of(alloc, at, face, big, block),
        None => Err(NgError::Fault {
            at,
            why: NgWhy::Interface,
        }),
    }
}

// The interface of that number in its section.
fn interface_at(faces: &[Interface], number: u32) -> Option<Interface>
    ensures { result ≡ slice_get faces.now number }
{
    faces.get(number as usize).copied()
}

// A packet of an interface. Its bytes don't pass the block.
#[tactic(auto, unfolding(crate::specs::Block::timed_read))]
fn read_of(
    alloc: Global,
    at: u64,
    face: Interface,
    big: bool,
    block: &[u8],
) -> Result<NgRecord, NgError>
    requires whole { 32 + stored big block.now ≤ length block.now }
    ensures tells { TellsRead (at_fault at (timed_read face big block.now)) result }
    ensures own { IfErr result NotRead }
    ensures asks { AsksLast (timed_read face big block.now) result }
    ensures kept { IfOk result IsPacketKept }
{
    if u32::from(face.link) != ETHERNET {
        return Err(fault(at, NgWhy::Link));
    }
    if face.resolution > FINEST {
        return Err(fault(at, NgWhy::Resolution));
    }
    if face.offset {
        return Err(fault(at, NgWhy::Offset));
    }
    let units = (number_at(big, block, 12) as u64) * (1 << 32) + number_at(big, block, 16) as u64;
    let second = power(face.resolution);
    if units / second > LAST_SECOND {
        return Err(fault(at, NgWhy::Time));
    }
    let stored = number_at(big, block, 20);
    if stored > MOST_STORED {
        return Err(fault(at, NgWhy::Long));
    }
    let original = number_at(big, block, 24);
    let Ok(bytes) = Bytes::copy(alloc, &block[28..28 + stored as usize]) else {
        return Err(NgError::Memory);
    };
    Ok(NgRecord {
        moment: Moment(milliseconds(units, second)),
        caught: Caught {
            bytes,
            whole: stored >= original,
        },
        original,
        face: number_at(big, block, 8),
    })
}

// The units of a second.
fn power(resolution: u8) -> u64
    requires { resolution ≤ 9 }
    ensures value { result ≡ 10 ^ resolution }
    ensures bounds { (1 ≤ result) × (result ≤ 1000000000) }
{
    match resolution {
        0 => 1,
        1 => 10,
        2 => 100,
        3 => 1000,
        4 => 10_000,
        5 => 100_000,
        6 => 1_000_000,
        7 => 10_000_000,
        8 => 100_000_000,
        _ => 1_000_000_000,
    }
}

// A time in whole milliseconds, rounded down.
fn milliseconds(units: u64, second: u64) -> u64
    requires second { (1 ≤ second) × (second ≤ 1000000000) }
    requires small { units / second < 2 ^ 32 }
    ensures value { result ≡ units * 1000 / second }
    ensures small { result < 2 ^ 32 * 1000 }
{
    units / second * 1000 + units % second * 1000 / second
}
