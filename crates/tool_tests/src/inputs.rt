//! What the tests share: a depot of two captures, words, and a run.
ghost use Rattle.fab_base.specs.MemDepot.{mem_seen};
ghost use Rattle.fabric_tool.specs.Command.{AllKnown};

use crate::counter::{Counter, counted};
use fab_base::{Gate, MemDepot, MemSink, NoMemory};
use fabric_tool::fabric_tool;
use std::alloc::{AllocError, Global};
use std::process::Abort;
use std::sync::Wait;
use std::test::Fail;
use std::thread::Threads;

pub(crate) const CONFIG: [u8; 35] = *b"fcf-mac 00:05:1e:00:00:02\nvlan 100\n";

// The head of a capture: least significant byte first, microseconds, Ethernet.
pub(crate) const HEAD: [u8; 24] = [
    0xd4, 0xc3, 0xb2, 0xa1, 2, 0, 4, 0, 0, 0, 0, 0, 0, 0, 0, 0, 255, 255, 0, 0, 1, 0, 0, 0,
];

// A VLAN request of 00:1b:21:00:00:0a to All-FCF-MACs at 1000 ms.
pub(crate) const REQUEST: [u8; 100] = [
    0xd4, 0xc3, 0xb2, 0xa1, 2, 0, 4, 0, 0, 0, 0, 0, 0, 0, 0, 0, 255, 255, 0, 0, 1, 0, 0, 0, //
    1, 0, 0, 0, 0, 0, 0, 0, 60, 0, 0, 0, 60, 0, 0, 0, //
    0x01, 0x10, 0x18, 0x01, 0x00, 0x02, 0x00, 0x1b, 0x21, 0x00, 0x00, 0x0a, 0x89, 0x14, //
    0x10, 0, 0x00, 0x04, 0, 0x01, 0, 2, 0, 0, 2, 2, 0x00, 0x1b, 0x21, 0x00, 0x00, 0x0a, //
    0, 0, 0, 0, 0, 0, 0, 0, 0, 0, 0, 0, 0, 0, 0, 0, 0, 0, 0, 0, 0, 0, 0, 0, 0, 0, 0, 0,
];

// A solicitation of 00:1b:21:00:00:0a on VLAN 100 that asks for 2158 bytes.
pub(crate) const SOLICITATION: [u8; 64] = [
    0x01, 0x10, 0x18, 0x01, 0x00, 0x02, 0x00, 0x1b, 0x21, 0x00, 0x00, 0x0a, 0x81, 0x00, 0x00, 0x64,
    0x89, 0x14, //
    0x10, 0, 0x00, 0x01, 0, 0x01, 0, 6, 0x80, 0, //
    2, 2, 0x00, 0x1b, 0x21, 0x00, 0x00, 0x0a, //
    4, 3, 0, 0, 0x10, 0, 0, 0x1b, 0x21, 0x00, 0x00, 0x0a, //
    6, 1, 0x08, 0x6e, //
    0, 0, 0, 0, 0, 0, 0, 0, 0, 0, 0, 0,
];

pub(crate) fn words_in(alloc: Global, words: &[&str]) -> Result<Vec<String>, AllocError> {
    let mut list = Vec::new(alloc);
    for word in words {
        match list.push(String::from_str(alloc, word)?) {
            Ok(()) => {}
            Err(_) => return Err(AllocError),
        }
    }
    Ok(list)
}

// These pieces, one after another.
pub(crate) fn concatenated(alloc: Global, pieces: &[&[u8]]) -> Result<Vec<u8>, AllocError> {
    let mut bytes = Vec::new(alloc);
    for piece in pieces {
        bytes.extend_from_slice(piece)?;
    }
    Ok(bytes)
}

// A depot with these inputs, which knows the words of a command over one port and over two.
pub(crate) fn depot_of(
    alloc: Global,
    config: &[u8],
    input: &[u8],
    second: &[u8],
) -> Result<Counter, NoMemory> {
    let mut depot = MemDepot::new(alloc)?;
    depot.store(alloc, "K", config)?;
    depot.store(alloc, "IN", input)?;
    depot.store(alloc, "IN2", second)?;
    depot.store(alloc, "J", b"before")?;
    depot.know(alloc, "OUT")?;
    depot.know(alloc, "OUT2")?;
    depot.know(alloc, "run")?;
    Ok(counted(depot))
}

pub(crate) const TWO_PORTS: [&str; 7] = ["run", "K", "J", "IN", "OUT", "IN2", "OUT2"];

// The status of a command over a depot that knows its words: the one call of the tests.
pub(crate) fn status_of<R: Threads + Wait + Sync, G: Gate + Sync>(
    rt: &R,
    alloc: Global,
    words: &[String],
    depot: &mut Counter,
    say: &mut MemSink,
    gate: &G,
) -> u8
    requires { AllKnown (mem_seen depot.old.depot) words.now }
{
    fabric_tool(rt, alloc, words, depot, say, gate)
}

// Runs a command under a gate, which prints this line and answers this status.
pub(crate) fn ends_under<R: Threads + Wait + Sync + Abort, G: Gate + Sync>(
    rt: &R,
    alloc: Global,
    words: &[&str],
    depot: &mut Counter,
    gate: &G,
    wanted: (&[u8], u8),
) -> Result<(), Fail> {
    let words = words_in(alloc, words)?;
    let mut say = MemSink::new(alloc, 100)?;
    assert!(rt; depot.depot.knows_all(&words));
    let status = status_of(rt, alloc, &words, depot, &mut say, gate);
    assert_eq!(rt; say.content(), wanted.0);
    assert_eq!(rt; status, wanted.1);
    Ok(())
}

pub(crate) fn assert_journal(rt: &impl Abort, depot: &Counter, journal: &str) {
    assert_eq!(rt; depot.depot.content("J"), Some(journal.as_bytes()));
}

// One record more.
pub(crate) fn put_record(bytes: &mut Vec<u8>, moment: u64, frame: &[u8]) -> Result<(), Fail> {
    let (Ok(seconds), Ok(length)) = (u32::try_from(moment / 1000), u32::try_from(frame.len()))
    else {
        return Err("a frame is short and early".into());
    };
    let micros = (moment % 1000 * 1000) as u32;
    for number in [seconds, micros, length, length] {
        bytes.extend_from_slice(&number.to_le_bytes())?;
    }
    bytes.extend_from_slice(frame)?;
    Ok(())
}
