//! A stream, from its first packet to its end.
ghost use Rattle.std.specs.Prelude.{◌≡◌, ◌<◌, ◌≤◌, ◌^◌, [], length, None};
ghost use Rattle.fab_policy.specs.Outputs.{state_of};
ghost use Rattle.fab_live.specs.Files.{slots_of};
ghost use Rattle.fab_live.specs.Live.{AreGiven, AreOpen, LiveRuns, fault_of};
ghost use Rattle.fab_live.specs.Ready.{Running, nothing_of_live};

use crate::begin::{Started, begin};
use crate::live::Live;
use crate::{Done, LimitKind, LiveFault, LiveFiles};
use fab_base::{Depot, Moment};
use forward_core::Fabric;
use pcap_file::Budget;
use pcapng_file::{NgError, NgLimit, NgStream};
use std::alloc::Global;
use std::thread::Threads;

/// Runs a new fabric over a stream of packets, whose interfaces are the ports. Behind each packet
/// the files hold all of it: what came, the journal, and what it sends; then the next one is read.
/// The files are empty at the start, and the fabric is gone in the end.
pub fn run_live<R: Threads + Sync, D: Depot>(
    rt: &R,
    alloc: Global,
    depot: &mut D,
    fabric: Fabric,
    stream: u32,
    files: &LiveFiles<'_>,
    budget: Budget,
) -> Result<Done, LiveFault>
    requires ports { (1 ≤ length files.now.outs.now) × (length files.now.outs.now ≤ 64) }
    requires given { AreGiven (D.seen depot.old) stream (slots_of files.now) }
    requires count { fabric.count ≡ length files.now.outs.now }
    requires state { fabric.state ≡ state_of fabric.settings [] }
    requires nothing { (fabric.events ≡ []) × (fabric.outs ≡ []) }
    ensures runs { LiveRuns fabric.settings budget stream (slots_of files.now)
        (D.seen depot.old) (D.seen depot.new) result }
{
    let started = match begin(alloc, depot, files) {
        Ok(started) => started,
        Err(fault) => return Err(fault),
    };
    let mut live = live_of(fabric, started);
    follow(rt, alloc, depot, &mut live, stream, files, budget)
}

// What is kept before the first packet.
fn live_of(fabric: Fabric, started: Started) -> Live
    ensures fabric { result.fabric ≡ fabric }
    ensures counts { result.counts.items ≡ started.counts.items }
    ensures first { result.first ≡ None }
    ensures greatest { result.greatest ≡ 0 }
    ensures frames { result.done.frames ≡ 0 }
    ensures entries { result.done.entries ≡ 0 }
    ensures pages { result.pages ≡ started.pages }
{
    let Started { pages, counts } = started;
    let done = Done {
        frames: 0,
        entries: 0,
    };
    Live {
        fabric,
        counts,
        first: None,
        greatest: Moment(0),
        done,
        pages,
    }
}

// Takes the packets of a stream, one after another. It borrows what is kept, so that no fabric is
// owned where it ends.
fn follow<R: Threads + Sync, D: Depot>(
    rt: &R,
    alloc: Global,
    depot: &mut D,
    live: &mut Live,
    stream: u32,
    files: &LiveFiles<'_>,
    budget: Budget,
) -> Result<Done, LiveFault>
    requires running { let c = live.old.fabric.settings in
        Running c (nothing_of_live c (length files.now.outs.now)) (slots_of files.now) [] []
        live.old (D.seen depot.old) }
    requires open { AreOpen (D.seen depot.old) stream (slots_of files.now) }
    ensures runs { LiveRuns live.old.fabric.settings budget stream (slots_of files.now)
        (D.seen depot.old) (D.seen depot.new) result }
{
    // For the proof: the limits are numbers of 64 bits.
    let _frames = limits(&budget);
    let mut packets = NgStream::new(alloc, budget);
    'packets: loop {
        let next = match packets.next(alloc, depot, stream) {
            Ok(next) => next,
            Err(error) => return Err(ending(error)),
        };
        let Some(packet) = next else {
            return Ok(live.done);
        };
        if packet.face as usize >= files.outs.len() {
            return Err(LiveFault::Port(packet.face));
        }
        match live.take(rt, alloc, depot, files, packet) {
            Ok(()) => {}
            Err(fault) => return Err(fault),
        }
    }
}

// The frames of a limit, which are a number of 64 bits as its bytes are.
fn limits(budget: &Budget) -> u64
    ensures { (budget.now.bytes < 2 ^ 64) × (budget.now.frames < 2 ^ 64) }
{
    // For the proof: the bytes that are left are a number of 64 bits too.
    let _bytes = budget.bytes;
    budget.frames
}

// How a forwarder ends whose stream can't be read on.
fn ending(error: NgError) -> LiveFault
    ensures { result ≡ fault_of error }
{
    match error {
        NgError::Fault { at, why } => LiveFault::Block { at, why },
        NgError::Limit(NgLimit::Bytes) => LiveFault::Limit(LimitKind::Bytes),
        NgError::Limit(NgLimit::Frames) => LiveFault::Limit(LimitKind::Frames),
        NgError::Read(_) => LiveFault::Read,
        NgError::Memory => LiveFault::Memory,
    }
}
