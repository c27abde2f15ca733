//! The command `live`.
ghost use Rattle.std.specs.Prelude.{◌≡◌, IfOk, true};
ghost use Rattle.fabric_tool.specs.Command as spec;
ghost use Rattle.fabric_tool.specs.Ends.{Holds, TouchesOwn};
ghost use Rattle.fabric_tool.specs.Opening.{HasWidth, RecordedOpened, lived_by};
ghost use Rattle.fabric_tool.specs.Preparing.{IsLivePrepared};

use crate::command::{came_at, live_count, sent_at};
use crate::inputs::config_of;
use crate::limits::{MOST_BYTES, MOST_FRAMES};
use crate::outcome::Outcome;
use crate::running::{in_range, legal_is_safe};
use arrayvec::ArrayVec;
use fab_base::{Depot, Failed, MOST_PORTS, word_at};
use fab_live::{Done, LiveFault, LiveFiles, run_live};
use fab_policy::records_come_later;
use forward_core::Fabric;
use pcap_file::Budget;
use pcapng_file::packets_in_order_are_read_back;
use run_files::add_slot;
use std::alloc::Global;
use std::thread::Threads;

/// The slots of the journal, and by port those of what comes and of what is sent.
#[derive(Debug, Drop)]
pub(crate) struct Recorded {
    pub(crate) journal: u32,
    pub(crate) ins: ArrayVec<u32, MOST_PORTS>,
    pub(crate) outs: ArrayVec<u32, MOST_PORTS>,
}

/// Runs the forwarder over a stream, whose interfaces are its ports. The configuration is read, the
/// fabric is made and the stream is opened before an output is.
pub(crate) fn live<R: Threads + Sync, D: Depot>(
    rt: &R,
    alloc: Global,
    words: &[String],
    depot: &mut D,
) -> Outcome
    requires live { spec.is_live words.now ≡ true }
    requires known { spec.AllKnown (D.seen depot.old) words.now }
    ensures holds { Holds (spec.Live (spec.live_of words.now))
        (D.seen depot.old) (D.seen depot.new) result }
    ensures touches { TouchesOwn (spec.Live (spec.live_of words.now))
        (D.seen depot.old) (D.seen depot.new) }
{
    // Law: what a legal journal says of each state that it goes through; that without records there
    // is a run without entries; and how a capture of packets is read.
    legal_is_safe();
    records_come_later();
    packets_in_order_are_read_back();
    let fabric = match fabric_of(alloc, words, depot) {
        Ok(fabric) => fabric,
        Err(outcome) => return outcome,
    };
    let Ok(stream) = depot.open_in(word_at(words, 3)) else {
        return Outcome::ReadFault;
    };
    let recorded = match open_recorded(depot, words) {
        Ok(recorded) => recorded,
        Err(_) => return Outcome::WriteFault,
    };
    let files = LiveFiles {
        journal: recorded.journal,
        ins: recorded.ins.as_slice(),
        outs: recorded.outs.as_slice(),
    };
    let budget = Budget {
        bytes: MOST_BYTES,
        frames: MOST_FRAMES,
    };
    lived(run_live(rt, alloc, depot, fabric, stream, &files, budget))
}

// Reads the configuration and makes the fabric. No file changes, however it ends.
fn fabric_of<D: Depot>(alloc: Global, words: &[String], depot: &mut D) -> Result<Fabric, Outcome>
    requires live { spec.is_live words.now ≡ true }
    requires known { spec.AllKnown (D.seen depot.old) words.now }
    ensures prepares { IsLivePrepared (spec.live_of words.now) (D.seen depot.old)
        (D.seen depot.new) result }
{
    let config = config_of(alloc, depot, word_at(words, 1))?;
    // For the proof: the values of the configuration are in their ranges.
    in_range(&config);
    match Fabric::new(alloc, config, live_count(words) as u32) {
        Ok(fabric) => Ok(fabric),
        Err(_) => Err(Outcome::Memory),
    }
}

// Opens the journal, and then the two captures of each port, in port order; they are empty then. It
// takes no memory, so that none is emptied where memory is refused.
fn open_recorded<D: Depot>(depot: &mut D, words: &[String]) -> Result<Recorded, Failed>
    requires live { spec.is_live words.now ≡ true }
    requires known { spec.AllKnown (D.seen depot.old) words.now }
    ensures opens { RecordedOpened (spec.live_of words.now) (D.seen depot.old) (D.seen depot.new)
        result }
    ensures width { IfOk result (λ o. HasWidth (spec.live_of words.now) o) }
{
    let journal = depot.open_out(word_at(words, 2))?;
    let mut ins = ArrayVec::new();
    let mut outs = ArrayVec::new();
    for port in 0..live_count(words) {
        let came = depot.open_out(came_at(words, port))?;
        add_slot(&mut ins, came);
        let sent = depot.open_out(sent_at(words, port))?;
        add_slot(&mut outs, sent);
    }
    Ok(Recorded { journal, ins, outs })
}

// How the end of a stream ends the command.
fn lived(end: Result<Done, LiveFault>) -> Outcome
    ensures { result ≡ lived_by end }
{
    match end {
        Ok(done) => Outcome::Ran {
            frames: done.frames,
            entries: done.entries,
        },
        Err(LiveFault::Block { at, why }) => Outcome::BadStream { at, why },
        Err(LiveFault::Port(face)) => Outcome::NoPort { face },
        Err(LiveFault::Limit(kind)) => Outcome::Limit { kind },
        Err(LiveFault::Read) => Outcome::ReadFault,
        Err(LiveFault::Write) => Outcome::WriteFault,
        Err(LiveFault::Memory) => Outcome::Memory,
    }
}
