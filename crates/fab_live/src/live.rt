//! What a forwarder that runs keeps from packet to packet, and the taking of one.
ghost use Rattle.std.specs.Prelude.{◌≡◌, ◌+◌, ◌-◌, ◌<◌, ◌^◌, ◌++◌, ◌∷◌, [], List, Some, length, max, min, MatchResult, IfOk, OnOk, OnErr, ℕ};
ghost use Rattle.fab_config.specs.Settings.{Settings};
ghost use Rattle.fab_policy.specs.Journal.{Journal};
ghost use Rattle.window_records.specs.Looks as looks;
ghost use Rattle.pcapng_file.specs.Classic.{classic_record};
ghost use Rattle.pcapng_file.specs.File.{IsPacketKept};
ghost use Rattle.pcapng_file.specs.declared.NgRecord as of_stream;
ghost use Rattle.fab_windows.specs.Files.{GoesOn};
ghost use Rattle.fab_live.specs.Arriving as arriving;
ghost use Rattle.fab_base.specs.Ending.{Uses, end_by};
ghost use Rattle.fab_base.specs.Seen.{Nothing};
ghost use Rattle.fab_live.specs.Files.{slots_of, LiveNames, live_end};
ghost use Rattle.fab_live.specs.Live.{KeepsNumbers};
ghost use Rattle.fab_live.specs.Ready.{Beginning, HasRoom, IsReady, LeavesPacket, Running};

use crate::files::write_packet;
use crate::handling::handle;
use crate::{Done, LimitKind, LiveFault, LiveFiles};
use fab_base::{Depot, Moment, NoMemory, PortNo};
use fab_pages::Sendings;
use fab_windows::{Pages, runs_go_on};
use forward_core::Fabric;
use pcap_file::MOST_SPAN;
use pcapng_file::{NgRecord, add_packet};
use std::alloc::Global;
use std::thread::Threads;
use window_records::window_start;

/// What a forwarder that runs keeps: the fabric, how many packets each port had, the first window
/// and the greatest time so far, how many frames and entries there were, and the pages, which are
/// empty between two packets.
#[derive(Drop)]
pub(crate) struct Live {
    pub(crate) fabric: Fabric,
    pub(crate) counts: Vec<u64>,
    pub(crate) first: Option<u64>,
    pub(crate) greatest: Moment,
    pub(crate) done: Done,
    pub(crate) pages: Pages,
}

impl Live {
    /// Takes a packet of a stream: handles its frame, and writes its record, its entries and what
    /// these send. Where memory is refused, or the packet's window lies too long after the first,
    /// nothing is written. After an error the forwarder ends: its numbers are those of the packets
    /// before, its fabric may have handled this one, and its pages may hold some of it.
    pub(crate) fn take<R: Threads + Sync, D: Depot>(
        &mut self,
        rt: &R,
        alloc: Global,
        depot: &mut D,
        files: &LiveFiles<'_>,
        packet: NgRecord,
    ) -> Result<(), LiveFault>
        requires ready { IsReady (slots_of files.now) self.old (D.seen depot.old) }
        requires face { packet.face < length files.now.outs.now }
        requires kept { IsPacketKept packet }
        requires room { (self.old.done.frames + 1 < 2 ^ 64) × HasRoom self.old packet.face }
        ensures takes { (c : Settings) (b : Beginning) (packets : List of_stream.NgRecord)
            (K : Journal)
            → Running c b (slots_of files.now) packets K self.old (D.seen depot.old)
            → MatchResult result (λ _. (L : Journal) × GoesOn K L
            × Running c b (slots_of files.now) (packets ++ packet ∷ []) L self.new (D.seen depot.new))
            (λ e. LeavesPacket c b (slots_of files.now) packets packet (D.seen depot.new) e) }
        ensures ready { OnOk result (IsReady (slots_of files.now) self.new
            (D.seen depot.new)) }
        ensures uses { Uses Nothing (LiveNames (D.seen depot.old) (slots_of files.now))
            (end_by live_end result) (D.seen depot.old) (D.seen depot.new) }
        ensures stays { OnErr result (KeepsNumbers self.old self.new) }
    {
        // Law: a run from a state goes on by a window's records.
        runs_go_on();
        let place = packet.face as usize;
        let packet = arrive(self.greatest, packet);
        let window = window_start(self.fabric.config(), packet.moment);
        let first = self.first.unwrap_or(window);
        if is_too_late(first, window) {
            return Err(LiveFault::Limit(LimitKind::Span));
        }
        let clock = self.fabric.clock().unwrap_or(Moment(0));
        let index = self.counts[place];
        let port = PortNo::at(place);
        let drained = handle(alloc, &mut self.fabric, window, port, index, &packet.caught)?;
        let record = record_of(alloc, &packet)?;
        let sendings = Sendings {
            config: self.fabric.config(),
            drained: &drained,
        };
        self.pages.add(rt, alloc, clock, &sendings)?;
        write_packet(depot, files, place, &record, &mut self.pages)?;
        self.counts[place] = index + 1;
        self.first = Some(first);
        self.greatest = packet.moment;
        self.done.frames += 1;
        self.done.entries = with_more(self.done.entries, drained.events.len() as u64);
        Ok(())
    }
}

// How many entries there are with so many more; where 64 bits don't count them, as many as these
// do.
fn with_more(entries: u64, more: u64) -> u64
    ensures { result ≡ min (entries + more) (2 ^ 64 - 1) }
{
    entries.saturating_add(more)
}

// Whether a window starts too long after the first one.
fn is_too_late(first: u64, window: u64) -> bool
    ensures { result ≡ looks.is_too_late first (Some window) }
{
    MOST_SPAN < window.saturating_sub(first)
}

// A packet as it's taken behind others.
fn arrive(greatest: Moment, packet: NgRecord) -> NgRecord
    ensures { result ≡ arriving.arrive greatest packet }
{
    let NgRecord {
        moment,
        caught,
        original,
        face,
    } = packet;
    NgRecord {
        moment: Moment(greatest.0.max(moment.0)),
        caught,
        original,
        face,
    }
}

// The record of a packet.
fn record_of(alloc: Global, packet: &NgRecord) -> Result<Vec<u8>, NoMemory>
    ensures { IfOk result (λ v. v.items ≡ classic_record packet.now) }
{
    let mut record = Vec::new(alloc);
    add_packet(alloc, packet, &mut record)?;
    Ok(record)
}
