//! What a turn puts behind the entries and the frames since the last drain.
ghost use Rattle.std.specs.Prelude.{◌≡◌, ◌<◌, ◌≤◌, [], ◌∷◌, ◌++◌, length, IfOk, IfSome, OnOk, OnErr};
ghost use Rattle.std.specs.List.{All};
ghost use Rattle.fab_policy.specs.Ranged.{IsRangedEvent};
ghost use Rattle.fab_sending.specs.Message.{AreSendable};
ghost use Rattle.fab_roster.specs.Changes.{IsSize};
ghost use Rattle.forward_core.specs.Arrived.{entry_of};
ghost use Rattle.forward_core.specs.Turns.{IsBefore, IsSent, Keeps, KeepsFrame};

use crate::Fabric;
use crate::arrived::Arrived;
use crate::due::in_range;
use fab_base::{Bytes, Caught, NoMemory, OwnedList};
use fab_policy::{Event, Verdict, known};
use fab_sending::{Before, Sends, messages_are_kept};
use std::alloc::Global;

impl Fabric {
    // What is known before an entry.
    pub(crate) fn before(&self) -> Before<'_>
        ensures is { IsBefore result self.now }
        ensures few { length result.roster.now.tables.ports ≤ 65535 }
        ensures sizes { All (λ p. IfSome p.server IsSize) self.now.state.tables.ports }
    {
        // For the proof: the values of the configuration are in their ranges.
        in_range(&self.config);
        Before {
            config: &self.config,
            zones: &self.zones,
            roster: &self.roster,
            ports: self.ports,
            advertised: self.advertised,
            rscns: self.rscns,
        }
    }

    // Puts an entry and what it sends behind the others, or nothing where memory is refused.
    pub(crate) fn keep(&mut self, alloc: Global, entry: Event, sends: Sends) -> Result<(), NoMemory>
        requires ranged { IsRangedEvent entry }
        requires sendable { AreSendable (self.old.events ++ entry ∷ []) sends.outs }
        requires rscns { sends.rscns < 65535 }
        ensures ok { OnOk result (Keeps self.old entry sends self.new) }
        ensures err { OnErr result (self.new ≡ self.old) }
    {
        // Law: what can be sent stays so, with the same bytes, when an entry is added behind.
        messages_are_kept();
        let rscns = sends.rscns;
        make_room(&mut self.events, alloc, self.handed_events);
        make_room(&mut self.outs, alloc, self.handed_outs);
        self.events.push(alloc, entry)?;
        let Ok(()) = self.outs.append(alloc, sends.outs) else {
            self.events.pop();
            return Err(NoMemory);
        };
        self.rscns = rscns;
        Ok(())
    }

    // The place of the next entry.
    pub(crate) fn place(&self) -> usize
        ensures { result ≡ length self.now.events }
    {
        self.events.len()
    }

    // Puts the entry of a frame and what it sends behind the others, or nothing where memory is
    // refused.
    pub(crate) fn keep_frame(
        &mut self,
        alloc: Global,
        arrived: &Arrived<'_>,
        verdict: Verdict,
        sends: Sends,
    ) -> Result<(), NoMemory>
        requires { IsSent self.old arrived.now verdict sends }
        ensures ok { OnOk result (KeepsFrame self.old arrived.now verdict self.new) }
        ensures err { OnErr result (self.new ≡ self.old) }
    {
        let entry = entry_of(alloc, arrived, verdict)?;
        // For the proof: the numbers of the entry are in range, as keep wants it.
        known(&entry);
        self.keep(alloc, entry, sends)?;
        Ok(())
    }
}

// An empty list gets room for so many items, or none where memory is refused: what is put into it
// asks for room again.
fn make_room<T: Drop>(list: &mut OwnedList<T>, alloc: Global, most: usize)
    ensures { list.new ≡ list.old }
{
    if list.len() == 0
        && let Ok(items) = Vec::with_capacity(alloc, most)
    {
        *list = OwnedList::from_vec(items);
    }
}

// The entry of a frame with this verdict. Its bytes are copied here, and nowhere else.
fn entry_of(alloc: Global, arrived: &Arrived<'_>, verdict: Verdict) -> Result<Event, NoMemory>
    ensures { IfOk result (λ e. e ≡ entry_of arrived.now verdict) }
{
    let bytes = copied(alloc, arrived.heard.caught.bytes.view())?;
    let whole = arrived.heard.caught.whole;
    Ok(Event::Frame {
        port: arrived.port,
        index: arrived.index,
        caught: Caught { bytes, whole },
        verdict,
    })
}

// A copy of bytes, in one move.
fn copied(alloc: Global, from: &[u8]) -> Result<Bytes, NoMemory>
    ensures { IfOk result (λ b. b ≡ from.now) }
{
    let mut items = Vec::with_capacity(alloc, from.len())?;
    items.extend_from_slice(from)?;
    Ok(Bytes::from_vec(items))
}
