//! A store of files, whose stream is what devices hear, and whose outputs devices send.
ghost use Rattle.std.specs.Prelude.{◌≡◌, ◌<◌, Some, slice_get};
ghost use Rattle.wire_store.specs.Store.{Takes, Passes};
ghost use Rattle.wire_store.specs.declared.store.Outlet.{Outlet};

use crate::cut::Splitter;
use crate::feed::{Feed, send_wholes};
use crate::ports::Ports;
use fab_base::{Depot, Failed, NoMemory};
use std::alloc::Global;

// An output: its name, the slot that was opened last for it, and what was put and not sent.
#[derive(Debug, Drop)]
pub(crate) struct Outlet {
    name: String,
    slot: Option<u32>,
    splitter: Splitter,
    // whether memory was refused for a piece
    lost: bool,
}

/// A store of files and devices. What is fetched under the name of the stream is what the devices
/// hear, and of what is put to an output each whole record's frame goes to its port.
#[derive(Drop)]
pub struct Wires<D: Depot + Drop, P: Ports + Drop> {
    alloc: Global,
    files: D,
    devices: P,
    feed: Feed,
    // the name of the stream, and its slot
    name: String,
    stream: Option<u32>,
    outs: Vec<Outlet>,
}

impl<D: Depot + Drop, P: Ports + Drop> Wires<D, P> {
    ghost use Rattle.std.specs.Prelude.{IfOk};
    ghost use Rattle.wire_store.specs.Written.{stream_head};

    /// A store of these files and devices, with the names of the stream and of each port's output.
    pub fn new(
        alloc: Global,
        files: D,
        devices: P,
        name: String,
        outputs: Vec<String>,
    ) -> Result<Wires<D, P>, NoMemory>
        ensures files { IfOk result (λ w. w.files ≡ files) }
        ensures devices { IfOk result (λ w. w.devices ≡ devices) }
        ensures feed { IfOk result (λ w. w.feed ≡ stream_head (P.acts devices).ports) }
    {
        let feed = Feed::new(alloc, devices.count())?;
        let mut outs = Vec::new(alloc);
        for name in outputs {
            outs.push(Outlet {
                name,
                slot: None,
                splitter: Splitter::new(alloc),
                lost: false,
            })?;
        }
        Ok(Wires {
            alloc,
            files,
            devices,
            feed,
            name,
            stream: None,
            outs,
        })
    }
}

impl<D: Depot + Drop, P: Ports + Drop> Depot for Wires<D, P> {
    ghost use Rattle.std.specs.Prelude.{◌≢◌, take, length, IsTrue, IfOk, OnErr};
    ghost use Rattle.fab_base.specs.Seen.{Fetches, Puts};
    ghost use Rattle.wire_store.specs.Ports.{Feeds};
    ghost use Rattle.wire_store.specs.Store.{untold};

    ghost seen = { λ w. untold (D.seen w.files) };

    #[tactic(auto, using(crate::proofs::StoreLemmas::opens_in))]
    fn open_in(&mut self, name: &str) -> Result<u32, Failed> {
        let slot = self.files.open_in(name)?;
        if name == self.name.as_str() {
            self.stream = Some(slot);
        }
        Ok(slot)
    }

    #[tactic(auto, using(crate::proofs::StoreLemmas::opens_out))]
    fn open_out(&mut self, name: &str) -> Result<u32, Failed> {
        let slot = self.files.open_out(name)?;
        start(self.alloc, &mut self.outs, name, slot);
        Ok(slot)
    }

    #[tactic(auto, using(crate::proofs::StoreLemmas::fetches, crate::proofs::StoreLemmas::feeds))]
    fn fetch(&mut self, slot: u32, into: &mut [u8]) -> Result<usize, Failed>
        requires input { IsTrue ((D.seen self.old.files).input slot) }
        requires room { 0 < length into.old }
        ensures fetches { Fetches slot into.new (untold (D.seen self.old.files))
            (untold (D.seen self.new.files)) result }
        // Of the stream it takes the next bytes of what the devices hear.
        ensures feeds { self.old.stream ≡ Some slot → IfOk result (λ n. Feeds into.new self.old.feed
            self.new.feed (P.acts self.old.devices) (P.acts self.new.devices) n) }
        ensures silent { (self.old.stream ≢ Some slot) → P.acts self.new.devices
            ≡ P.acts self.old.devices }
    {
        if self.stream == Some(slot) {
            return Ok(self.feed.fetch(&mut self.devices, into));
        }
        self.files.fetch(slot, into)
    }

    #[tactic(auto, using(crate::proofs::StoreLemmas::puts))]
    fn put(&mut self, slot: u32, from: &[u8]) -> Result<usize, Failed>
        requires output { IsTrue ((D.seen self.old.files).output slot) }
        requires some { 0 < length from.now }
        ensures puts { Puts slot from.now (untold (D.seen self.old.files))
            (untold (D.seen self.new.files)) result }
        // Only what the file took is sent; nothing is where it failed.
        ensures sends { IfOk result (λ n. Passes slot self.old.outs.items self.new.outs.items
            (take n from.now) (P.acts self.old.devices) (P.acts self.new.devices)) }
        ensures silent { OnErr result (P.acts self.new.devices ≡ P.acts self.old.devices) }
    {
        let count = self.files.put(slot, from)?;
        pass_on(
            self.alloc,
            &mut self.outs,
            &mut self.devices,
            slot,
            &from[..count],
        );
        Ok(count)
    }
}

// An output that was opened is empty.
fn start(alloc: Global, outs: &mut Vec<Outlet>, name: &str, slot: u32) {
    for out in outs.iter_mut() {
        if out.name.as_str() == name {
            out.slot = Some(slot);
            out.splitter = Splitter::new(alloc);
        }
    }
}

// Gives the port of a slot what a piece makes whole.
fn pass_on<P: Ports>(alloc: Global, outs: &mut [Outlet], devices: &mut P, slot: u32, piece: &[u8])
    ensures { Passes slot outs.old outs.new piece.now (P.acts devices.old) (P.acts devices.new) }
{
    let ports = devices.count();
    let index = outlet_of(outs, slot);
    if index < outs.len() && index < ports as usize {
        outs[index].take(alloc, devices, index as u32, piece);
    }
}

// The place of the output of a slot, or one that is none.
fn outlet_of(outs: &[Outlet], slot: u32) -> usize
    ensures { (o : Outlet) → slice_get outs.now result ≡ Some o → o.slot ≡ Some slot }
{
    for (index, out) in outs.iter().enumerate() {
        if let Some(own) = out.slot
            && own == slot
        {
            return index;
        }
    }
    outs.len()
}

impl Outlet {
    // Takes a piece that was put, and sends what it makes whole.
    pub(crate) fn take<P: Ports>(&mut self, alloc: Global, devices: &mut P, port: u32, piece: &[u8])
        requires { port < (P.acts devices.old).ports }
        ensures { Takes port self.old self.new piece.now (P.acts devices.old)
            (P.acts devices.new) }
    {
        if self.lost {
            return;
        }
        match self.splitter.take_in(alloc, piece) {
            Ok(()) => send_wholes(&mut self.splitter, devices, port),
            Err(_) => self.lost = true,
        }
    }
}
