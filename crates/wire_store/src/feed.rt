//! The stream of what devices hear, and the sending of what was put.
ghost use Rattle.std.specs.Prelude.{◌≡◌, ◌≤◌, ◌<◌, ◌+◌, ◌-◌, ◌^◌, ◌++◌, length, min, take, drop, IfOk};
ghost use Rattle.wire_store.specs.Written.{stream_head};
ghost use Rattle.wire_store.specs.Ports.{Waits, Feeds, Given};

use crate::cut::Splitter;
use crate::ports::Ports;
use crate::written::add_head;
use fab_base::NoMemory;
use std::alloc::Global;
use std::marker::Model;

/// The stream of what devices hear: what waits to be fetched of it.
#[derive(Debug, Drop)]
pub struct Feed {
    bytes: Vec<u8>,
    at: usize,
}

impl Model for Feed {
    ghost use Rattle.std.specs.Prelude.{List, ℕ, drop};

    ghost Value = { List ℕ };

    ghost view = { λ f. drop f.at f.bytes.items };
}

impl Feed {
    /// The stream of so many ports, before its first byte.
    pub fn new(alloc: Global, ports: u32) -> Result<Feed, NoMemory>
        ensures { IfOk result (λ f. f ≡ stream_head ports) }
    {
        let mut bytes = Vec::new(alloc);
        add_head(alloc, ports, &mut bytes)?;
        Ok(Feed { bytes, at: 0 })
    }

    /// Fetches the next bytes: of what waits, and else of the block of the next frame that is
    /// heard. 0 at the end.
    pub fn fetch<P: Ports>(&mut self, devices: &mut P, into: &mut [u8]) -> usize
        requires { 0 < length into.old }
        ensures { Feeds into.new self.old self.new (P.acts devices.old) (P.acts devices.new)
            result }
    {
        if !self.wait(devices) {
            return 0;
        }
        let count = copy_from(&self.bytes, self.at, into);
        self.at += count;
        count
    }

    // Hears the next frame where nothing waits. Answers whether something waits.
    fn wait<P: Ports>(&mut self, devices: &mut P) -> bool
        ensures { Waits self.old self.new (P.acts devices.old) (P.acts devices.new) result }
    {
        if self.at < self.bytes.len() {
            return true;
        }
        match devices.hear() {
            None => false,
            Some(block) => {
                self.bytes = block.into_bytes();
                self.at = 0;
                true
            }
        }
    }
}

// Copies what fits from a place on.
fn copy_from(bytes: &[u8], at: usize, into: &mut [u8]) -> usize
    requires { at ≤ length bytes.now }
    ensures taken { take result into.new ++ drop (at + result) bytes.now ≡ drop at bytes.now }
    ensures all { result ≡ min (length into.old) (length bytes.now - at) }
    ensures fits { at + result < 2 ^ 64 }
{
    let count = into.len().min(bytes.len() - at);
    into[..count].copy_from_slice(&bytes[at..at + count]);
    count
}

/// Gives a port each frame that a splitter has to give.
pub fn send_wholes<P: Ports>(splitter: &mut Splitter, devices: &mut P, port: u32)
    requires { port < (P.acts devices.old).ports }
    ensures { Given port splitter.old splitter.new (P.acts devices.old) (P.acts devices.new) }
{
    loop {
        match splitter.frame() {
            Some(frame) => {
                devices.send(port, frame);
                splitter.pass();
            }
            None => return,
        }
    }
}
