//! Devices in memory: what is heard stands in a list, and what is sent is kept.
ghost use Rattle.std.specs.Prelude.{◌≡◌, ◌≤◌, ℕ, [], length, IsTrue, IfSome};
ghost use Rattle.wire_store.specs.MemPorts.{acts_of};

use crate::Heard;
use crate::ports::{Block, Ports};
use fab_base::Bytes;
use std::alloc::Global;

// A frame that was given to a port.
#[derive(Debug, Drop)]
pub(crate) struct Sent {
    port: u32,
    frame: Bytes,
}

/// Devices that hear the frames of a list, one after another. Where memory for a frame is refused
/// their history isn't known any more.
#[derive(Debug, Drop)]
pub struct MemPorts {
    alloc: Global,
    ports: u32,
    script: Vec<Heard>,
    at: usize,
    sent: Vec<Sent>,
    told: bool,
}

impl MemPorts {
    /// So many devices, before the first frame.
    pub fn new(alloc: Global, ports: u32, script: Vec<Heard>) -> MemPorts
        ensures told { IsTrue (acts_of result).told }
        ensures ports { (acts_of result).ports ≡ ports }
        ensures heard { (acts_of result).heard ≡ [] }
        ensures sent { (q : ℕ) → (acts_of result).sent q ≡ [] }
    {
        MemPorts {
            alloc,
            ports,
            script,
            at: 0,
            sent: Vec::new(alloc),
            told: true,
        }
    }
}

impl Ports for MemPorts {
    ghost use Rattle.wire_store.specs.MemPorts.{acts_of};

    ghost acts = { acts_of };

    fn count(&self) -> u32 {
        self.ports
    }

    #[tactic(auto, using(crate::proofs::MemPortsLemmas::heard_more))]
    fn hear(&mut self) -> Option<Block> {
        let heard = self.script.get(self.at)?;
        let fits = heard.face < self.ports
            && heard.nanos < 4_294_967_296_000_000_000
            && heard.frame.view().len() <= 65535;
        if !fits {
            return None;
        }
        let block = block_of(self.alloc, heard)?;
        self.at += 1;
        Some(block)
    }

    #[tactic(auto, using(crate::proofs::MemPortsLemmas::sent_more, crate::proofs::MemPortsLemmas::sent_other))]
    fn send(&mut self, port: u32, frame: &[u8]) {
        let Ok(frame) = Bytes::copy(self.alloc, frame) else {
            self.told = false;
            return;
        };
        if self.sent.push(Sent { port, frame }).is_err() {
            self.told = false;
        }
    }
}

// The block of a frame, unless memory is refused.
fn block_of(alloc: Global, heard: &Heard) -> Option<Block>
    requires { length heard.now.frame ≤ 65535 }
    ensures { IfSome result (λ b. b ≡ heard.now) }
{
    let Ok(frame) = Bytes::copy(alloc, heard.frame.view()) else {
        return None;
    };
    let Heard { face, nanos, .. } = heard;
    Block::of(
        alloc,
        Heard {
            face: *face,
            nanos: *nanos,
            frame,
        },
    )
    .ok()
}
