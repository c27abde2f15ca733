//! Devices, and a frame that one of them heard.
ghost use Rattle.std.specs.Prelude.{◌≡◌, ◌≤◌, ◌<◌, ◌∷◌, [], length, IfOk};
ghost use Rattle.wire_store.specs.Ports.{Acts, Hears, Sends};
ghost use Rattle.wire_store.specs.Written.{block_bytes};

use crate::Heard;
use crate::written::add_block;
use fab_base::NoMemory;
use std::alloc::Global;
use std::marker::Model;

/// Devices, one for each port. `acts` says what contracts know of them at a moment.
pub trait Ports {
    ghost acts: { Self → Acts };

    /// How many there are.
    fn count(&self) -> u32
        ensures count { result ≡ (acts self.now).ports };

    /// Waits for the next frame of any port, with the moment of its reading, or the end.
    fn hear(&mut self) -> Option<Block>
        ensures hears { Hears (acts self.old) (acts self.new) result };

    /// Gives a device a frame to send, by one call. Whether the device takes it isn't known.
    fn send(&mut self, port: u32, frame: &[u8])
        requires port { port < (acts self.old).ports }
        ensures sends { Sends port (frame.now ∷ []) (acts self.old) (acts self.new) };
}

/// A frame that was heard, with its block, which whoever hears it makes.
#[derive(Debug, Drop)]
pub struct Block {
    heard: Heard,
    bytes: Vec<u8>,
}

impl Model for Block {
    ghost use Rattle.std.specs.Prelude.{◌≡◌};
    ghost use Rattle.wire_store.specs.declared.Heard.{Heard};
    ghost use Rattle.wire_store.specs.Written.{block_bytes};

    ghost Value = { Heard };

    ghost view = { λ b. b.heard };

    ghost invariant = { λ b. b.bytes.items ≡ block_bytes b.heard };
}

impl Block {
    /// The block of a frame.
    pub fn of(alloc: Global, heard: Heard) -> Result<Block, NoMemory>
        requires { length heard.frame ≤ 65535 }
        ensures { IfOk result (λ b. b ≡ heard) }
    {
        let mut bytes = Vec::new(alloc);
        add_block(alloc, &heard, &mut bytes)?;
        Ok(Block { heard, bytes })
    }

    /// Its bytes.
    pub fn into_bytes(self) -> Vec<u8>
        ensures { result.items ≡ block_bytes self }
    {
        let Block { heard: _, bytes } = self;
        bytes
    }
}
