//! Reading a file packet by packet while it comes.
ghost use Rattle.std.specs.Prelude.{◌≡◌, ◌<◌, ◌+◌, ◌^◌, ◌++◌, ◌∷◌, [], IsTrue, None, OnOk, OnErr};
ghost use Rattle.pcapng_file.specs.File.{before_all, after};
ghost use Rattle.pcapng_file.specs.Stream.{StreamReads, BlockGone, stream_stand, streaming};

use crate::NgRecord;
use crate::fault::NgError;
use crate::reading::{SoFar, next_block};
use fab_base::Depot;
use pcap_file::{Ahead, Budget};
use std::alloc::Global;
use std::marker::Model;

/// A file that is read packet by packet: what was fetched and not given, the place of the next
/// block, its section, what is left of the limits, and the error that was answered or none.
#[derive(Debug, Drop)]
pub struct NgStream {
    ahead: Ahead,
    section: SoFar,
    at: u64,
    left: Budget,
    kept: Option<NgError>,
}

impl Model for NgStream {
    ghost use Rattle.std.specs.Prelude.{◌<◌, ◌+◌, ◌^◌};
    ghost use Rattle.pcapng_file.specs.File.{place};
    ghost use Rattle.pcapng_file.specs.Stream.{Streaming};

    ghost Value = { Streaming };

    ghost view = { λ s. record {
      held = s.ahead;
      here = place s.at s.section s.left;
      kept = s.kept;
    } };

    ghost invariant = { λ s. s.at + s.left.bytes < 2 ^ 64 };
}

// What a block gave.
#[derive(Debug, Drop)]
pub(crate) enum Gone {
    Packet(NgRecord),
    Other,
    End,
}

impl NgStream {
    /// A stream of which nothing was read.
    pub fn new(alloc: Global, budget: Budget) -> NgStream
        ensures { result ≡ streaming [] 0 before_all budget }
    {
        NgStream {
            ahead: Ahead::new(),
            section: SoFar::new(alloc),
            at: 0,
            left: budget,
            kept: None,
        }
    }

    /// The next packet, or none where the stream ends between two blocks of a section. Nothing is
    /// fetched behind it but what came with its bytes. After an error the stream answers that
    /// error at each call, and fetches nothing.
    pub fn next<D: Depot>(
        &mut self,
        alloc: Global,
        depot: &mut D,
        slot: u32,
    ) -> Result<Option<NgRecord>, NgError>
        requires input { IsTrue ((D.seen depot.old).input slot) }
        ensures reads { StreamReads slot (stream_stand self.old (D.seen depot.old))
            (stream_stand self.new (D.seen depot.new)) result }
    {
        if let Some(error) = self.kept {
            return Err(error);
        }
        loop {
            match self.block(alloc, depot, slot) {
                Ok(Gone::Packet(record)) => return Ok(Some(record)),
                Ok(Gone::Other) => {}
                Ok(Gone::End) => return Ok(None),
                Err(error) => {
                    self.kept = Some(error);
                    return Err(error);
                }
            }
        }
    }

    // Reads the next block.
    fn block<D: Depot>(&mut self, alloc: Global, depot: &mut D, slot: u32) -> Result<Gone, NgError>
        requires input { IsTrue ((D.seen depot.old).input slot) }
        ensures gone { BlockGone slot (stream_stand self.old (D.seen depot.old))
            (stream_stand self.new (D.seen depot.new)) result }
    {
        let NgStream {
            ahead,
            section,
            at,
            left,
            ..
        } = self;
        let block = match next_block(alloc, depot, slot, ahead, section, *left, *at)? {
            Some(block) => block,
            None => return Ok(Gone::End),
        };
        *at += block.size as u64;
        left.bytes -= block.size as u64;
        left.frames -= block.content.frames();
        match section.enter(block.content) {
            Ok(Some(record)) => Ok(Gone::Packet(record)),
            Ok(None) => Ok(Gone::Other),
            Err(_) => Err(NgError::Memory),
        }
    }
}
