//! The store of the tests. It is one type, since a forwarder over each is one of its own to the
//! compiler.
ghost use Rattle.std.specs.Prelude.{◌≡◌};

use fab_base::{Depot, Failed, MemDepot};

// A depot that counts the calls that open a file and the bytes that are fetched, and keeps how many
// of these were when the first large piece was put.
#[derive(Drop)]
pub(crate) struct Counter {
    pub(crate) depot: MemDepot,
    pub(crate) opened: usize,
    pub(crate) fetched: usize,
    pub(crate) before: Option<usize>,
}

impl Depot for Counter {
    ghost use Rattle.std.specs.Prelude.{◌<◌, IsTrue, length};
    ghost use Rattle.fab_base.specs.Seen.{OpensIn, OpensOut, Fetches, Puts};
    ghost use Rattle.fab_base.specs.MemDepot.{mem_seen};

    ghost seen = { λ c. mem_seen c.depot };

    fn open_in(&mut self, name: &str) -> Result<u32, Failed> {
        self.opened = self.opened.saturating_add(1);
        self.depot.open_in(name)
    }

    fn open_out(&mut self, name: &str) -> Result<u32, Failed> {
        self.opened = self.opened.saturating_add(1);
        self.depot.open_out(name)
    }

    fn fetch(&mut self, slot: u32, into: &mut [u8]) -> Result<usize, Failed> {
        let count = self.depot.fetch(slot, into)?;
        self.fetched = self.fetched.saturating_add(count);
        Ok(count)
    }

    fn put(&mut self, slot: u32, from: &[u8]) -> Result<usize, Failed> {
        if from.len() > 1000 && self.before.is_none() {
            self.before = Some(self.fetched);
        }
        self.depot.put(slot, from)
    }
}

pub(crate) fn counted(depot: MemDepot) -> Counter
    ensures { result.depot ≡ depot }
{
    Counter {
        depot,
        opened: 0,
        fetched: 0,
        before: None,
    }
}
