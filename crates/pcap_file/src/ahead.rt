//! Bytes that were fetched and not given yet.
ghost use Rattle.std.specs.Prelude.{◌≡◌, ◌≤◌, ◌<◌, ◌+◌, ◌-◌, List, ℕ, [], ◌++◌, IsTrue};
ghost use Rattle.std.specs.Prelude.{length, take, drop, min, IfOk, OnErr};
ghost use Rattle.std.specs.Prelude.{vec_len, vec_capacity};
ghost use Rattle.pcap_file.specs.Reading.{Pulls, Collects, Refills, supply};

use fab_base::{Depot, Failed};
use std::marker::Model;

const ROOM: usize = 4096;

/// The buffer of a reader, which a contract sees as the bytes that it holds: fetched, and not
/// given.
// The bytes from `from` up to `to` are held.
#[derive(Debug, Drop)]
pub struct Ahead {
    bytes: [u8; ROOM],
    from: usize,
    to: usize,
}

impl Model for Ahead {
    ghost Value = { List ℕ };

    ghost view = { λ a. take (a.to - a.from) (drop a.from a.bytes) };

    ghost invariant = { λ a. (a.from ≤ a.to) × (a.to ≤ length a.bytes) };
}

impl Ahead {
    /// A buffer that holds nothing.
    pub fn new() -> Ahead
        ensures { result ≡ [] }
    {
        Ahead {
            bytes: [0; ROOM],
            from: 0,
            to: 0,
        }
    }

    /// Fills a buffer from what is held and then from the slot: less than all only at the end.
    pub fn pull<D: Depot>(
        &mut self,
        depot: &mut D,
        slot: u32,
        into: &mut [u8],
    ) -> Result<usize, Failed>
        requires { IsTrue ((D.seen depot.old).input slot) }
        ensures pulls { Pulls slot into.new (supply self.old (D.seen depot.old))
            (supply self.new (D.seen depot.new)) result }
    {
        let mut got = 0;
        while got < into.len() {
            self.ready(depot, slot)?;
            let count = self.give(&mut into[got..]);
            if count == 0 {
                break;
            }
            got += count;
        }
        Ok(got)
    }

    /// Puts so many bytes into an empty buffer that has room for them, from what is held and then
    /// from the slot: fewer only at the end. Nothing is written there before its bytes.
    pub fn collect<D: Depot>(
        &mut self,
        depot: &mut D,
        slot: u32,
        count: usize,
        into: &mut Vec<u8>,
    ) -> Result<(), Failed>
        requires input { IsTrue ((D.seen depot.old).input slot) }
        requires empty { vec_len into.old ≡ 0 }
        requires room { count ≤ vec_capacity into.old }
        ensures collects { Collects slot count into.new.items (supply self.old (D.seen depot.old))
            (supply self.new (D.seen depot.new)) result }
    {
        while into.len() < count {
            self.ready(depot, slot)?;
            if self.hand(count - into.len(), into) == 0 {
                break;
            }
        }
        Ok(())
    }

    // Fetches once where nothing is held.
    fn ready<D: Depot>(&mut self, depot: &mut D, slot: u32) -> Result<(), Failed>
        requires { IsTrue ((D.seen depot.old).input slot) }
        ensures refills { Refills slot (supply self.old (D.seen depot.old))
            (supply self.new (D.seen depot.new)) result }
    {
        if self.from < self.to {
            return Ok(());
        }
        let count = depot.fetch(slot, &mut self.bytes)?;
        self.from = 0;
        self.to = count;
        Ok(())
    }

    // Appends the first bytes that are held where there is room, and answers how many.
    fn hand(&mut self, most: usize, into: &mut Vec<u8>) -> usize
        requires room { vec_len into.old + most ≤ vec_capacity into.old }
        ensures count { result ≡ min (length self.old) most }
        ensures front { into.new.items ≡ into.old.items ++ take result self.old }
        ensures rest { self.new ≡ drop result self.old }
        ensures len { vec_len into.new ≡ vec_len into.old + result }
        ensures capacity { vec_capacity into.old ≤ vec_capacity into.new }
    {
        let held = self.to - self.from;
        let count = if held < most { held } else { most };
        let piece = &self.bytes[self.from..self.from + count];
        if into.extend_from_slice(piece).is_err() {
            unreachable!();
        }
        self.from += count;
        count
    }

    // Moves the first bytes that are held, and answers how many.
    fn give(&mut self, into: &mut [u8]) -> usize
        ensures count { result ≡ min (length self.old) (length into.old) }
        ensures front { take result into.new ≡ take result self.old }
        ensures rest { self.new ≡ drop result self.old }
    {
        let held = self.to - self.from;
        let count = if held < into.len() { held } else { into.len() };
        into[..count].copy_from_slice(&self.bytes[self.from..self.from + count]);
        self.from += count;
        count
    }
}
