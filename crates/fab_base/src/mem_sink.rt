//! A sink in memory, for tests and for callers that want the text.
ghost use Rattle.std.specs.Prelude.{◌≤◌, vec_capacity};

use crate::{Failed, NoMemory, Sink};
use std::alloc::Global;

/// A sink in memory with a fixed room, all of which is taken when it is made.
#[derive(Debug, Drop)]
pub struct MemSink {
    items: Vec<u8>,
    room: usize,
    faults: u64,
    ghost taken: { room ≤ vec_capacity items },
}

impl MemSink {
    ghost use Rattle.std.specs.Prelude.{◌≡◌, ◌<◌, ◌≤◌, ◌-◌, ◌++◌, ◌↔◌, min, take, length, [], IfOk, IfSome, IfNone, IsNone};
    ghost use Rattle.fab_base.specs.MemSink.{mem_sunk, room_of};

    /// An empty sink with room for so many bytes.
    pub fn new(alloc: Global, room: usize) -> Result<MemSink, NoMemory>
        ensures empty { IfOk result (λ s. (mem_sunk s).written ≡ []) }
        ensures room { IfOk result (λ s. room_of s ≡ room) }
        ensures faults { IfOk result (λ s. (mem_sunk s).faults ≡ 0) }
    {
        let items = Vec::with_capacity(alloc, room)?;
        Ok(MemSink {
            items,
            room,
            faults: 0,
        })
    }

    /// What was appended.
    pub fn content(&self) -> &[u8]
        ensures { result.now ≡ (mem_sunk self.now).written }
    {
        self.items.as_slice()
    }

    // Appends what fits, or nothing where there is no room.
    fn try_put(&mut self, from: &[u8]) -> Option<usize>
        requires { 0 < length from.now }
        ensures some { IfSome result (λ n. (1 ≤ n)
            × (n ≡ min (self.old.room - length self.old.items.items) (length from.now))
            × (self.new.items.items ≡ self.old.items.items ++ take n from.now)) }
        ensures none { IsNone result ↔ (self.old.room ≤ length self.old.items.items) }
        ensures same { IfNone result (self.new.items.items ≡ self.old.items.items) }
        ensures kept { (self.new.room ≡ self.old.room) × (self.new.faults ≡ self.old.faults) }
    {
        let count = self.room.saturating_sub(self.items.len()).min(from.len());
        if count == 0 {
            return None;
        }
        self.items.extend_from_slice(&from[..count]).unwrap();
        Some(count)
    }
}

impl Sink for MemSink {
    ghost use Rattle.std.specs.Prelude.{◌≡◌, ◌↔◌, ◌≤◌, ◌<◌, ◌-◌, min, length, IsErr, IfOk};
    ghost use Rattle.fab_base.specs.Sunk.{Sinks};
    ghost use Rattle.fab_base.specs.MemSink.{mem_sunk, room_of};

    ghost sunk = { mem_sunk };

    fn put(&mut self, from: &[u8]) -> Result<usize, Failed>
        requires { 0 < length from.now }
        ensures sinks { Sinks from.now (mem_sunk self.old) (mem_sunk self.new) result }
        ensures failed { IsErr result ↔ (room_of self.old ≤ length (mem_sunk self.old).written) }
        ensures count { IfOk result (λ n. n ≡ min
            (room_of self.old - length (mem_sunk self.old).written) (length from.now)) }
        ensures room { room_of self.new ≡ room_of self.old }
    {
        match self.try_put(from) {
            Some(count) => Ok(count),
            None => {
                self.faults = self.faults.saturating_add(1);
                Err(Failed)
            }
        }
    }
}
