//! A list of notes, which grows at its end.
ghost use Rattle.std.specs.Prelude.{◌≡◌, ◌++◌, ◌∷◌, [], List, if◌then◌else◌};

use crate::rule::Chronicle;
use fab_base::PortNo;
use std::alloc::Global;

#[derive(Clone, Copy, Drop)]
pub struct Note {
    pub port: PortNo,
    pub number: u64,
}

#[derive(Drop)]
pub struct Log {
    notes: Vec<Note>,
}

impl Chronicle for Log {
    ghost use mathlib.Core.List.{IsPrefix};
    ghost use Rattle.fab_turn.specs.Log.{begins_with_itself};

    type Entry = Note;

    ghost entries = { λ log. log.notes.items };

    ghost port_of = { λ note. note.port };

    ghost grown = { λ first log. IsPrefix first.notes.items log.notes.items };

    ghost grown_of_itself = { λ log. begins_with_itself log.notes.items };
}

impl Log {
    pub fn new(alloc: Global) -> Log
        ensures { result.notes.items ≡ [] }
    {
        Log {
            notes: Vec::new(alloc),
        }
    }

    pub fn add(&mut self, note: Note) -> bool
        ensures { self.new.notes.items ≡ (if result then self.old.notes.items
            ++ note ∷ [] else self.old.notes.items) }
    {
        self.notes.push(note).is_ok()
    }

    pub fn len(&self) -> usize {
        self.notes.len()
    }

    // Whether the notes of the port have the numbers from 0 to 49, in order.
    pub fn numbers_ascend(&self, port: PortNo) -> bool {
        let mut next = 0u64;
        for note in &self.notes {
            if note.port == port {
                if note.number != next || next >= 50 {
                    return false;
                }
                next += 1;
            }
        }
        next == 50
    }
}
