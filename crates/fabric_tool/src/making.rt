//! The command `make`.
ghost use Rattle.std.specs.Prelude.{◌≡◌, true};
ghost use Rattle.fabric_tool.specs.Command as spec;
ghost use Rattle.fabric_tool.specs.Ends.{Holds, TouchesOwn};
ghost use Rattle.fabric_tool.specs.Opening.{FilesOpened};

use crate::command::file_at;
use crate::outcome::Outcome;
use arrayvec::ArrayVec;
use fab_base::{Depot, Failed};
use fab_vectors::{MakeFault, make_load};
use run_files::add_slot;
use std::alloc::Global;

/// How many files a load has.
const FILES: usize = 9;

/// The slots of the files of a load, in their order.
#[derive(Debug, Drop)]
pub(crate) struct LoadFiles {
    pub(crate) slots: ArrayVec<u32, FILES>,
}

/// Writes the load of a number. All files are opened before one is written.
pub(crate) fn make<D: Depot>(alloc: Global, number: u64, words: &[String], depot: &mut D) -> Outcome
    requires make { spec.is_make words.now ≡ true }
    requires known { spec.AllKnown (D.seen depot.old) words.now }
    ensures holds { Holds (spec.Make (spec.make_of number words.now))
        (D.seen depot.old) (D.seen depot.new) result }
    ensures touches { TouchesOwn (spec.Make (spec.make_of number words.now))
        (D.seen depot.old) (D.seen depot.new) }
{
    let files = match open_files(depot, words) {
        Ok(files) => files,
        Err(_) => return Outcome::WriteFault,
    };
    match make_load(alloc, depot, number, files.slots.as_slice()) {
        Ok(frames) => Outcome::Made { frames },
        Err(MakeFault::Write) => Outcome::WriteFault,
        Err(MakeFault::Memory) => Outcome::Memory,
    }
}

// Opens the files in their order; they are empty then. It takes no memory.
fn open_files<D: Depot>(depot: &mut D, words: &[String]) -> Result<LoadFiles, Failed>
    requires make { spec.is_make words.now ≡ true }
    requires known { spec.AllKnown (D.seen depot.old) words.now }
    ensures opens { FilesOpened (spec.files_of words.now) (D.seen depot.old) (D.seen depot.new)
        result }
{
    let mut slots = ArrayVec::new();
    for place in 0..FILES {
        let slot = depot.open_out(file_at(words, place))?;
        add_slot(&mut slots, slot);
    }
    Ok(LoadFiles { slots })
}
