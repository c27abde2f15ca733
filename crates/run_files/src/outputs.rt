//! Several outputs, written one after another.
ghost use Rattle.std.specs.Prelude.{◌≡◌, ℕ, ◌<◌, ◌++◌, ◌∷◌, [], length, OnOk, OnErr};
ghost use Rattle.run_files.specs.Outputs.{AreOutputs, PutsEach};
ghost use Rattle.run_files.specs.Pages.{items_in, piece_at};

use crate::pages::clear_all;
use arrayvec::ArrayVec;
use fab_base::{Depot, Failed, put_all};

/// Puts a slot behind others, of which there are fewer than fit. It takes no memory, so outputs can
/// be opened where none is to be emptied for want of it.
pub fn add_slot<const N: usize>(slots: &mut ArrayVec<u32, N>, slot: u32)
    requires room { length slots.old.items < N }
    ensures { slots.new.items ≡ slots.old.items ++ slot ∷ [] }
{
    slots.push(slot);
}

/// Appends a piece to the file of each of these outputs, in their order. Those behind an output
/// that fails aren't written.
pub fn put_each<D: Depot>(depot: &mut D, slots: &[u32], pieces: &[Vec<u8>]) -> Result<(), Failed>
    requires count { length slots.now ≡ length pieces.now }
    requires outputs { AreOutputs (D.seen depot.old) slots.now }
    ensures puts { PutsEach slots.now (items_in pieces.now) (D.seen depot.old) (D.seen depot.new)
        result }
{
    for port in 0..slots.len() {
        match put_all(depot, slots[port], &pieces[port]) {
            Ok(()) => {}
            Err(failed) => return Err(failed),
        }
    }
    Ok(())
}

/// Appends each page to the file of its output, as `put_each`, and empties it. Where an output
/// fails the pages hold what they held.
pub fn flush<D: Depot>(depot: &mut D, slots: &[u32], pages: &mut Vec<Vec<u8>>) -> Result<(), Failed>
    requires count { length slots.now ≡ length pages.old.items }
    requires outputs { AreOutputs (D.seen depot.old) slots.now }
    ensures puts { PutsEach slots.now (items_in pages.old.items) (D.seen depot.old)
        (D.seen depot.new) result }
    ensures nothing { OnOk result ((q : ℕ) → piece_at (items_in pages.new.items) q ≡ []) }
    ensures count { length pages.new.items ≡ length pages.old.items }
    ensures kept { OnErr result (pages.new ≡ pages.old) }
{
    match put_each(depot, slots, pages) {
        Ok(()) => {
            clear_all(pages);
            Ok(())
        }
        Err(failed) => Err(failed),
    }
}
