//! A row of bits under a row of its words, so that the first place is found in two looks.
ghost use Rattle.std.specs.Prelude.{◌≡◌, ◌==◌, ◌&&◌, ◌<◌, ◌≤◌, ◌^◌, ◌/◌, not, ℕ, ◌+◌, true, length, IfOk};
ghost use Rattle.sorted_lists.specs.Row.{has, IsNextBit};

use crate::{Row, clear_bit, full_row, next_bit};
use fab_base::NoMemory;
use std::alloc::Global;
use std::marker::Model;

/// A row whose bits are only cleared.
#[derive(Debug, Drop)]
pub struct Tree {
    leaves: Row,
    // The words of `leaves` that may have a bit.
    tops: Row,
}

impl Model for Tree {
    ghost use Rattle.std.specs.Prelude.{List, ℕ};
    ghost use Rattle.sorted_lists.specs.Tree.{IsTree};

    ghost Value = { List ℕ };

    ghost view = { λ t. t.leaves.items };

    ghost invariant = { λ t. IsTree t.leaves.items t.tops.items };
}

impl Tree {
    /// A row for this many places, whose bits are all set.
    pub fn full(alloc: Global, places: u32) -> Result<Tree, NoMemory>
        ensures bits { IfOk result (λ t. (q : ℕ) → q < places → has t q ≡ true) }
        ensures words { IfOk result (λ t. length t ≡ places / 64 + 1) }
    {
        let leaves = full_row(alloc, places)?;
        let tops = full_row(alloc, places / 64 + 1)?;
        Ok(Tree { leaves, tops })
    }

    /// Clears the bit of a place that stands in the row.
    pub fn clear(&mut self, place: usize)
        requires { place / 64 < length self.old }
        ensures bits { (q : ℕ) → has self.new q ≡ (not (place == q) && has self.old q) }
        ensures words { length self.new ≡ length self.old }
    {
        clear_bit(&mut self.leaves, place);
        if self.leaves[place / 64] == 0 {
            clear_bit(&mut self.tops, place / 64);
        }
    }

    /// The least place whose bit is set.
    pub fn first(&self) -> Option<usize>
        ensures { IsNextBit self.now 0 result }
    {
        match next_bit(&self.tops, 0) {
            Some(word) => next_bit(&self.leaves, 64 * word),
            None => None,
        }
    }
}
