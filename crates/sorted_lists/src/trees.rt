//! Items in the order of a number of theirs, in a B-tree: a change moves few of them, however many
//! there are and whatever their numbers.
use crate::HasRank;
use fab_base::NoMemory;
use std::alloc::Global;
use std::collections::BTreeMap;
use std::marker::Model;

/// Items that ascend by rank.
#[derive(Debug, Drop)]
pub struct SortedTree<T: HasRank + Drop> {
    tree: BTreeMap<u128, T, Global>,
}

impl<T: HasRank + Drop> Model for SortedTree<T> {
    ghost use Rattle.std.specs.Prelude.{List};
    ghost use Rattle.std.specs.BTreeMap.{values};
    ghost use Rattle.sorted_lists.specs.Entries.{AreRanked};

    ghost Value = { List T };

    ghost view = { λ t. values t.tree };

    ghost invariant = { λ t. AreRanked T.rank_of t.tree.entries };
}

impl<T: HasRank + Drop> SortedTree<T> {
    ghost use Rattle.std.specs.Prelude.{◌≡◌, ◌≢◌, None, [], nat_le, find, option_copied};
    ghost use Rattle.std.specs.Prelude.{IfOk, OnOk, OnErr, IsOk};
    ghost use Rattle.fab_base.specs.Keyed.{item_at, added, without, AscendFrom};

    pub fn new(alloc: Global) -> SortedTree<T>
        ensures { result ≡ [] }
    {
        SortedTree {
            tree: BTreeMap::new(alloc),
        }
    }

    /// The item with a rank.
    pub fn find(&self, rank: u128) -> Option<&T>
        ensures item { option_copied result ≡ item_at T.rank_of rank self.now }
        ensures ascend { AscendFrom T.rank_of 0 self.now }
    {
        self.tree.get(&rank)
    }

    /// The first item whose rank isn't below the bound.
    pub fn next(&self, from: u128) -> Option<&T>
        ensures item { option_copied result ≡ find (λ x. nat_le from (T.rank_of x)) self.now }
        ensures ascend { AscendFrom T.rank_of 0 self.now }
    {
        match self.tree.range(from..).next() {
            Some((_, item)) => Some(item),
            None => None,
        }
    }

    /// Puts an item in place of the one of its rank, and gives that one back. Where memory is
    /// refused nothing changes; it never is where an item of that rank is there.
    pub fn put(&mut self, item: T) -> Result<Option<T>, NoMemory>
        ensures old { IfOk result (λ old. old ≡ item_at T.rank_of (T.rank_of item) self.old) }
        ensures ok { OnOk result (self.new ≡ added T.rank_of item self.old) }
        ensures err { OnErr result (self.new ≡ self.old) }
        ensures known { item_at T.rank_of (T.rank_of item) self.old ≢ None → IsOk result }
        ensures ascend { AscendFrom T.rank_of 0 self.old }
    {
        let rank = item.rank();
        match self.tree.insert(rank, item) {
            Ok(old) => Ok(old),
            Err(_) => Err(NoMemory),
        }
    }

    /// Takes the item with a rank out.
    pub fn take(&mut self, rank: u128) -> Option<T>
        ensures item { result ≡ item_at T.rank_of rank self.old }
        ensures items { self.new ≡ without T.rank_of rank self.old }
        ensures ascend { AscendFrom T.rank_of 0 self.old }
    {
        self.tree.remove(&rank)
    }
}
