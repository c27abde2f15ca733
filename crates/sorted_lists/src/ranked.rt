//! Lists that ascend by a number of their items, where it isn't an address.
ghost use Rattle.std.specs.Prelude.{◌≡◌, ◌==◌, ◌+◌, ◌<◌, ◌^◌, ◌≤◌, nat_lt, nat_le, length, position, unwrap_or, option_copied, None, vec_capacity, find};
ghost use Rattle.fab_base.specs.Keyed.{AscendFrom, item_at, added, without};
ghost use Rattle.sorted_lists.specs.Reach.{place_of};

use crate::quarters::reach;

/// What has a number by which it is sorted.
pub trait HasRank {
    ghost use Rattle.std.specs.Prelude.{◌≡◌, ℕ};

    /// That number.
    ghost rank_of: { Self → ℕ };

    fn rank(&self) -> u128
        ensures { result ≡ rank_of self.now };
}

/// The place of the first item whose rank isn't below the bound, or past the end.
pub fn rank_from<T: HasRank>(items: &[T], from: u128) -> usize
    requires { AscendFrom T.rank_of 0 items.now }
    ensures place { result ≡ unwrap_or (position (λ x. nat_le from (T.rank_of x)) items.now)
        (length items.now) }
    ensures within { result ≤ length items.now }
{
    reach(
        items.len(),
        |at|
            requires { AscendFrom T.rank_of 0 items.now × at < length items.now }
        { is_below(items, from, at) },
    )
}

// The item at a place is below the bound.
fn is_below<T: HasRank>(items: &[T], from: u128, at: usize) -> bool
    requires ascend { AscendFrom T.rank_of 0 items.now }
    requires inside { at < length items.now }
    ensures { result ≡ nat_lt at (place_of T.rank_of from items.now) }
{
    items[at].rank() < from
}

/// The place of the first item above the rank, or past the end.
pub fn rank_above<T: HasRank>(items: &[T], rank: u128) -> usize
    requires ascend { AscendFrom T.rank_of 0 items.now }
    requires range { rank + 1 < 2 ^ 128 }
    ensures place { result ≡ unwrap_or (position (λ x. nat_lt rank (T.rank_of x)) items.now)
        (length items.now) }
    ensures within { result ≤ length items.now }
{
    rank_from(items, rank + 1)
}

/// The place of the item with a rank.
pub fn rank_at<T: HasRank>(items: &[T], rank: u128) -> Option<usize>
    requires { AscendFrom T.rank_of 0 items.now }
    ensures { result ≡ position (λ x. T.rank_of x == rank) items.now }
{
    let place = rank_from(items, rank);
    if place == items.len() {
        return None;
    }
    if items[place].rank() != rank {
        return None;
    }
    Some(place)
}

/// The item with a rank.
pub fn rank_find<T: HasRank>(items: &[T], rank: u128) -> Option<&T>
    requires { AscendFrom T.rank_of 0 items.now }
    ensures { option_copied result ≡ item_at T.rank_of rank items.now }
{
    match rank_at(items, rank) {
        Some(place) => Some(&items[place]),
        None => None,
    }
}

/// Puts an item in its place. Its rank is new, and there is room for it.
pub fn rank_put<T: HasRank + Drop>(items: &mut Vec<T>, item: T)
    requires ascend { AscendFrom T.rank_of 0 items.old.items }
    requires absent { item_at T.rank_of (T.rank_of item) items.old.items ≡ None }
    requires range { T.rank_of item + 1 < 2 ^ 128 }
    requires room { length items.old.items < vec_capacity items.old }
    ensures items { items.new.items ≡ added T.rank_of item items.old.items }
    ensures capacity { vec_capacity items.new ≡ vec_capacity items.old }
{
    let place = rank_above(items, item.rank());
    let Ok(()) = items.insert(place, item) else {
        unreachable!()
    };
}

/// Takes the item with a rank out, and keeps its room.
pub fn rank_take<T: HasRank>(items: &mut Vec<T>, rank: u128) -> Option<T>
    requires { AscendFrom T.rank_of 0 items.old.items }
    ensures item { result ≡ item_at T.rank_of rank items.old.items }
    ensures items { items.new.items ≡ without T.rank_of rank items.old.items }
    ensures capacity { vec_capacity items.new ≡ vec_capacity items.old }
{
    match rank_at(items, rank) {
        Some(place) => Some(items.remove(place)),
        None => None,
    }
}

/// The first item whose rank isn't below the bound.
pub fn rank_next<T: HasRank>(items: &[T], from: u128) -> Option<&T>
    requires { AscendFrom T.rank_of 0 items.now }
    ensures { option_copied result ≡ find (λ x. nat_le from (T.rank_of x)) items.now }
{
    let place = rank_from(items, from);
    if place < items.len() {
        Some(&items[place])
    } else {
        None
    }
}
