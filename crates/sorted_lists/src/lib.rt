//! Orders: lists that ascend by address (where an item stands, or would stand, by quarters), lists
//! of places, one order in a B-tree, and rows of bits.
#![tactic(auto)]

ghost use Rattle.std.specs.Prelude.{◌≡◌, ◌==◌, ◌<◌, ◌≤◌, nat_lt, nat_le, length, position, option_copied, unwrap_or};
ghost use Rattle.fab_base.specs.Keyed.{item_at, AscendFrom};
ghost use Rattle.sorted_lists.specs.Reach.{place_of};

mod enode;
mod orders;
mod quarters;
mod ranked;
mod row_tree;
mod rows;
mod trees;

pub use enode::{enode_number, mac_number};
use fab_base::{FcId, HasAddress};
pub use orders::{Order, order_find, order_from, order_next, order_put, order_take};
use quarters::reach;
pub use ranked::{
    HasRank, rank_above, rank_at, rank_find, rank_from, rank_next, rank_put, rank_take,
};
pub use row_tree::Tree;
pub use rows::{Row, clear_bit, empty_row, full_row, next_bit, put_bit, set_bit, share_a_place};
pub use trees::SortedTree;

/// The place of the first item whose address isn't below the bound, or past the end.
pub fn place_from<T: HasAddress>(items: &[T], from: u32) -> usize
    requires { AscendFrom T.address_of 0 items.now }
    ensures place { result ≡ unwrap_or (position (λ x. nat_le from (T.address_of x)) items.now)
        (length items.now) }
    ensures within { result ≤ length items.now }
{
    reach(
        items.len(),
        |at|
            requires { AscendFrom T.address_of 0 items.now × at < length items.now }
        { is_below(items, from, at) },
    )
}

// The item at a place is below the bound.
fn is_below<T: HasAddress>(items: &[T], from: u32, at: usize) -> bool
    requires ascend { AscendFrom T.address_of 0 items.now }
    requires inside { at < length items.now }
    ensures { result ≡ nat_lt at (place_of T.address_of from items.now) }
{
    items[at].address().value() < from
}

/// The place of the first item above the address, or past the end.
pub fn place_above<T: HasAddress>(items: &[T], address: FcId) -> usize
    requires { AscendFrom T.address_of 0 items.now }
    ensures place { result ≡ unwrap_or (position (λ x. nat_lt address (T.address_of x)) items.now)
        (length items.now) }
    ensures within { result ≤ length items.now }
{
    place_from(items, address.value() + 1)
}

/// The place of the item at an address.
pub fn place_at<T: HasAddress>(items: &[T], address: FcId) -> Option<usize>
    requires { AscendFrom T.address_of 0 items.now }
    ensures { result ≡ position (λ x. T.address_of x == address) items.now }
{
    let place = place_from(items, address.value());
    if place == items.len() {
        return None;
    }
    if items[place].address() != address {
        return None;
    }
    Some(place)
}

/// The item at an address.
pub fn find_at<T: HasAddress>(items: &[T], address: FcId) -> Option<&T>
    requires { AscendFrom T.address_of 0 items.now }
    ensures { option_copied result ≡ item_at T.address_of address items.now }
{
    match place_at(items, address) {
        Some(place) => Some(&items[place]),
        None => None,
    }
}
