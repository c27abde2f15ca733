//! Lists of places of a slab, in the order of a number of the records there.
ghost use Rattle.std.specs.Prelude.{◌≡◌, ◌==◌, ◌+◌, ◌<◌, ◌^◌, ◌≤◌, nat_le, nat_lt, length, position, unwrap_or, option_copied, None, Some, IfSome, IfNone, IsSome, IsTrue, true, vec_capacity, find};
ghost use Rattle.fab_base.specs.Keyed.{item_at, added, without};
ghost use Rattle.slab.specs.Slab.{get};
ghost use Rattle.sorted_lists.specs.Reach.{place_of};
ghost use Rattle.sorted_lists.specs.Orders.{seen, is_among, AreSorted, IsOrder, IsOrderBut};

use crate::quarters::reach;
use slab::Slab;

/// An order of records: the number by which they ascend.
pub trait Order<T> {
    ghost use Rattle.std.specs.Prelude.{◌≡◌, ℕ};

    /// That number.
    ghost number_of: { Self → T → ℕ };

    fn number(&self, item: &T) -> u128
        ensures { result ≡ number_of self.now item.now };
}

/// How many of the places have a record whose number is below the bound.
pub fn order_from<T, O: Order<T>>(
    order: &O,
    records: &Slab<T>,
    places: &[usize],
    from: u128,
) -> usize
    requires { AreSorted (O.number_of order.now) records.now places.now }
    ensures place { result
        ≡ unwrap_or (position (λ x. nat_le from (O.number_of order.now x))
        (seen records.now places.now)) (length places.now) }
    ensures within { result ≤ length places.now }
{
    let near = place_near(order, records, places, from);
    if is_behind(order, records, places, from, near)
        && is_before(order, records, places, from, near)
    {
        return near;
    }
    reach(
        places.len(),
        |at|
            requires { AreSorted (O.number_of order.now) records.now places.now
                × at < length places.now }
        { is_below(order, records, places, from, at) },
    )
}

// Where the bound is if the numbers follow one another without a gap, as granted addresses mostly
// do.
fn place_near<T, O: Order<T>>(order: &O, records: &Slab<T>, places: &[usize], from: u128) -> usize
    requires { AreSorted (O.number_of order.now) records.now places.now }
    ensures { result ≤ length places.now }
{
    if places.is_empty() {
        return 0;
    }
    let ahead = from.saturating_sub(order.number(&records[places[0]]));
    if ahead < places.len() as u128 {
        ahead as usize
    } else {
        places.len()
    }
}

// Whether no record from a place of the list on is below the bound.
fn is_behind<T, O: Order<T>>(
    order: &O,
    records: &Slab<T>,
    places: &[usize],
    from: u128,
    at: usize,
) -> bool
    requires sorted { AreSorted (O.number_of order.now) records.now places.now }
    requires within { at ≤ length places.now }
    ensures { result ≡ true
        → place_of (O.number_of order.now) from (seen records.now places.now) ≤ at }
{
    if at == places.len() {
        return true;
    }
    !is_below(order, records, places, from, at)
}

// Whether each record before a place of the list is below the bound.
fn is_before<T, O: Order<T>>(
    order: &O,
    records: &Slab<T>,
    places: &[usize],
    from: u128,
    at: usize,
) -> bool
    requires sorted { AreSorted (O.number_of order.now) records.now places.now }
    requires within { at ≤ length places.now }
    ensures { result ≡ true
        → at ≤ place_of (O.number_of order.now) from (seen records.now places.now) }
{
    if at == 0 {
        return true;
    }
    is_below(order, records, places, from, at - 1)
}

// The record at a place of the list is below the bound.
fn is_below<T, O: Order<T>>(
    order: &O,
    records: &Slab<T>,
    places: &[usize],
    from: u128,
    at: usize,
) -> bool
    requires sorted { AreSorted (O.number_of order.now) records.now places.now }
    requires inside { at < length places.now }
    ensures { result
        ≡ nat_lt at (place_of (O.number_of order.now) from (seen records.now places.now)) }
{
    order.number(&records[places[at]]) < from
}

/// The first record whose number isn't below the bound.
pub fn order_next<'a, T, O: Order<T>>(
    order: &O,
    records: &'a Slab<T>,
    places: &[usize],
    from: u128,
) -> Option<&'a T>
    requires { AreSorted (O.number_of order.now) records.now places.now }
    ensures { option_copied result
        ≡ find (λ x. nat_le from (O.number_of order.now x)) (seen records.now places.now) }
{
    let start = order_from(order, records, places, from);
    if start < places.len() {
        Some(&records[places[start]])
    } else {
        None
    }
}

/// The place of the record that has a number.
pub fn order_find<T, O: Order<T>>(
    order: &O,
    records: &Slab<T>,
    places: &[usize],
    number: u128,
) -> Option<usize>
    requires { AreSorted (O.number_of order.now) records.now places.now }
    ensures some { IfSome result (λ place. get records.now place
        ≡ item_at (O.number_of order.now) number (seen records.now places.now)) }
    ensures there { IfSome result (λ place. IsSome (get records.now place)) }
    ensures among { IfSome result (λ place. IsTrue (is_among place places.now)) }
    ensures none { IfNone result (item_at (O.number_of order.now) number
        (seen records.now places.now) ≡ None) }
{
    let start = order_from(order, records, places, number);
    if start == places.len() {
        return None;
    }
    let place = places[start];
    if order.number(&records[place]) != number {
        return None;
    }
    Some(place)
}

/// Puts the place of a record in. Its number is new, and there is room for it.
pub fn order_put<T, O: Order<T>>(
    order: &O,
    records: &Slab<T>,
    places: &mut Vec<usize>,
    place: usize,
)
    requires but { IsOrderBut (O.number_of order.now) place records.now places.old.items }
    requires absent { (x : T) → get records.now place ≡ Some x
        → item_at (O.number_of order.now) (O.number_of order.now x)
        (seen records.now places.old.items) ≡ None }
    requires room { length places.old.items < vec_capacity places.old }
    ensures order { IsOrder (O.number_of order.now) records.now places.new.items }
    ensures items { (x : T) → get records.now place ≡ Some x → seen records.now places.new.items
        ≡ added (O.number_of order.now) x (seen records.now places.old.items) }
    ensures capacity { vec_capacity places.new ≡ vec_capacity places.old }
{
    let start = order_from(order, records, places, order.number(&records[place]));
    let Ok(()) = places.insert(start, place) else {
        unreachable!()
    };
}

/// Takes the place of a record out, and keeps its room.
pub fn order_take<T, O: Order<T>>(
    order: &O,
    records: &Slab<T>,
    places: &mut Vec<usize>,
    place: usize,
)
    requires order { IsOrder (O.number_of order.now) records.now places.old.items }
    requires there { IsSome (get records.now place) }
    ensures but { IsOrderBut (O.number_of order.now) place records.now places.new.items }
    ensures items { (x : T) → get records.now place ≡ Some x → seen records.now places.new.items
        ≡ without (O.number_of order.now) (O.number_of order.now x)
        (seen records.now places.old.items) }
    ensures capacity { vec_capacity places.new ≡ vec_capacity places.old }
{
    let start = order_from(order, records, places, order.number(&records[place]));
    places.remove(start);
}
