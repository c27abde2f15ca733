//! The place of a watcher, and the next one that a change reaches.
ghost use Rattle.std.specs.Prelude.{◌≡◌, ◌&&◌, nat_le, find, option_map, None, IfSome, IfNone, IsSome};
ghost use Rattle.slab.specs.Slab.{get};
ghost use Rattle.sorted_lists.specs.Orders.{seen, AreSorted};
ghost use Rattle.state_change.specs.Watchers as spec;

use crate::Watcher;
use crate::watcher::{ByAddress, is_changed, is_recipient};
use fab_base::{FcId, Moment, Wwn};
use slab::Slab;
use sorted_lists::{order_find, order_from};
use zone_rules::Zones;

// The place of the watcher of an address.
pub(crate) fn place_of(watchers: &Slab<Watcher>, places: &[usize], address: FcId) -> Option<usize>
    requires { AreSorted spec.address_of watchers.now places.now }
    ensures some { IfSome result (λ place. get watchers.now place
        ≡ spec.watcher_at address (seen watchers.now places.now)) }
    ensures there { IfSome result (λ place. IsSome (get watchers.now place)) }
    ensures none { IfNone result (spec.watcher_at address (seen watchers.now places.now) ≡ None) }
{
    order_find(&ByAddress, watchers, places, address.value() as u128)
}

// The first watcher from the bound on that a change of the affected name reaches.
pub(crate) fn next_recipient(
    watchers: &Slab<Watcher>,
    places: &[usize],
    zones: &Zones,
    at: Moment,
    affected: Wwn,
    from: u32,
) -> Option<FcId>
    requires { AreSorted spec.address_of watchers.now places.now }
    ensures { result ≡ option_map (λ w. w.address)
        (find (λ w. nat_le from w.address
        && spec.is_recipient zones.now at affected w) (seen watchers.now places.now)) }
{
    let behind = &places[order_from(&ByAddress, watchers, places, from as u128)..];
    first_recipient(watchers, behind, zones, at, affected)
}

fn first_recipient(
    watchers: &Slab<Watcher>,
    places: &[usize],
    zones: &Zones,
    at: Moment,
    affected: Wwn,
) -> Option<FcId>
    ensures { result ≡ option_map (λ w. w.address)
        (find (λ w. spec.is_recipient zones.now at affected w) (seen watchers.now places.now)) }
{
    for place in places {
        if let Some(watcher) = watchers.get(*place) {
            if is_recipient(watcher, zones, at, affected) {
                return Some(watcher.address);
            }
        }
    }
    None
}

// The first watcher from the bound on that a change of zones reaches on account of the affected
// name.
pub(crate) fn next_changed(
    watchers: &Slab<Watcher>,
    places: &[usize],
    zones: &Zones,
    before: Moment,
    at: Moment,
    affected: Wwn,
    from: u32,
) -> Option<FcId>
    requires { AreSorted spec.address_of watchers.now places.now }
    ensures { result ≡ option_map (λ w. w.address)
        (find (λ w. nat_le from w.address
        && spec.is_changed zones.now before at affected w) (seen watchers.now places.now)) }
{
    let behind = &places[order_from(&ByAddress, watchers, places, from as u128)..];
    first_changed(watchers, behind, zones, before, at, affected)
}

fn first_changed(
    watchers: &Slab<Watcher>,
    places: &[usize],
    zones: &Zones,
    before: Moment,
    at: Moment,
    affected: Wwn,
) -> Option<FcId>
    ensures { result ≡ option_map (λ w. w.address)
        (find (λ w. spec.is_changed zones.now before at affected w)
        (seen watchers.now places.now)) }
{
    for place in places {
        if let Some(watcher) = watchers.get(*place) {
            if is_changed(watcher, zones, before, at, affected) {
                return Some(watcher.address);
            }
        }
    }
    None
}
