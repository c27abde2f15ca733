//! One watcher, and what reaches it.
ghost use Rattle.std.specs.Prelude.{◌≡◌};
ghost use Rattle.state_change.specs.Watchers as spec;

use els_messages::scr::{FABRIC_DETECTED, FULL};
use fab_base::{FcId, Moment, Wwn};
use sorted_lists::Order;
use zone_rules::Zones;

/// An N_Port that asked for state changes: its N_Port_ID and N_Port_Name, and the function that it
/// asked with, 1 to 3.
#[derive(Clone, Copy, Debug, PartialEq, Eq)]
pub struct Watcher {
    pub address: FcId,
    pub name: Wwn,
    pub function: u8,
}

/// The order of watchers by address.
pub(crate) struct ByAddress;

impl Order<Watcher> for ByAddress {
    ghost number_of = { λ order w. w.address };

    fn number(&self, watcher: &Watcher) -> u128 {
        watcher.address.value() as u128
    }
}

// Whether the fabric notifies it of changes.
fn is_told(watcher: &Watcher) -> bool
    ensures { result ≡ spec.is_told watcher.now }
{
    watcher.function == FABRIC_DETECTED || watcher.function == FULL
}

/// Whether a change of the affected name reaches it.
pub(crate) fn is_recipient(watcher: &Watcher, zones: &Zones, at: Moment, affected: Wwn) -> bool
    ensures { result ≡ spec.is_recipient zones.now at affected watcher.now }
{
    is_told(watcher) && zones.joined(at, watcher.name, affected)
}

/// Whether a change of zones between two moments reaches it on account of the affected name.
pub(crate) fn is_changed(
    watcher: &Watcher,
    zones: &Zones,
    before: Moment,
    at: Moment,
    affected: Wwn,
) -> bool
    ensures { result ≡ spec.is_changed zones.now before at affected watcher.now }
{
    is_told(watcher)
        && zones.joined(before, watcher.name, affected) != zones.joined(at, watcher.name, affected)
}
