//! Whom a state change reaches.
ghost use Rattle.std.specs.Prelude.{◌≡◌, ◌==◌, not, IfOk, filter, map};
ghost use Rattle.std.specs.List.{list_any};
ghost use Rattle.fab_config.specs.Settings.{Settings};
ghost use Rattle.fab_policy.specs.State.{addresses};
ghost use Rattle.fab_roster.specs.Reaching.{is_reached, zones_of, told_at, told_between};
ghost use Rattle.fab_roster.specs.Roll.{addresses_of};
ghost use Rattle.state_change.specs.Watchers as watching;
ghost use Rattle.state_change.specs.Watchers.{first_from};
ghost use Rattle.zone_rules.specs.Joined.{contains};

use crate::{Login, LoginList, Roster};
use fab_base::{FcId, IdList, Moment, NoMemory, Wwn};
use state_change::Watchers;
use std::alloc::Global;
use zone_rules::Zones;

// Which watchers a change reaches on account of a name.
#[derive(Clone, Copy, Debug)]
pub(crate) enum Reach {
    // Those that are joined with it at a moment.
    Joined(Moment),
    // Those whose joining with it is another at one moment than at the other.
    Changed(Moment, Moment),
}

impl Roster {
    /// The watchers that are joined with a name at the clock, by ascending address, but for these
    /// logins.
    pub fn recipients(
        &self,
        alloc: Global,
        zones: &Zones,
        name: Wwn,
        but: &LoginList,
    ) -> Result<IdList, NoMemory>
        ensures { IfOk result (λ ids. (c : Settings) → zones.now ≡ zones_of c
            → ids ≡ addresses (told_at c self.now.tables name (addresses_of but.now))) }
    {
        reached(
            alloc,
            &self.watchers,
            zones,
            &Reach::Joined(self.now()),
            name,
            but,
        )
    }

    /// The watchers whose joining with a name is another at one moment than at the other, by
    /// ascending address, but for these logins.
    pub fn recipients_between(
        &self,
        alloc: Global,
        zones: &Zones,
        before: Moment,
        at: Moment,
        name: Wwn,
        but: &LoginList,
    ) -> Result<IdList, NoMemory>
        ensures { IfOk result (λ ids. (c : Settings) → zones.now ≡ zones_of c
            → ids ≡ addresses
            (told_between c self.now.tables before at name (addresses_of but.now))) }
    {
        reached(
            alloc,
            &self.watchers,
            zones,
            &Reach::Changed(before, at),
            name,
            but,
        )
    }
}

// The watchers that a change reaches on account of a name, by ascending address, but for these
// logins.
fn reached(
    alloc: Global,
    watchers: &Watchers,
    zones: &Zones,
    reach: &Reach,
    name: Wwn,
    but: &LoginList,
) -> Result<IdList, NoMemory>
    ensures { IfOk result (λ ids. ids ≡ map watching.address_of
        (filter (λ w. not (contains w.address (addresses_of but.now)))
        (filter (is_reached zones.now name reach.now) watchers.now.watchers))) }
{
    let mut ids = IdList::empty(alloc);
    let mut from = 0;
    while let Some(address) = next_reached(watchers, zones, reach, name, from) {
        if !hold(but.items(), address) {
            ids.push(alloc, address)?;
        }
        from = address.value() + 1;
    }
    Ok(ids)
}

// The least of them that isn't below `from`.
fn next_reached(
    watchers: &Watchers,
    zones: &Zones,
    reach: &Reach,
    name: Wwn,
    from: u32,
) -> Option<FcId>
    ensures first { result ≡ first_from from
        (filter (is_reached zones.now name reach.now) watchers.now.watchers) }
    ensures sound { watching.IsSound watchers.now }
{
    match reach {
        Reach::Joined(at) => watchers.next_recipient(zones, *at, name, from),
        Reach::Changed(before, at) => watchers.next_changed(zones, *before, *at, name, from),
    }
}

// Whether one of these logins has the address.
fn hold(logins: &[Login], address: FcId) -> bool
    ensures { result ≡ list_any (λ l. l.address == address) logins.now }
{
    logins
        .iter()
        .any(|login| login.address.value() == address.value())
}
