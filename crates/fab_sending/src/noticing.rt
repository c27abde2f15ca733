//! State changes (FC-LS-2, "RSCN"), each numbered after the one before it.
ghost use Rattle.std.specs.Prelude.{◌≡◌, ℕ, ◌+◌, ◌%◌, ◌<◌, List, length, map, IsSome, OnOk};
ghost use Rattle.std.specs.List.{All};
ghost use Rattle.fab_policy.specs.State.{port_at};
ghost use Rattle.fab_policy.specs.Steps.{InPool};
ghost use Rattle.fab_roster.specs.Roll.{addresses_of};
ghost use Rattle.fab_sending.specs.Counting.{told_at_address, told_of_logins};
ghost use Rattle.fab_sending.specs.Counting.{told_of_login_changes, with_changes};
ghost use Rattle.fab_sending.specs.Notices.{told_of_name};

use crate::{Before, Out, OutList, OutMessage};
use fab_base::{FcId, IdList, Moment, NoMemory, Wwn};
use fab_roster::LoginList;
use std::alloc::Global;

// The state changes of one exchange identifier and the next differ: they are counted modulo 65535.
const IDS: u32 = 65535;

/// How many state changes were sent, modulo 65535, when this many follow a number of them.
pub(crate) fn rscns_after(first: u32, more: usize) -> u32
    requires { first < 65535 }
    ensures count { result ≡ (first + more) % 65535 }
    ensures range { result < 65535 }
{
    (first + (more % IDS as usize) as u32) % IDS
}

// Each of these watchers is notified of an address.
fn tell(
    alloc: Global,
    before: &Before<'_>,
    moment: Moment,
    watchers: &IdList,
    affected: FcId,
    outs: &mut OutList,
) -> Result<(), NoMemory>
    requires { All (λ a. IsSome (port_at a before.now.roster.now.tables.ports)) watchers.now }
    ensures { OnOk result (outs.new ≡ with_changes moment before.now.rscns outs.old
        (map (told_at_address before.now.roster.now.tables.ports affected) watchers.now)) }
{
    for index in 0..watchers.len() {
        let watcher = *watchers.at(index).unwrap();
        let login = before.roster.by_address(watcher).unwrap();
        let message = OutMessage::Rscn {
            watcher,
            affected,
            ox_id: rscns_after(before.rscns, outs.len()) as u16,
        };
        let out = Out {
            port: login.enode.port,
            moment,
            message,
        };
        outs.push(alloc, out)?;
    }
    Ok(())
}

/// The watchers that are joined with a name are notified of an address, but for these logins.
pub(crate) fn tell_of(
    alloc: Global,
    before: &Before<'_>,
    moment: Moment,
    affected: FcId,
    name: Wwn,
    but: &LoginList,
    outs: &mut OutList,
) -> Result<(), NoMemory>
    requires { InPool before.now.config.now before.now.roster.now.tables.ports }
    ensures { OnOk result (outs.new ≡ with_changes moment before.now.rscns outs.old
        (told_of_name before.now.config.now before.now.roster.now.tables (addresses_of but.now)
        affected name)) }
{
    let watchers = before.roster.recipients(alloc, before.zones, name, but)?;
    tell(alloc, before, moment, &watchers, affected, outs)?;
    Ok(())
}

/// The watchers are notified of each of these logins, which end, but for those that end.
pub(crate) fn tell_of_ends(
    alloc: Global,
    before: &Before<'_>,
    moment: Moment,
    ended: &LoginList,
    outs: &mut OutList,
) -> Result<(), NoMemory>
    requires { InPool before.now.config.now before.now.roster.now.tables.ports }
    ensures { OnOk result (outs.new ≡ with_changes moment before.now.rscns outs.old
        (told_of_logins before.now.config.now before.now.roster.now.tables
        (addresses_of ended.now) ended.now)) }
{
    for login in ended.items() {
        tell_of(
            alloc,
            before,
            moment,
            login.address,
            login.name,
            ended,
            outs,
        )?;
    }
    Ok(())
}

/// The watchers whose joining with one of these logins changes between two moments are notified
/// of it, but for those that end.
pub(crate) fn tell_of_zones(
    alloc: Global,
    before: &Before<'_>,
    since: Moment,
    moment: Moment,
    live: &LoginList,
    ended: &LoginList,
    outs: &mut OutList,
) -> Result<(), NoMemory>
    requires { InPool before.now.config.now before.now.roster.now.tables.ports }
    ensures { OnOk result (outs.new ≡ with_changes moment before.now.rscns outs.old
        (told_of_login_changes before.now.config.now before.now.roster.now.tables since moment
        (addresses_of ended.now) live.now)) }
{
    for login in live.items() {
        let watchers = before
            .roster
            .recipients_between(alloc, before.zones, since, moment, login.name, ended)?;
        tell(alloc, before, moment, &watchers, login.address, outs)?;
    }
    Ok(())
}
