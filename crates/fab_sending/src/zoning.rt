//! State changes of changes of zones, at a tick.
ghost use Rattle.std.specs.Prelude.{◌≡◌, map, flat_map, IfOk, OnOk};
ghost use Rattle.std.specs.List.{list_any};
ghost use Rattle.fab_policy.specs.State.{overdue};
ghost use Rattle.fab_policy.specs.Steps.{InPool};
ghost use Rattle.fab_roster.specs.Roll.{addresses_of, login_of};
ghost use Rattle.fab_sending.specs.Counting.{is_turned, with_changes};
ghost use Rattle.fab_sending.specs.Messages.{at_moment, changes};
ghost use Rattle.fab_sending.specs.Notices.{notices_of_tick, staying_at, told_of_change};

use crate::noticing::{tell_of_ends, tell_of_zones};
use crate::{Before, OutList};
use fab_base::{Moment, NoMemory};
use fab_config::Activation;
use fab_roster::LoginList;
use std::alloc::Global;

// Whether an activation has come at one moment and not at the other.
fn is_turned(activation: &Activation, since: Moment, moment: Moment) -> bool
    ensures { result ≡ is_turned since moment activation.now }
{
    if activation.moment.0 <= since.0 {
        activation.moment.0 > moment.0
    } else {
        activation.moment.0 <= moment.0
    }
}

// Whether one of them has, so that another zone set may be active.
fn has_turned(activations: &[Activation], since: Moment, moment: Moment) -> bool
    ensures { result ≡ list_any (is_turned since moment) activations.now }
{
    activations
        .iter()
        .any(|activation| is_turned(activation, since, moment))
}

// The watchers are notified of each live N_Port with which their joining changes between two
// moments, but for those that end.
fn tell_of_changes(
    alloc: Global,
    before: &Before<'_>,
    since: Moment,
    moment: Moment,
    ended: &LoginList,
    outs: &mut OutList,
) -> Result<(), NoMemory>
    requires { InPool before.now.config.now before.now.roster.now.tables.ports }
    ensures { OnOk result (outs.new ≡ with_changes moment before.now.rscns outs.old
        (flat_map (told_of_change before.now.config.now before.now.roster.now.tables since moment
        (addresses_of ended.now)) (staying_at before.now.config.now before.now.roster.now.tables
        moment))) }
{
    let config = before.config;
    if !has_turned(config.activations.items(), since, moment) {
        return Ok(());
    }
    let live = before.roster.staying(alloc, moment)?;
    tell_of_zones(alloc, before, since, moment, &live, ended, outs)?;
    Ok(())
}

/// The state changes of a tick that ends these logins.
pub(crate) fn tick_changes(
    alloc: Global,
    before: &Before<'_>,
    moment: Moment,
    ended: &LoginList,
) -> Result<OutList, NoMemory>
    requires pool { InPool before.now.config.now before.now.roster.now.tables.ports }
    requires ended { ended.now ≡ map login_of
        (overdue before.now.config.now before.now.roster.now.tables moment) }
    ensures { IfOk result (λ outs. outs ≡ at_moment moment (changes before.now.rscns
        (notices_of_tick before.now.config.now before.now.roster.now.tables moment))) }
{
    let mut outs = OutList::empty(alloc);
    tell_of_ends(alloc, before, moment, ended, &mut outs)?;
    match before.roster.clock() {
        None => Ok(outs),
        Some(since) => {
            tell_of_changes(alloc, before, since, moment, ended, &mut outs)?;
            Ok(outs)
        }
    }
}
