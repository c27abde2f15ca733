//! What a tick sends.
ghost use Rattle.std.specs.Prelude.{◌≡◌, ◌<◌, List, IfOk, map};
ghost use Rattle.fab_policy.specs.State.{overdue};
ghost use Rattle.fab_policy.specs.declared.event.Event.{Event as Entry};
ghost use Rattle.fab_policy.specs.declared.event.Event.TheVariants.{Tick};
ghost use Rattle.fab_roster.specs.Roll.{addresses_of, login_of};
ghost use Rattle.fab_sending.specs.Sends.{AreSent, state_before};

use crate::adverts::advertise;
use crate::clears::clears;
use crate::laws::{ticks_send, ticks_tell};
use crate::noticing::rscns_after;
use crate::zoning::tick_changes;
use crate::{Before, Sends};
use fab_base::{Moment, NoMemory};
use fab_roster::LoginList;
use std::alloc::Global;

/// What a tick sends that ends these logins: clear link messages, state changes and, where they are
/// owed, advertisements.
pub fn tick_sends(
    alloc: Global,
    before: &Before<'_>,
    moment: Moment,
    ended: &LoginList,
) -> Result<Sends, NoMemory>
    requires { ended.now ≡ map login_of
        (overdue before.now.config.now before.now.roster.now.tables moment) }
    ensures sent { IfOk result (λ s. (events : List Entry)
        → AreSent before.now.config.now before.now.ports (state_before before.now)
        (Tick moment (addresses_of ended.now)) events s) }
    ensures few { IfOk result (λ s. s.rscns < 65535) }
{
    // Law: the messages of a tick are what it sends, and its state changes follow from the tables
    // before it; the clause sent counts in messages.
    ticks_send();
    ticks_tell();
    // For the proof: the roster is sound, so its N_Ports ascend by their addresses.
    let _ = before.roster.len();
    let mut outs = clears(alloc, before.config, moment, ended)?;
    let changes = tick_changes(alloc, before, moment, ended)?;
    let rscns = rscns_after(before.rscns, changes.len());
    outs.append(alloc, changes)?;
    let advertised = advertise(
        alloc,
        before.config,
        before.ports,
        before.advertised,
        moment,
    )?;
    outs.append(alloc, advertised)?;
    Ok(Sends { outs, rscns })
}
