//! State changes of a frame: of the logins that it ends, grants or changes.
ghost use Rattle.std.specs.Prelude.{◌≡◌, [], ◌∷◌, filter, option_to_list, ℕ, IfOk, IsSome, true};
ghost use Rattle.ct_messages.specs.Ask.{view};
ghost use Rattle.ct_messages.specs.Server as server;
ghost use Rattle.ct_messages.specs.Server.{is_registration};
ghost use Rattle.fab_base.specs.declared.values.Caught.{Caught as Captured};
ghost use Rattle.fab_policy.specs.State.{now_of, port_at};
ghost use Rattle.fab_policy.specs.Steps.{InPool};
ghost use Rattle.fab_policy.specs.declared.verdict.Verdict.TheVariants.{Granted};
ghost use Rattle.fab_sending.specs.Messages.{at_moment, changes};
ghost use Rattle.fab_sending.specs.Notices.{notices_of_frame, told_of_each};
ghost use Rattle.fab_sending.specs.Sends.{IsGrant};

use crate::noticing::{tell_of, tell_of_ends};
use crate::{Before, Grant, OutList};
use ct_messages::CtAsk;
use fab_base::{FcId, Moment, NoMemory};
use fab_roster::{LoginList, Roster};
use std::alloc::Global;

/// The clock, 0 before the first tick.
pub(crate) fn now(roster: &Roster) -> Moment
    ensures { result ≡ now_of roster.now.tables }
{
    match roster.clock() {
        Some(moment) => moment,
        None => Moment(0),
    }
}

/// The state changes of a login that gets an address: of the logins that it ends, and of itself.
pub(crate) fn grant_changes(
    alloc: Global,
    before: &Before<'_>,
    grant: &Grant<'_>,
) -> Result<OutList, NoMemory>
    requires { InPool before.now.config.now before.now.roster.now.tables.ports }
    ensures { IfOk result (λ outs. (port : ℕ) (caught : Captured)
        → IsGrant before.now.roster.now.tables port caught grant.now
        → outs ≡ at_moment (now_of before.now.roster.now.tables) (changes before.now.rscns
        (notices_of_frame before.now.config.now before.now.roster.now.tables port caught
        (Granted grant.now.address)))) }
{
    let moment = now(before.roster);
    let ended = grant.ended;
    let request = grant.request;
    let mut outs = OutList::empty(alloc);
    tell_of_ends(alloc, before, moment, ended, &mut outs)?;
    tell_of(
        alloc,
        before,
        moment,
        grant.address,
        request.name,
        ended,
        &mut outs,
    )?;
    Ok(outs)
}

/// The state changes of a logout.
pub(crate) fn logout_changes(
    alloc: Global,
    before: &Before<'_>,
    address: FcId,
) -> Result<OutList, NoMemory>
    requires { InPool before.now.config.now before.now.roster.now.tables.ports }
    ensures { IfOk result (λ outs. outs
        ≡ at_moment (now_of before.now.roster.now.tables) (changes before.now.rscns
        (told_of_each before.now.config.now before.now.roster.now.tables (address ∷ [])
        (option_to_list (port_at address before.now.roster.now.tables.ports))))) }
{
    let mut outs = OutList::empty(alloc);
    let Some(login) = before.roster.by_address(address) else {
        return Ok(outs);
    };
    let name = login.name;
    let moment = now(before.roster);
    let mut ended = LoginList::empty(alloc);
    ended.push(alloc, *login)?;
    tell_of(alloc, before, moment, address, name, &ended, &mut outs)?;
    Ok(outs)
}

/// The state changes of a registration of a live address.
pub(crate) fn registration_changes(
    alloc: Global,
    before: &Before<'_>,
    address: FcId,
    ask: &CtAsk<'_>,
) -> Result<OutList, NoMemory>
    requires pool { InPool before.now.config.now before.now.roster.now.tables.ports }
    requires live { IsSome (port_at address before.now.roster.now.tables.ports) }
    requires registers { is_registration (view ask.now) ≡ true }
    ensures { IfOk result (λ outs. outs
        ≡ at_moment (now_of before.now.roster.now.tables) (changes before.now.rscns
        (told_of_each before.now.config.now before.now.roster.now.tables []
        (filter (λ p. server.has_changed p.values (server.after p.node (view ask.now) p.values))
        (option_to_list (port_at address before.now.roster.now.tables.ports)))))) }
{
    let mut outs = OutList::empty(alloc);
    if !before.roster.is_noticed(address, ask) {
        return Ok(outs);
    }
    let name = before.roster.by_address(address).unwrap().name;
    let moment = now(before.roster);
    let nobody = LoginList::empty(alloc);
    tell_of(alloc, before, moment, address, name, &nobody, &mut outs)?;
    Ok(outs)
}
