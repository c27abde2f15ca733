//! What a verdict does to the tables.
#![tactic(auto, using(crate::proofs::CarryLemmas::changed))]

ghost use Rattle.std.specs.Prelude.{◌≡◌, ◌<◌, ◌==◌, length, IsSome, IsTrue, false};
ghost use Rattle.std.specs.List.{list_any};
ghost use Rattle.fab_judge.specs.Judged.{ended_by};
ghost use Rattle.fab_judge.specs.declared.judging.Judged.TheVariants as judged;
ghost use Rattle.fab_policy.specs.Classes.{of_replied, of_settled};
ghost use Rattle.fab_policy.specs.Free.{is_free};
ghost use Rattle.fab_policy.specs.declared.verdict.Verdict.TheVariants.{Granted, Registered};
ghost use Rattle.fab_roster.specs.Changes.{IsSoundRoll};
ghost use Rattle.forward_core.specs.Carrying.{Asks, CarriesOut, WasJudged, left_to};

use crate::arrived::Arrived;
use ct_messages::CtAsk;
use fab_base::{FcId, Wwn};
use fab_policy::{Asker, Replied, Settled, tables_change};
use fab_roster::{Login, LoginList, Request, Roster};

/// Carries out a settled verdict.
pub(crate) fn carry_out(roster: &mut Roster, arrived: &Arrived<'_>, verdict: Settled)
    requires sound { IsSoundRoll roster.old }
    requires judged { WasJudged roster.old.tables arrived.now (judged.Must verdict)
        (of_settled verdict) }
    ensures { CarriesOut arrived.now (of_settled verdict) roster.old roster.new }
{
    // Law: tables that change as a verdict says are the tables after its entry.
    tables_change();
    match verdict {
        Settled::AliveNode(enode) => roster.hear_node(&enode),
        Settled::AlivePort(address) => roster.hear_port(address),
        Settled::Vlans { .. }
        | Settled::Advertised { .. }
        | Settled::Noted
        | Settled::Forwarded { .. }
        | Settled::Dropped(_) => {}
    }
}

/// Carries out a verdict that is replied to the sender of the frame.
pub(crate) fn carry_out_reply(
    roster: &mut Roster,
    arrived: &Arrived<'_>,
    verdict: Replied,
    to: Asker,
)
    requires sound { IsSoundRoll roster.old }
    requires judged { WasJudged roster.old.tables arrived.now (judged.Replied verdict to)
        (of_replied verdict) }
    ensures { CarriesOut arrived.now (of_replied verdict) roster.old roster.new }
{
    // Law: tables that change as a verdict says are the tables after its entry.
    tables_change();
    match verdict {
        Replied::Logout { address, .. } => roster.end(address),
        Replied::NsLogin(size) => roster.set_server(to.s_id, Some(size)),
        Replied::NsLogout => roster.set_server(to.s_id, None),
        Replied::Watching(function) => roster.watch(to.s_id, function),
        Replied::Rejected { .. } | Replied::Refused(..) => {}
    }
}

/// A live N_Port registers what its frame asks for.
pub(crate) fn register(roster: &mut Roster, arrived: &Arrived<'_>, to: Asker, ask: &CtAsk<'_>)
    requires sound { IsSoundRoll roster.old }
    requires judged { WasJudged roster.old.tables arrived.now (judged.Registers to ask.now)
        Registered }
    ensures { CarriesOut arrived.now Registered roster.old roster.new }
{
    // Law: tables that change as a verdict says are the tables after its entry.
    tables_change();
    roster.register(to.s_id, ask);
}

/// A login request is granted an address that is free for it. The logins that it ends are these.
pub(crate) fn grant(
    roster: &mut Roster,
    arrived: &Arrived<'_>,
    request: &Request,
    node: Wwn,
    address: FcId,
    ended: &LoginList,
)
    requires clock { IsSome roster.old.tables.clock }
    requires sound { IsSoundRoll roster.old }
    requires asks { Asks arrived.now request.now node }
    requires free { IsTrue (is_free roster.old.tables request.now address) }
    requires name { list_any (λ q. q.name == request.now.name)
        (left_to request.now roster.old.tables) ≡ false }
    requires room { length (left_to request.now roster.old.tables) < roster.old.limit }
    requires ended { ended.now ≡ ended_by request.now roster.old.tables }
    ensures { CarriesOut arrived.now (Granted address) roster.old roster.new }
{
    // Law: tables that change as a grant says are the tables after its entry.
    tables_change();
    roster.end_all(ended);
    roster.grant(Login {
        address,
        name: request.name,
        node,
        enode: request.enode,
        server_size: None,
    });
}
