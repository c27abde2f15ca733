//! Requests to the name server (FC-GS-6, "Name Server").
ghost use Rattle.std.specs.Prelude.{◌≡◌, false, Some, None, Ok};
ghost use Rattle.std.specs.Prelude.{IfOk, IfSome, IsSome, option_map};
ghost use Rattle.ct_messages.specs.Ask.{view};
ghost use Rattle.ct_messages.specs.Ct as ct;
ghost use Rattle.ct_messages.specs.Server as server;
ghost use Rattle.fab_config.specs.Settings.{Settings};
ghost use Rattle.fab_judge.specs.Judged.{IsAskJudged};
ghost use Rattle.fab_judge.specs.Told.{told_as, unless_refusal};
ghost use Rattle.fab_policy.specs.Queries.{fault_refusal};
ghost use Rattle.fab_policy.specs.State.{LivePort, port_at};
ghost use Rattle.fab_policy.specs.Verdicts as verdicts;
ghost use Rattle.fab_policy.specs.declared.verdict.Verdict.TheVariants.{Registered};
ghost use Rattle.fab_roster.specs.Reaching.{zones_of};
ghost use Rattle.fab_roster.specs.Roll.{login_of};
ghost use Rattle.fc_frames.specs.Frame.{view as fc_view};

use crate::Judged;
use ct_messages::reject::{
    ACCESS_DENIED, COMMAND_NOT_SUPPORTED, INVALID_SIZE, NO_EXPLANATION, UNABLE_TO_PERFORM,
};
use ct_messages::{CtAsk, CtFault, CtTell, a_query_is_no_reject, read_ask};
use fab_base::NoMemory;
use fab_config::Config;
use fab_policy::{Asker, Replied};
use fab_roster::{Login, RegFault, Roster};
use fc_frames::FcFrame;
use std::alloc::Global;
use zone_rules::Zones;

/// The judgement of a request of a live N_Port.
pub(crate) fn judge_ask<'a>(
    alloc: Global,
    config: &Config,
    zones: &Zones,
    roster: &Roster,
    login: &Login,
    frame: &FcFrame<'a>,
    to: Asker,
) -> Result<Judged<'a>, NoMemory>
    requires zones { zones.now ≡ zones_of config.now }
    requires live { option_map login_of (port_at frame.now.head.s_id roster.now.tables.ports)
        ≡ Some login.now }
    ensures { IfOk result (IsAskJudged config.now roster.now.tables (fc_view frame.now) to
        (λ p. verdicts.ct_judged config.now roster.now.tables p frame.now.payload.now)) }
{
    let Some(size) = login.server_size else {
        return Ok(refused(to, UNABLE_TO_PERFORM, ACCESS_DENIED));
    };
    match read_ask(frame.payload) {
        Ok(ask) => {
            if !ask.is_registration() {
                let judged = judge_query(alloc, config, zones, roster, frame, &ask, to, size)?;
                return Ok(judged);
            }
            match judge_refusal(roster, frame, &ask, to) {
                Some(refused) => Ok(refused),
                None => Ok(Judged::Registers { to, ask }),
            }
        }
        Err(fault) => Ok(refused_for(to, fault)),
    }
}

// The judgement of a query that was read, of an N_Port with this receive size.
fn judge_query(
    alloc: Global,
    config: &Config,
    zones: &Zones,
    roster: &Roster,
    frame: &FcFrame<'_>,
    ask: &CtAsk<'_>,
    to: Asker,
    size: u16,
) -> Result<Judged<'static>, NoMemory>
    requires zones { zones.now ≡ zones_of config.now }
    requires live { IsSome (port_at frame.now.head.s_id roster.now.tables.ports) }
    requires server { (p : LivePort)
        → port_at frame.now.head.s_id roster.now.tables.ports ≡ Some p → p.server ≡ Some size }
    requires read { ct.decoded frame.now.payload.now ≡ Ok (view ask.now) }
    requires query { server.is_registration (view ask.now) ≡ false }
    ensures { IfOk result (IsAskJudged config.now roster.now.tables (fc_view frame.now) to
        (λ p. verdicts.ct_judged config.now roster.now.tables p frame.now.payload.now)) }
{
    // Law: the answer to a query is never a reject, so none stands behind a judged Answered.
    a_query_is_no_reject();
    match roster.answer(alloc, config, zones, frame.head.s_id, ask) {
        Ok(tell) => Ok(answered(to, tell, size)),
        Err(NoMemory) => Err(NoMemory),
    }
}

// The judgement of a registration that is refused, none of any other.
fn judge_refusal(
    roster: &Roster,
    frame: &FcFrame<'_>,
    ask: &CtAsk<'_>,
    to: Asker,
) -> Option<Judged<'static>>
    requires { IsSome (port_at frame.now.head.s_id roster.now.tables.ports) }
    ensures some { IfSome result (λ j. (c : Settings)
        → IsAskJudged c roster.now.tables (fc_view frame.now) to (λ p. unless_refusal
        (server.registration_refusal p.address p.values.node_name (view ask.now))
        (verdicts.Must Registered)) j) }
    ensures none { result ≡ None → (p : LivePort)
        → port_at frame.now.head.s_id roster.now.tables.ports ≡ Some p
        → server.registration_refusal p.address p.values.node_name (view ask.now) ≡ None }
{
    match roster.refusal(frame.head.s_id, ask) {
        Some(
            RegFault::Refused {
                reason,
                explanation,
            },
        ) => Some(refused(to, reason, explanation)),
        None => None,
    }
}

// A request is refused: reason and explanation.
fn refused(to: Asker, reason: u8, explanation: u8) -> Judged<'static>
    ensures { result ≡ Judged.Replied (Replied.Refused reason explanation) to }
{
    let verdict = Replied::Refused(reason, explanation);
    Judged::Replied { verdict, to }
}

// A request that can't be read is refused for its fault.
fn refused_for(to: Asker, fault: CtFault) -> Judged<'static>
    ensures { let why = fault_refusal fault in
        result ≡ Judged.Replied (Replied.Refused why.0 why.1) to }
{
    match fault {
        CtFault::Short | CtFault::Size => refused(to, INVALID_SIZE, NO_EXPLANATION),
        CtFault::NotNameServer => refused(to, COMMAND_NOT_SUPPORTED, NO_EXPLANATION),
    }
}

// A query is answered, or refused where its answer says so.
fn answered(to: Asker, tell: CtTell, size: u16) -> Judged<'static>
    ensures { result ≡ told_as to size tell }
{
    match tell {
        CtTell::Reject {
            reason,
            explanation,
        } => refused(to, reason, explanation),
        tell => Judged::Answers { to, tell, size },
    }
}
