//! Requests to the services of the fabric (FC-LS-2, "Extended Link Services").
ghost use Rattle.std.specs.Prelude.{◌≡◌, ◌==◌, ◌∷◌, [], ◌||◌, not, nat_lt, true};
ghost use Rattle.std.specs.Prelude.{false, drop, Bool, Some, None, IfOk, option_map};
ghost use Rattle.els_messages.specs.Els as spec;
ghost use Rattle.eth_frames.specs.Ethernet.{Eth};
ghost use Rattle.fab_base.specs.declared.values.Enode.{Enode};
ghost use Rattle.fab_config.specs.Settings.{Settings};
ghost use Rattle.fab_judge.specs.Judged.{asker_by, judgement_of, HasKind, HasSource, Rests};
ghost use Rattle.fab_judge.specs.Rows.{unless_dropped};
ghost use Rattle.fab_policy.specs.Rules as rules;
ghost use Rattle.fab_policy.specs.Rules.{fcoe_rows};
ghost use Rattle.fab_policy.specs.State.{LivePort, Tables, port_at};
ghost use Rattle.fab_policy.specs.Verdicts as verdicts;
ghost use Rattle.fab_policy.specs.Verdicts.{fcoe_judged, unless_refused};
ghost use Rattle.fab_policy.specs.Cause.{plain};
ghost use Rattle.fab_policy.specs.declared.verdict.Verdict.TheVariants.{NsLogin, Watching};
ghost use Rattle.fab_roster.specs.Reaching.{zones_of};
ghost use Rattle.fab_roster.specs.Roll.{login_of};
ghost use Rattle.fc_frames.specs.Frame.{Frame, view as fc_view};
ghost use Rattle.fcoe_codec.specs.Fcoe.{view as fcoe_view};

use crate::Judged;
use crate::frames::{is_els_reply, is_els_request, is_for_service, is_service, is_to_names};
use crate::names::judge_ask;
use crate::verdicts::{dropped, rejected};
use ct_messages::PREAMBLE;
use els_messages::reject::{
    COMMAND_NOT_SUPPORTED, LOGICAL_ERROR, NO_EXPLANATION, REQUEST_NOT_SUPPORTED,
};
use els_messages::scr::{CLEAR, FABRIC_DETECTED, FULL, NX_PORT_DETECTED};
use els_messages::{Els, LoginParms, read_els};
use fab_base::{NoMemory, PortNo};
use fab_config::Config;
use fab_policy::{Asker, Replied, Rule, Settled};
use fab_roster::{Login, Roster};
use fc_frames::FcFrame;
use fcoe_codec::FcoeFrame;
use std::alloc::Global;
use zone_rules::Zones;

/// The least receive size of a login to the name server.
const LEAST_SIZE: u16 = 256;

/// The judgement of a frame of a live N_Port to a service.
pub(crate) fn judge_request<'a>(
    alloc: Global,
    config: &Config,
    zones: &Zones,
    roster: &Roster,
    port: PortNo,
    login: &Login,
    body: &FcoeFrame<'a>,
    to: Asker,
) -> Result<Judged<'a>, NoMemory>
    requires zones { zones.now ≡ zones_of config.now }
    requires live { option_map login_of (port_at body.now.frame.head.s_id roster.now.tables.ports)
        ≡ Some login.now }
    requires service { nat_lt body.now.frame.head.d_id rules.SERVICES ≡ false }
    ensures judged { IfOk result (λ j. (f : Eth) → judgement_of j ≡ unless_dropped
        (drop 5 (fcoe_rows config.now roster.now.tables port f (fcoe_view body.now)))
        (fcoe_judged config.now roster.now.tables (fc_view body.now.frame))) }
    ensures grounds { IfOk result (λ j. (x : Enode) (flogi : Bool)
        → to ≡ asker_by x.mac body.now.frame.head
        → Rests config.now roster.now.tables x flogi (fc_view body.now.frame) j) }
    ensures kind { IfOk result (HasKind None) }
{
    let frame = &body.frame;
    if !is_service(frame.head.d_id) {
        return Ok(dropped(Rule::ServiceAddress));
    }
    if !is_for_service(body) {
        return Ok(dropped(Rule::ServiceFrame));
    }
    if is_els_reply(frame) {
        return Ok(Judged::Must(Settled::Noted));
    }
    if is_els_request(frame) {
        return Ok(judge_service(login, frame, to));
    }
    if frame.payload.len() < PREAMBLE {
        return Ok(dropped(Rule::CtShort));
    }
    match judge_ask(alloc, config, zones, roster, login, frame, to) {
        Ok(judged) => Ok(judged),
        Err(NoMemory) => Err(NoMemory),
    }
}

// The judgement of a request of extended link services of a live N_Port to a service.
fn judge_service(login: &Login, frame: &FcFrame<'_>, to: Asker) -> Judged<'static>
    requires { rules.is_els_request (fc_view frame.now) ≡ true }
    ensures judged { (c : Settings) (T : Tables) (p : LivePort) → login_of p ≡ login.now
        → judgement_of result
        ≡ unless_dropped ((rules.is_bad_els (fc_view frame.now), plain Rule.ElsShort) ∷ [])
        (verdicts.els_judged c T p (fc_view frame.now)) }
    ensures grounds { (c : Settings) (T : Tables) (x : Enode) (flogi : Bool)
        → HasSource T (fc_view frame.now) → to ≡ asker_by x.mac frame.now.head
        → Rests c T x flogi (fc_view frame.now) result }
    ensures kind { HasKind None result }
{
    match read_els(frame.payload) {
        Ok(els) => {
            if is_to_names(frame) {
                to_name_server(login, &els, to)
            } else {
                to_controller(&els, to)
            }
        }
        Err(_) => dropped(Rule::ElsShort),
    }
}

// The judgement of a link service to the name server.
fn to_name_server(login: &Login, els: &Els<'_>, to: Asker) -> Judged<'static>
    ensures judged { (c : Settings) (T : Tables) (p : LivePort) (f : Frame) → login_of p ≡ login.now
        → (f.head.d_id == rules.NAME_SERVER) ≡ true → spec.payload_of f.payload ≡ spec.view els.now
        → judgement_of result ≡ verdicts.els_judged c T p f }
    ensures grounds { (c : Settings) (T : Tables) (x : Enode) (flogi : Bool) (f : Frame)
        → HasSource T f → to ≡ asker_by x.mac f.head → spec.IsEls (spec.view els.now) f.payload
        → Rests c T x flogi f result }
    ensures kind { HasKind None result }
{
    match els {
        Els::Plogi(parms) => judge_server_login(login, parms, to),
        Els::Logo { .. } => Judged::Replied {
            verdict: Replied::NsLogout,
            to,
        },
        _ => rejected(to, None, COMMAND_NOT_SUPPORTED, REQUEST_NOT_SUPPORTED),
    }
}

// The judgement of a login to the name server.
fn judge_server_login(login: &Login, parms: &LoginParms, to: Asker) -> Judged<'static>
    ensures judged { judgement_of result ≡ unless_refused
        ((not (spec.offers_class3 parms.now), (0x0b, 0))
        ∷ (not (parms.now.port_name == login.now.name) || nat_lt parms.now.size 256, (3, 0)) ∷ [])
        (verdicts.Must NsLogin) }
    ensures grounds { (c : Settings) (T : Tables) (x : Enode) (flogi : Bool) (f : Frame)
        → HasSource T f → to ≡ asker_by x.mac f.head → spec.parms_of f.payload ≡ parms.now
        → Rests c T x flogi f result }
    ensures kind { HasKind None result }
{
    if !parms.offers_class3() {
        return rejected(to, None, COMMAND_NOT_SUPPORTED, NO_EXPLANATION);
    }
    if parms.port_name != login.name || parms.size < LEAST_SIZE {
        return rejected(to, None, LOGICAL_ERROR, NO_EXPLANATION);
    }
    let verdict = Replied::NsLogin(parms.receive_size());
    Judged::Replied { verdict, to }
}

// The judgement of a link service to the fabric controller.
fn to_controller(els: &Els<'_>, to: Asker) -> Judged<'static>
    ensures judged { (c : Settings) (T : Tables) (p : LivePort) (f : Frame)
        → (f.head.d_id == rules.NAME_SERVER) ≡ false
        → spec.payload_of f.payload ≡ spec.view els.now
        → judgement_of result ≡ verdicts.els_judged c T p f }
    ensures grounds { (c : Settings) (T : Tables) (x : Enode) (flogi : Bool) (f : Frame)
        → HasSource T f → to ≡ asker_by x.mac f.head → Rests c T x flogi f result }
    ensures kind { HasKind None result }
{
    match els {
        Els::Scr { function } => judge_watch(*function, to),
        _ => rejected(to, None, COMMAND_NOT_SUPPORTED, REQUEST_NOT_SUPPORTED),
    }
}

// The judgement of a registration for state changes.
fn judge_watch(function: u8, to: Asker) -> Judged<'static>
    ensures judged { judgement_of result ≡ unless_refused
        ((not (verdicts.is_function function), (3, 0)) ∷ [])
        (verdicts.Must (Watching function)) }
    ensures grounds { (c : Settings) (T : Tables) (x : Enode) (flogi : Bool) (f : Frame)
        → HasSource T f → to ≡ asker_by x.mac f.head → Rests c T x flogi f result }
    ensures kind { HasKind None result }
{
    if function == FABRIC_DETECTED
        || function == NX_PORT_DETECTED
        || function == FULL
        || function == CLEAR
    {
        let verdict = Replied::Watching(function);
        Judged::Replied { verdict, to }
    } else {
        rejected(to, None, LOGICAL_ERROR, NO_EXPLANATION)
    }
}
