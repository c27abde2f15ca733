//! Logins and logouts in FIP (FC-LS-2, "FLOGI", "FDISC" and "LOGO").
ghost use Rattle.std.specs.Prelude.{◌≡◌, ◌==◌, ◌&&◌, ◌||◌, nat_le, ◌∷◌, IfOk, IfSome, Some, IsTrue};
ghost use Rattle.std.specs.Prelude.{[], not, Bool, length, is_some};
ghost use Rattle.std.specs.List.{list_any};
ghost use Rattle.els_messages.specs.Els as els_spec;
ghost use Rattle.fab_base.specs.Fabric.{same_enode};
ghost use Rattle.fab_base.specs.declared.values.Caught.{Caught};
ghost use Rattle.fab_config.specs.Settings.{Settings};
ghost use Rattle.fab_judge.specs.Judged.{asker_by, ended_by, judgement_of, HasKind, Rests};
ghost use Rattle.fab_judge.specs.Origin.{is_flogi_by, begins_with};
ghost use Rattle.fab_judge.specs.Rows.{unless_dropped};
ghost use Rattle.heard_frames.specs.Heard.{fc_of, sender};
ghost use Rattle.fab_policy.specs.Free.{has_free, is_free};
ghost use Rattle.fab_policy.specs.Rules as rules;
ghost use Rattle.fab_policy.specs.State.{port_at};
ghost use Rattle.fab_policy.specs.Verdicts as verdicts;
ghost use Rattle.fab_policy.specs.Written.{HaveDifferentNames};
ghost use Rattle.fab_policy.specs.declared.verdict.Verdict.TheVariants.{Logout};
ghost use Rattle.fc_frames.specs.Frame.{Frame, view as fc_view};
ghost use Rattle.fip_codec.specs.Message as fip;

use crate::fip::is_known;
use crate::frames::{granted_mac, is_els_request};
use crate::sender::Sender;
use crate::verdicts::{dropped, rejected};
use crate::{Candidate, Judged};
use els_messages::reject::{
    COMMAND_NOT_SUPPORTED, INSUFFICIENT_RESOURCES, LOGICAL_ERROR, NO_EXPLANATION,
    REQUEST_NOT_SUPPORTED, UNABLE_TO_PERFORM,
};
use els_messages::{Els, FDISC, FLOGI, Feature, LOGO, LoginParms, read_els};
use fab_base::{Enode, FcId, Mac, NoMemory, Wwn};
use fab_config::Config;
use fab_policy::{Asker, Replied, Rule};
use fab_roster::{LoginList, Request, Roster};
use fc_frames::{FABRIC_PORT, FcFrame, read_frame};
use fip_codec::LoginKind;
use std::alloc::Global;

/// What the descriptor of a login says beside its FC frame.
#[derive(Clone, Copy)]
pub(crate) struct LoginAsk {
    pub(crate) kind: LoginKind,
    pub(crate) fp: bool,
    pub(crate) mac: Mac,
}

/// The judgement of the login of a descriptor, with the FC frame in it.
pub(crate) fn judge_login(
    alloc: Global,
    config: &Config,
    roster: &Roster,
    from: &Sender,
    asked: &LoginAsk,
    frame: &[u8],
) -> Result<Judged<'static>, NoMemory>
    ensures judged { IfOk result (λ j. let message
        = fip.Login asked.now.kind asked.now.fp frame.now asked.now.mac in
        judgement_of j ≡ unless_dropped (rules.fip_login_rows config.now roster.now.tables
        from.now.port from.now.caught message)
        (verdicts.frame_judged config.now roster.now.tables from.now.port from.now.caught
        asked.now.fp asked.now.kind (fc_of frame.now) asked.now.mac)) }
    ensures grounds { IfOk result (λ j. Rests config.now roster.now.tables
        (sender from.now.port from.now.caught)
        (is_flogi_by asked.now.kind from.now.caught) (fc_of frame.now) j) }
    ensures kind { IfOk result (HasKind (Some asked.now.kind)) }
{
    let Ok(frame) = read_frame(frame) else {
        return Ok(dropped(Rule::ElsShort));
    };
    let Ok(els) = read_els(frame.payload) else {
        return Ok(dropped(Rule::ElsShort));
    };
    if is_misplaced(asked.kind, &frame) {
        return Ok(dropped(Rule::ElsKind));
    }
    let judged = judge_command(alloc, config, roster, from, asked, &frame, &els)?;
    Ok(judged)
}

// The judgement of the link service of a login.
fn judge_command(
    alloc: Global,
    config: &Config,
    roster: &Roster,
    from: &Sender,
    asked: &LoginAsk,
    frame: &FcFrame<'_>,
    els: &Els<'_>,
) -> Result<Judged<'static>, NoMemory>
    requires value { els_spec.payload_of frame.now.payload.now ≡ els_spec.view els.now }
    requires grammar { els_spec.IsEls (els_spec.view els.now) frame.now.payload.now }
    ensures judged { IfOk result (λ j. judgement_of j ≡ verdicts.frame_judged config.now
        roster.now.tables from.now.port from.now.caught asked.now.fp asked.now.kind
        (fc_view frame.now) asked.now.mac) }
    ensures grounds { IfOk result (λ j. Rests config.now roster.now.tables
        (sender from.now.port from.now.caught)
        (is_flogi_by asked.now.kind from.now.caught) (fc_view frame.now) j) }
    ensures kind { IfOk result (HasKind (Some asked.now.kind)) }
{
    let to = from.asker(&frame.head);
    match els {
        Els::Flogi(parms) | Els::Fdisc(parms) => {
            let judged = judge_request(alloc, config, roster, from, asked, parms, to)?;
            Ok(judged)
        }
        Els::Logo { address, name } => {
            let judged = judge_logout(config, roster, from, asked, *address, *name, to);
            Ok(judged)
        }
        _ => Ok(dropped(Rule::ElsKind)),
    }
}

// The judgement of a FLOGI or FDISC.
fn judge_request(
    alloc: Global,
    config: &Config,
    roster: &Roster,
    from: &Sender,
    asked: &LoginAsk,
    parms: &LoginParms,
    to: Asker,
) -> Result<Judged<'static>, NoMemory>
    ensures judged { IfOk result (λ j. judgement_of j ≡ verdicts.login_judged config.now
        roster.now.tables from.now.port from.now.caught asked.now.fp asked.now.kind parms.now) }
    ensures grounds { IfOk result (λ j. (f : Frame) → els_spec.parms_of f.payload ≡ parms.now
        → to ≡ asker_by (sender from.now.port from.now.caught).mac f.head
        → Rests config.now roster.now.tables (sender from.now.port from.now.caught)
        (is_flogi_by asked.now.kind from.now.caught) f j) }
    ensures kind { IfOk result (HasKind (Some asked.now.kind)) }
{
    let request = request_of(asked.kind, from, parms);
    let judged = judge_asked(alloc, config, roster, from, asked, request, parms, to)?;
    Ok(judged)
}

// The judgement of what a login asks for.
fn judge_asked(
    alloc: Global,
    config: &Config,
    roster: &Roster,
    from: &Sender,
    asked: &LoginAsk,
    request: Request,
    parms: &LoginParms,
    to: Asker,
) -> Result<Judged<'static>, NoMemory>
    ensures judged { IfOk result (λ j. judgement_of j ≡ verdicts.unless_refused
        (verdicts.login_rows config.now roster.now.tables from.now.port from.now.caught
        asked.now.fp request parms.now) (verdicts.MayGrant request)) }
    ensures grounds { IfOk result (λ j. (x : Enode) (flogi : Bool) (f : Frame)
        → request ≡ record { flogi = flogi; enode = x; name = parms.now.port_name }
        → els_spec.parms_of f.payload ≡ parms.now → to ≡ asker_by x.mac f.head
        → Rests config.now roster.now.tables x flogi f j) }
    ensures kind { IfOk result (HasKind (Some asked.now.kind)) }
{
    let login = Some(asked.kind);
    if !asked.fp {
        return Ok(rejected(to, login, COMMAND_NOT_SUPPORTED, REQUEST_NOT_SUPPORTED));
    }
    if is_first_missing(roster, from, &request) {
        return Ok(rejected(to, login, UNABLE_TO_PERFORM, NO_EXPLANATION));
    }
    if !parms.offers_class3() {
        return Ok(rejected(to, login, COMMAND_NOT_SUPPORTED, NO_EXPLANATION));
    }
    // For the proof: the roster is sound, so names differ.
    let _ = roster.len();
    if is_name_refused(roster, &request) {
        return Ok(rejected(to, login, LOGICAL_ERROR, NO_EXPLANATION));
    }
    let ended = ended_by(alloc, roster, &request)?;
    let Some(free) = free_for(config, roster, &request, &ended) else {
        return Ok(rejected(to, login, UNABLE_TO_PERFORM, INSUFFICIENT_RESOURCES));
    };
    Ok(Judged::MayGrant(Candidate {
        request,
        node: parms.node_name,
        to,
        kind: asked.kind,
        several: parms.has_feature(Feature::MultipleNPortIds),
        free,
        ended,
    }))
}

// Whether an FDISC comes of an ENode without login.
fn is_first_missing(roster: &Roster, from: &Sender, request: &Request) -> bool
    ensures { (c : Settings) → result ≡ (not request.now.flogi
        && not (rules.is_known c roster.now.tables from.now.port from.now.caught)) }
{
    !request.flogi && !is_known(roster, from)
}

// Whether a port name is none, or that of a login that stays after the request.
fn is_name_refused(roster: &Roster, request: &Request) -> bool
    requires { HaveDifferentNames roster.now.tables.ports }
    ensures { (c : Settings) → result ≡ (request.now.name == 0 || list_any
        (λ q. q.name == request.now.name) (verdicts.staying c roster.now.tables request.now)) }
{
    request.name == Wwn(0) || is_taken(roster, request)
}

// The logins that a request ends, if it is granted: a FLOGI those of its ENode.
fn ended_by(alloc: Global, roster: &Roster, request: &Request) -> Result<LoginList, NoMemory>
    ensures { IfOk result (λ l. l ≡ ended_by request.now roster.now.tables) }
{
    if !request.flogi {
        return Ok(LoginList::empty(alloc));
    }
    let ended = roster.of_enode(alloc, &request.enode)?;
    Ok(ended)
}

// An address for the request, where there is room for one login more than those that stay.
fn free_for(config: &Config, roster: &Roster, request: &Request, ended: &LoginList) -> Option<FcId>
    requires { ended.now ≡ ended_by request.now roster.now.tables }
    ensures some { not (is_some result) ≡ (nat_le config.now.limit
        (length (verdicts.staying config.now roster.now.tables request.now))
        || not (has_free roster.now.tables request.now)) }
    ensures free { IfSome result (λ a. IsTrue (is_free roster.now.tables request.now a)) }
{
    if config.limit as usize <= staying(roster, request, ended) {
        return None;
    }
    roster.find(request)
}

// How many of the logins stay after the request.
fn staying(roster: &Roster, request: &Request, ended: &LoginList) -> usize
    requires { ended.now ≡ ended_by request.now roster.now.tables }
    ensures { (c : Settings) → result
        ≡ length (verdicts.staying c roster.now.tables request.now) }
{
    roster.len() as usize - ended.len()
}

// What a login asks for.
fn request_of(kind: LoginKind, from: &Sender, parms: &LoginParms) -> Request
    ensures { result ≡ verdicts.request_of kind from.now.port from.now.caught parms.now }
{
    Request {
        flogi: is_flogi(kind),
        enode: from.enode(),
        name: parms.port_name,
    }
}

fn is_flogi(kind: LoginKind) -> bool
    ensures { (caught : Caught) → result ≡ is_flogi_by kind caught }
{
    match kind {
        LoginKind::Flogi => true,
        LoginKind::Fdisc | LoginKind::Logo => false,
    }
}

// Whether a login that stays after the request has its port name.
fn is_taken(roster: &Roster, request: &Request) -> bool
    requires { HaveDifferentNames roster.now.tables.ports }
    ensures { (c : Settings) → result ≡ list_any (λ q. q.name == request.now.name)
        (verdicts.staying c roster.now.tables request.now) }
{
    match roster.by_name(request.name) {
        Some(login) => is_left(request, &login.enode),
        None => false,
    }
}

// Whether a login of this ENode stays after the request.
fn is_left(request: &Request, enode: &Enode) -> bool
    ensures { result ≡ not (request.now.flogi && same_enode enode.now request.now.enode) }
{
    let ends = request.flogi && *enode == request.enode;
    !ends
}

// The judgement of a LOGO.
fn judge_logout(
    config: &Config,
    roster: &Roster,
    from: &Sender,
    asked: &LoginAsk,
    address: FcId,
    name: Wwn,
    to: Asker,
) -> Judged<'static>
    ensures judged { judgement_of result ≡ verdicts.unless_refused
        ((
          not (rules.holds (verdicts.is_own_logout config.now roster.now.tables from.now.port
              from.now.caught asked.now.mac address name)
              (port_at to.s_id roster.now.tables.ports)),
          (3, 0),
        ) ∷ [])
        (verdicts.Must (Logout to.s_id)) }
    ensures grounds { (x : Enode) (flogi : Bool) (f : Frame) → to ≡ asker_by x.mac f.head
        → Rests config.now roster.now.tables x flogi f result }
    ensures kind { HasKind (Some asked.now.kind) result }
{
    let kind = asked.kind;
    if !is_own_logout(config, roster, from, to.s_id, &asked.mac, address, name) {
        return rejected(to, Some(kind), LOGICAL_ERROR, NO_EXPLANATION);
    }
    let address = to.s_id;
    let verdict = Replied::Logout { kind, address };
    Judged::Replied { verdict, to }
}

// Whether a LOGO is about the live login of its S_ID, which is one of its sender.
fn is_own_logout(
    config: &Config,
    roster: &Roster,
    from: &Sender,
    s_id: FcId,
    mac: &Mac,
    address: FcId,
    name: Wwn,
) -> bool
    ensures { result ≡ rules.holds (verdicts.is_own_logout config.now roster.now.tables
        from.now.port from.now.caught mac.now address name)
        (port_at s_id roster.now.tables.ports) }
{
    let Some(login) = roster.by_address(s_id) else {
        return false;
    };
    login.enode == from.enode()
        && *mac == granted_mac(config, login.address)
        && address == login.address
        && name == login.name
}

// Whether the frame isn't the request to the fabric port that its descriptor announces, or a FLOGI
// or FDISC has an S_ID.
fn is_misplaced(kind: LoginKind, frame: &FcFrame<'_>) -> bool
    ensures { result ≡ rules.is_misplaced kind (fc_view frame.now) }
{
    let head = &frame.head;
    let announced = is_els_request(frame)
        && head.d_id.value() == FABRIC_PORT
        && is_command(kind, frame.payload)
        && (is_logo(kind) || head.s_id.value() == 0);
    !announced
}

// Whether a payload begins with the command of a login.
fn is_command(kind: LoginKind, payload: &[u8]) -> bool
    ensures { result ≡ begins_with (rules.command_of kind) payload.now }
{
    match payload.first() {
        Some(command) => *command == command_of(kind),
        None => false,
    }
}

// The command of a login (FC-LS-2, "Extended Link Services").
fn command_of(kind: LoginKind) -> u8
    ensures { result ≡ rules.command_of kind }
{
    match kind {
        LoginKind::Flogi => FLOGI,
        LoginKind::Fdisc => FDISC,
        LoginKind::Logo => LOGO,
    }
}

fn is_logo(kind: LoginKind) -> bool
    ensures { result ≡ rules.is_logo kind }
{
    match kind {
        LoginKind::Logo => true,
        LoginKind::Flogi | LoginKind::Fdisc => false,
    }
}
