//! FCoE frames that were read: of whom they come, and where they go (FC-BB-5, "FCoE forwarding").
ghost use Rattle.std.specs.Prelude.{◌≡◌, ◌<◌, nat_lt, true, false, drop};
ghost use Rattle.std.specs.Prelude.{Bool, Some, None, IfOk, option_map};
ghost use Rattle.eth_frames.specs.Ethernet.{Eth, view as eth_view};
ghost use Rattle.fab_base.specs.declared.values.Enode.{Enode};
ghost use Rattle.fab_judge.specs.Judged.{asker_by, judgement_of, HasKind, Rests};
ghost use Rattle.fab_judge.specs.Rows.{unless_dropped};
ghost use Rattle.fab_policy.specs.Rules as rules;
ghost use Rattle.fab_policy.specs.Rules.{fcoe_rows};
ghost use Rattle.fab_policy.specs.State.{port_at};
ghost use Rattle.fab_policy.specs.Verdicts.{fcoe_judged};
ghost use Rattle.fab_roster.specs.Reaching.{zones_of};
ghost use Rattle.fab_roster.specs.Roll.{login_of};
ghost use Rattle.fc_frames.specs.Frame.{view as fc_view};
ghost use Rattle.fcoe_codec.specs.Fcoe.{view as fcoe_view};

use crate::Judged;
use crate::frames::granted_mac;
use crate::sender::asker;
use crate::services::judge_request;
use crate::verdicts::dropped;
use eth_frames::EthFrame;
use fab_base::{Moment, NoMemory, PortNo};
use fab_config::Config;
use fab_policy::{Asker, Rule, Settled};
use fab_roster::{Login, Roster};
use fc_frames::SERVICES;
use fcoe_codec::FcoeFrame;
use std::alloc::Global;
use zone_rules::Zones;

/// The judgement of a frame on the configured VLAN.
pub(crate) fn judge_fcoe<'a>(
    alloc: Global,
    config: &Config,
    zones: &Zones,
    roster: &Roster,
    port: PortNo,
    eth: &EthFrame<'_>,
    body: &FcoeFrame<'a>,
) -> Result<Judged<'a>, NoMemory>
    requires zones { zones.now ≡ zones_of config.now }
    ensures judged { IfOk result (λ j. judgement_of j ≡ unless_dropped
        (fcoe_rows config.now roster.now.tables port (eth_view eth.now) (fcoe_view body.now))
        (fcoe_judged config.now roster.now.tables (fc_view body.now.frame))) }
    ensures grounds { IfOk result (λ j. (x : Enode) (flogi : Bool)
        → x.mac ≡ (eth_view eth.now).src
        → Rests config.now roster.now.tables x flogi (fc_view body.now.frame) j) }
    ensures kind { IfOk result (HasKind None) }
{
    if !body.is_class3() {
        return Ok(dropped(Rule::FcoeClass));
    }
    if eth.dst != config.fcf_mac {
        return Ok(dropped(Rule::FcoeDest));
    }
    if eth.src != granted_mac(config, body.frame.head.s_id) {
        return Ok(dropped(Rule::SourceMac));
    }
    let to = asker(&eth.src, &body.frame.head);
    match judge_sent(alloc, config, zones, roster, port, body, to) {
        Ok(judged) => Ok(judged),
        Err(NoMemory) => Err(NoMemory),
    }
}

// The judgement of a frame with the MAC of its S_ID.
fn judge_sent<'a>(
    alloc: Global,
    config: &Config,
    zones: &Zones,
    roster: &Roster,
    port: PortNo,
    body: &FcoeFrame<'a>,
    to: Asker,
) -> Result<Judged<'a>, NoMemory>
    requires zones { zones.now ≡ zones_of config.now }
    ensures judged { IfOk result (λ j. (f : Eth) → judgement_of j ≡ unless_dropped
        (drop 3 (fcoe_rows config.now roster.now.tables port f (fcoe_view body.now)))
        (fcoe_judged config.now roster.now.tables (fc_view body.now.frame))) }
    ensures grounds { IfOk result (λ j. (x : Enode) (flogi : Bool)
        → to ≡ asker_by x.mac body.now.frame.head
        → Rests config.now roster.now.tables x flogi (fc_view body.now.frame) j) }
    ensures kind { IfOk result (HasKind None) }
{
    let Some(login) = roster.by_address(body.frame.head.s_id) else {
        return Ok(dropped(Rule::SourceLogin));
    };
    if login.enode.port != port {
        return Ok(dropped(Rule::SourcePort));
    }
    if body.frame.head.d_id.value() < SERVICES {
        return Ok(judge_data(config, zones, roster, port, login, body));
    }
    match judge_request(alloc, config, zones, roster, port, login, body, to) {
        Ok(judged) => Ok(judged),
        Err(NoMemory) => Err(NoMemory),
    }
}

// The judgement of a frame of a live N_Port to an N_Port.
fn judge_data(
    config: &Config,
    zones: &Zones,
    roster: &Roster,
    port: PortNo,
    login: &Login,
    body: &FcoeFrame<'_>,
) -> Judged<'static>
    requires zones { zones.now ≡ zones_of config.now }
    requires live { option_map login_of (port_at body.now.frame.head.s_id roster.now.tables.ports)
        ≡ Some login.now }
    requires data { nat_lt body.now.frame.head.d_id rules.SERVICES ≡ true }
    ensures judged { (f : Eth) → judgement_of result ≡ unless_dropped
        (drop 9 (fcoe_rows config.now roster.now.tables port f (fcoe_view body.now)))
        (fcoe_judged config.now roster.now.tables (fc_view body.now.frame)) }
    ensures grounds { (x : Enode) (flogi : Bool)
        → Rests config.now roster.now.tables x flogi (fc_view body.now.frame) result }
    ensures kind { HasKind None result }
{
    let head = &body.frame.head;
    if head.d_id == head.s_id {
        return dropped(Rule::OwnAddress);
    }
    let Some(to) = roster.by_address(head.d_id) else {
        return dropped(Rule::DestLogin);
    };
    let now = roster.clock().unwrap_or(Moment(0));
    if !zones.joined(now, login.name, to.name) {
        return dropped(Rule::Zone);
    }
    Judged::Must(Settled::Forwarded {
        port: to.enode.port,
        to: head.d_id,
    })
}
