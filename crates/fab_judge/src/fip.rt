//! Messages of FIP that no rule on the frame itself drops (FC-BB-5, "FIP operations").
ghost use Rattle.std.specs.Prelude.{◌≡◌, ◌∷◌, [], not, Some, IfOk};
ghost use Rattle.std.specs.List.{list_any};
ghost use Rattle.eth_frames.specs.Ethernet.{view as eth_view};
ghost use Rattle.fab_base.specs.Fabric.{same_enode};
ghost use Rattle.fab_judge.specs.Judged.{judgement_of, Grounds, HasValues};
ghost use Rattle.fab_judge.specs.Rows.{unless_dropped};
ghost use Rattle.heard_frames.specs.Heard.{Fip, decoded, sender};
ghost use Rattle.fab_policy.specs.Cause.{plain};
ghost use Rattle.fab_policy.specs.Rules as rules;
ghost use Rattle.fab_policy.specs.Rules.{fip_login_rows};
ghost use Rattle.fab_policy.specs.Verdicts as verdicts;
ghost use Rattle.fab_policy.specs.Verdicts.{fip_judged};
ghost use Rattle.fip_codec.specs.Message as fip;
ghost use Rattle.fip_codec.specs.Message.{view as fip_view};

use crate::Judged;
use crate::frames::granted_mac;
use crate::logins::{LoginAsk, judge_login};
use crate::sender::Sender;
use crate::verdicts::dropped;
use eth_frames::EthFrame;
use fab_base::{Mac, NoMemory};
use fab_config::Config;
use fab_policy::{Rule, Settled, frames_are_carried};
use fab_roster::Roster;
use fip_codec::{FipMessage, VxPort};
use std::alloc::Global;

/// The judgement of a message.
pub(crate) fn judge_fip(
    alloc: Global,
    config: &Config,
    roster: &Roster,
    from: &Sender,
    eth: &EthFrame<'_>,
    message: &FipMessage<'_>,
) -> Result<Judged<'static>, NoMemory>
    requires { decoded from.now.caught ≡ Fip (eth_view eth.now) (fip_view message.now) }
    ensures judged { IfOk result (λ j. judgement_of j ≡ unless_dropped
        (fip_login_rows config.now roster.now.tables from.now.port from.now.caught
        (fip_view message.now))
        (fip_judged config.now roster.now.tables from.now.port from.now.caught
        (fip_view message.now))) }
    ensures grounds { IfOk result (λ j.
        Grounds config.now roster.now.tables from.now.port from.now.caught j) }
    ensures values { IfOk result (HasValues from.now.port from.now.caught) }
{
    // Law: what a decoded frame says is what a journal reads from its bytes.
    frames_are_carried();
    match message {
        FipMessage::VlanAsk { .. } => Ok(Judged::Must(Settled::Vlans {
            to: eth.src,
            untagged: eth.vlan() == 0,
        })),
        FipMessage::Solicit { size, .. } => Ok(Judged::Must(Settled::Advertised {
            to: eth.src,
            size: *size,
        })),
        FipMessage::Keep { mac, port } => Ok(judge_keep(config, roster, from, mac, port)),
        FipMessage::Login {
            kind,
            fp,
            frame,
            mac,
        } => {
            let login = LoginAsk {
                kind: *kind,
                fp: *fp,
                mac: *mac,
            };
            let judged = judge_login(alloc, config, roster, from, &login, frame)?;
            Ok(judged)
        }
        _ => Ok(dropped(Rule::FipRole)),
    }
}

// The judgement of a keep alive, of a VN_Port or of an ENode.
fn judge_keep(
    config: &Config,
    roster: &Roster,
    from: &Sender,
    mac: &Mac,
    port: &Option<VxPort>,
) -> Judged<'static>
    ensures judged { judgement_of result ≡ unless_dropped
        (fip_login_rows config.now roster.now.tables from.now.port from.now.caught
        (fip.Keep mac.now port.now))
        (fip_judged config.now roster.now.tables from.now.port from.now.caught
        (fip.Keep mac.now port.now)) }
    ensures grounds { Grounds config.now roster.now.tables from.now.port from.now.caught result }
    ensures values { HasValues from.now.port from.now.caught result }
{
    match port {
        None if !is_known(roster, from) => dropped(Rule::KeepaliveUnknown),
        None => Judged::Must(Settled::AliveNode(from.enode())),
        Some(vx) if is_unknown_port(config, roster, from, mac, vx) => {
            dropped(Rule::KeepaliveUnknown)
        }
        Some(vx) => Judged::Must(Settled::AlivePort(vx.address)),
    }
}

// Whether an N_Port of the sender is live.
pub(crate) fn is_known(roster: &Roster, from: &Sender) -> bool
    ensures { result ≡ list_any (λ p. same_enode p.enode (sender from.now.port from.now.caught))
        roster.now.tables.ports }
{
    let enode = from.enode();
    roster.first_of(&enode, 0).is_some()
}

// Whether a keep alive is of no live VN_Port of its sender.
fn is_unknown_port(config: &Config, roster: &Roster, from: &Sender, mac: &Mac, vx: &VxPort) -> bool
    ensures { result ≡ rules.is_keepalive_unknown config.now roster.now.tables
        from.now.port from.now.caught (fip.Keep mac.now (Some vx.now)) }
{
    let Some(login) = roster.by_address(vx.address) else {
        return true;
    };
    let enode = from.enode();
    let granted = granted_mac(config, vx.address);
    let known = login.enode.port == enode.port
        && login.name == vx.name
        && login.enode.mac == *mac
        && granted == vx.mac
        && granted == enode.mac;
    !known
}
