//! The first rule on a frame itself that drops it.
ghost use Rattle.std.specs.Prelude.{◌≡◌, ◌∷◌, [], false};
ghost use Rattle.eth_frames.specs.Ethernet.{view as eth_view};
ghost use Rattle.fip_codec.specs.Message.{view as fip_view};
ghost use Rattle.fab_policy.specs.Cause.{plain as plain_cause};
ghost use Rattle.heard_frames.specs.Heard.{decoded};
ghost use Rattle.fab_policy.specs.Rules as rules;
ghost use Rattle.heard_frames.specs.Rows as rows;

use crate::cause::{cause_of_unreadable, plain};
use crate::{Dropped, Rule};
use eth_frames::{ALL_FCFS, EthFrame};
use fab_base::Mac;
use fab_config::Config;
use fip_codec::{FipMessage, is_forwarders};
use heard_frames::{Heard, What, is_wrong_vlan};

/// The first rule on the frame itself that drops it: it can't be read, or its VLAN, its
/// destination, its kind or the MAC that it gives is wrong. It doesn't go by who is logged in.
pub fn frame_rule(config: &Config, heard: &Heard<'_>) -> Option<Dropped>
    ensures { result ≡ rules.frame_rule config.now (decoded heard.now.caught.now) }
{
    match &heard.what {
        What::Bad(fault) => Some(cause_of_unreadable(*fault)),
        What::Fip { eth, message } => fip_rule(config, eth, message),
        What::Fcoe { eth, .. } => fcoe_rule(config, eth),
    }
}

fn fcoe_rule(config: &Config, eth: &EthFrame<'_>) -> Option<Dropped>
    ensures { result ≡ rows.first_row (
        (rows.is_wrong_vlan config.now.vlan (eth_view eth.now) false, plain_cause Rule.Vlan) ∷ []) }
{
    if is_wrong_vlan(config.vlan, eth, false) {
        return Some(plain(Rule::Vlan));
    }
    None
}

fn fip_rule(config: &Config, eth: &EthFrame<'_>, message: &FipMessage<'_>) -> Option<Dropped>
    ensures { result ≡ rows.first_row (
        rules.fip_frame_rows config.now (eth_view eth.now) (fip_view message.now)) }
{
    if is_wrong_vlan(config.vlan, eth, is_vlan_request(message)) {
        return Some(plain(Rule::Vlan));
    }
    if !is_to_forwarder(config, eth, message) {
        return Some(plain(Rule::FipDest));
    }
    if is_forwarders(message) {
        return Some(plain(Rule::FipRole));
    }
    if names_another(eth, message) {
        return Some(plain(Rule::FipMac));
    }
    None
}

// Whether a frame is to the forwarder, or to all forwarders and of a kind that may be.
fn is_to_forwarder(config: &Config, eth: &EthFrame<'_>, message: &FipMessage<'_>) -> bool
    ensures { result ≡ rules.is_to_forwarder config.now (eth_view eth.now) (fip_view message.now) }
{
    let may_be_to_all = is_solicitation(message) || is_vlan_request(message);
    eth.dst == config.fcf_mac || (may_be_to_all && eth.dst == ALL_FCFS)
}

fn is_vlan_request(message: &FipMessage<'_>) -> bool
    ensures { result ≡ rules.is_vlan_request (fip_view message.now) }
{
    match message {
        FipMessage::VlanAsk { .. } => true,
        _ => false,
    }
}

fn is_solicitation(message: &FipMessage<'_>) -> bool
    ensures { result ≡ rules.is_solicitation (fip_view message.now) }
{
    match message {
        FipMessage::Solicit { .. } => true,
        _ => false,
    }
}

// Whether a message gives another MAC than the frame's source.
fn names_another(eth: &EthFrame<'_>, message: &FipMessage<'_>) -> bool
    ensures { result ≡ rules.names_another (eth_view eth.now) (fip_view message.now) }
{
    match named_mac(message) {
        Some(mac) => mac != eth.src,
        None => false,
    }
}

// The MAC that a solicitation, a VLAN request or an ENode's keep alive gives for its sender.
fn named_mac(message: &FipMessage<'_>) -> Option<Mac>
    ensures { result ≡ rules.named_mac (fip_view message.now) }
{
    match message {
        FipMessage::Solicit { mac, .. } | FipMessage::VlanAsk { mac, .. } => Some(*mac),
        FipMessage::Keep { mac, port: None } => Some(*mac),
        _ => None,
    }
}
