//! The judgement of one frame.
ghost use Rattle.std.specs.Prelude.{◌≡◌, Bool, IfOk};
ghost use Rattle.eth_frames.specs.Ethernet.{view as eth_view};
ghost use Rattle.fab_base.specs.declared.values.Caught.{Caught as Captured};
ghost use Rattle.fab_base.specs.declared.values.Enode.{Enode};
ghost use Rattle.fab_judge.specs.Judged.{judgement_of, Grounds, HasValues, Rests};
ghost use Rattle.fab_judge.specs.Rows.{body_judged, IsCarried};
ghost use Rattle.heard_frames.specs.Heard.{Fcoe, decoded};
ghost use Rattle.fab_policy.specs.Rules.{rule_of};
ghost use Rattle.fab_policy.specs.Verdicts.{judged};
ghost use Rattle.heard_frames.specs.View.{read_view};
ghost use Rattle.fab_roster.specs.Reaching.{zones_of};
ghost use Rattle.fc_frames.specs.Frame.{Frame};

use crate::fcoe::judge_fcoe;
use crate::fip::judge_fip;
use crate::sender::Sender;
use crate::verdicts::dropped;
use ct_messages::{CtAsk, CtTell};
use eth_frames::EthFrame;
use fab_base::{FcId, NoMemory, PortNo, Wwn};
use fab_config::Config;
use fab_policy::{Asker, Replied, Rule, Settled, frame_rule, frames_are_carried};
use fab_roster::{LoginList, Request, Roster};
use fcoe_codec::{FcoeFault, FcoeFrame};
use fip_codec::LoginKind;
use heard_frames::{Heard, What};
use std::alloc::Global;
use zone_rules::Zones;

/// What the tables say of a frame, with what a step needs to carry it out.
#[derive(Debug, Drop)]
pub enum Judged<'a> {
    /// This verdict, which has what it takes of the frame.
    Must(Settled),
    /// This verdict, which is replied to the sender of the frame.
    Replied { verdict: Replied, to: Asker },
    /// A login to which any free address may be granted.
    MayGrant(Candidate),
    /// A registration that isn't refused, with its request: `registered`.
    Registers { to: Asker, ask: CtAsk<'a> },
    /// A query that isn't refused, with its answer, and the receive size at which it is cut:
    /// `answered`.
    Answers { to: Asker, tell: CtTell, size: u16 },
}

/// A login to which an address may be granted, with what carries out the grant.
#[derive(Debug, Drop)]
pub struct Candidate {
    pub request: Request,
    /// Its node name.
    pub node: Wwn,
    /// Whom the accept answers.
    pub to: Asker,
    /// Which login it is.
    pub kind: LoginKind,
    /// Whether it asks for several addresses.
    pub several: bool,
    /// An address that is free for it.
    pub free: FcId,
    /// The logins that end with the grant: those of the ENode of a FLOGI.
    pub ended: LoginList,
}

/// The judgement of a frame that comes on a port, over who is live. The zones are those of the
/// configuration. Memory is taken where a query is answered, and for the logins that a FLOGI ends.
pub fn judge<'a>(
    alloc: Global,
    config: &Config,
    zones: &Zones,
    roster: &Roster,
    port: PortNo,
    heard: &Heard<'a>,
) -> Result<Judged<'a>, NoMemory>
    requires zones { zones.now ≡ zones_of config.now }
    ensures judged { IfOk result (λ j. judgement_of j
        ≡ judged config.now roster.now.tables port heard.now.caught.now) }
    ensures grounds { IfOk result (λ j.
        Grounds config.now roster.now.tables port heard.now.caught.now j) }
    ensures values { IfOk result (HasValues port heard.now.caught.now) }
{
    if let Some(cause) = frame_rule(config, heard) {
        return Ok(Judged::Must(Settled::Dropped(cause)));
    }
    // Law: what a decoded frame says is what a journal reads from its bytes.
    frames_are_carried();
    match &heard.what {
        What::Bad(_) => unreachable!(),
        What::Fip { eth, message } => {
            let from = Sender::of(port, heard.caught, eth.src);
            let judged = judge_fip(alloc, config, roster, &from, eth, message)?;
            Ok(judged)
        }
        What::Fcoe { eth, read } => {
            match judge_body(alloc, config, zones, roster, port, eth, read) {
                Ok(judged) => Ok(judged),
                Err(NoMemory) => Err(NoMemory),
            }
        }
    }
}

// The judgement of a body of FCoE on the configured VLAN.
fn judge_body<'a>(
    alloc: Global,
    config: &Config,
    zones: &Zones,
    roster: &Roster,
    port: PortNo,
    eth: &EthFrame<'_>,
    read: &Result<FcoeFrame<'a>, FcoeFault>,
) -> Result<Judged<'a>, NoMemory>
    requires zones { zones.now ≡ zones_of config.now }
    ensures judged { IfOk result (λ j. judgement_of j ≡ body_judged
        config.now roster.now.tables port (eth_view eth.now) (read_view read.now)) }
    ensures grounds { IfOk result (λ j. (x : Enode) (flogi : Bool) (f : Frame)
        → x.mac ≡ (eth_view eth.now).src → IsCarried (read_view read.now) f
        → Rests config.now roster.now.tables x flogi f j) }
    ensures values { IfOk result (λ j. (caught : Captured)
        → decoded caught ≡ Fcoe (eth_view eth.now) (read_view read.now)
        → HasValues port caught j) }
{
    match read {
        Ok(body) => {
            // Law: what a decoded frame says is what a journal reads from its bytes.
            frames_are_carried();
            match judge_fcoe(alloc, config, zones, roster, port, eth, body) {
                Ok(judged) => Ok(judged),
                Err(NoMemory) => Err(NoMemory),
            }
        }
        Err(fault) => Ok(dropped_for(*fault)),
    }
}

// A body is dropped for its fault.
fn dropped_for(fault: FcoeFault) -> Judged<'static>
    ensures { result ≡ Judged.Must (Settled.Dropped (rule_of fault)) }
{
    dropped(match fault {
        FcoeFault::Length => Rule::FcoeLength,
        FcoeFault::Version => Rule::FcoeVersion,
        FcoeFault::Sof => Rule::FcoeSof,
        FcoeFault::Eof => Rule::FcoeEof,
        FcoeFault::Crc { .. } => Rule::FcoeCrc,
    })
}
