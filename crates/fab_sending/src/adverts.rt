//! Advertisements to all nodes (FC-BB-5, "FIP Discovery Advertisement").
ghost use Rattle.std.specs.Prelude.{◌≡◌, ◌≤◌, List, IfOk};
ghost use Rattle.fab_policy.specs.Outputs.{is_owed};
ghost use Rattle.fab_policy.specs.declared.event.Event.{Event as Entry};
ghost use Rattle.fab_sending.specs.Message.{AreSendable};
ghost use Rattle.fab_sending.specs.Messages.{advertisements, advertisements_owed, at_moment};

use crate::{Out, OutList, OutMessage};
use fab_base::{Moment, NoMemory, PortNo};
use fab_config::Config;
use std::alloc::Global;

/// An advertisement on each port, where a period has passed since the last ones.
pub fn advertise(
    alloc: Global,
    config: &Config,
    ports: u32,
    last: Option<Moment>,
    moment: Moment,
) -> Result<OutList, NoMemory>
    requires { ports ≤ 64 }
    ensures made { IfOk result (λ outs. outs
        ≡ at_moment moment (advertisements_owed config.now ports last moment)) }
    ensures sendable { IfOk result (λ outs. (events : List Entry) → AreSendable events outs) }
{
    if is_owed(config, last, moment) {
        on_all_ports(alloc, ports, moment)
    } else {
        Ok(OutList::empty(alloc))
    }
}

/// Whether a period has passed since the last advertisements, so that advertisements are owed
/// again.
pub fn is_owed(config: &Config, last: Option<Moment>, moment: Moment) -> bool
    ensures { result ≡ is_owed config.now last moment }
{
    match last {
        Some(last) => moment.0.saturating_sub(last.0) >= u64::from(config.period),
        None => false,
    }
}

#[tactic(auto, using(crate::proofs::AdvertMade::one_more, crate::proofs::AdvertMade::sendable))]
fn on_all_ports(alloc: Global, ports: u32, moment: Moment) -> Result<OutList, NoMemory>
    requires { ports ≤ 64 }
    ensures made { IfOk result (λ outs. outs ≡ at_moment moment (advertisements ports)) }
    ensures sendable { IfOk result (λ outs. (events : List Entry) → AreSendable events outs) }
{
    let mut outs = OutList::empty(alloc);
    for index in 0..ports as usize {
        let out = Out {
            port: PortNo::at(index),
            moment,
            message: OutMessage::Advertisement,
        };
        outs.push(alloc, out)?;
    }
    Ok(outs)
}
