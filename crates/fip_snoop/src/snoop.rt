//! The bridge (FC-BB-5, "FIP snooping").
ghost use Rattle.std.specs.Prelude.{◌≡◌, ◌∷◌, [], IfOk, OnOk, OnErr};
ghost use Rattle.eth_frames.specs.Ethernet.{view as eth_view};
ghost use Rattle.heard_frames.specs.View.{view};
ghost use Rattle.fcoe_codec.specs.Fcoe.{view as fcoe_view};
ghost use Rattle.fip_snoop.specs.History.{History};
ghost use Rattle.fip_snoop.specs.Messages.{forwarder_of};
ghost use Rattle.fip_snoop.specs.Ways as ways;
ghost use Rattle.fip_snoop.specs.Snoop as kept;
ghost use Rattle.fip_snoop.specs.Snoop.{Remembers};
ghost use Rattle.fip_snoop.specs.Maps.{IsLike, IsKnownAlready};

use crate::bindings::Bindings;
use crate::down::{data_down, down};
use crate::forwarder::Forwarder;
use crate::home::Home;
use crate::homes::Homes;
use crate::up::{data_up, is_port_alive, up};
use crate::way::{SnoopRule, Way};
use eth_frames::EthFrame;
use fab_base::{Caught, NoMemory, PortNo};
use fab_config::Config;
use fcoe_codec::FcoeFrame;
use heard_frames::{Unreadable, What, hear};
use std::alloc::Global;
use std::marker::Model;

/// A bridge: port 1 is the forwarder's, the others are those of ENodes.
#[derive(Debug)]
pub struct Snoop {
    forwarder: Forwarder,
    homes: Homes,
    bindings: Bindings,
}

impl Drop for Snoop {
    // By hand, so that it is dropped by one call.
    fn drop(self) {
        let Snoop {
            forwarder: _,
            homes: _homes,
            bindings: _bindings,
        } = self;
    }
}

impl Model for Snoop {
    ghost use Rattle.fip_snoop.specs.Snoop.{Contents};

    ghost Value = { Contents };

    ghost view = { λ s. record {
      forwarder = s.forwarder;
      homes = s.homes;
      bindings = s.bindings;
    } };
}

impl Snoop {
    ghost use Rattle.std.specs.Prelude.{◌≡◌, ◌∷◌, [], IfOk, IsOk, OnOk, OnErr, Result};
    ghost use Rattle.eth_frames.specs.Ethernet.{Eth};
    ghost use Rattle.fcoe_codec.specs.Fcoe.{Fcoe};
    ghost use Rattle.fcoe_codec.specs.declared.FcoeFault.{FcoeFault};
    ghost use Rattle.heard_frames.specs.Heard as heard;
    ghost use Rattle.heard_frames.specs.Heard.{decoded};
    ghost use Rattle.heard_frames.specs.View.{view};
    ghost use Rattle.fip_snoop.specs.History.{History};
    ghost use Rattle.fip_snoop.specs.Messages.{forwarder_of};
    ghost use Rattle.fip_snoop.specs.Ways as ways;
    ghost use Rattle.fip_snoop.specs.Snoop as kept;
    ghost use Rattle.fip_snoop.specs.Snoop.{Remembers};
    ghost use Rattle.fip_snoop.specs.Maps.{IsLike, IsKnownAlready};
    ghost use Rattle.fip_snoop.specs.declared.forwarder.Forwarder as of_bridge;

    /// A bridge that has handled nothing, for the forwarder of a configuration.
    pub fn new(alloc: Global, config: &Config) -> Result<Snoop, NoMemory>
        ensures { IfOk result (λ s. Remembers (forwarder_of config.now) [] s) }
    {
        Ok(Snoop {
            forwarder: Forwarder::of(config),
            homes: Homes::new(alloc),
            bindings: Bindings::new(alloc),
        })
    }

    /// Handles a frame that came on a port, and says where it goes. Where memory is refused nothing
    /// changes; an FCoE frame is never refused any, nor is one that changes nothing. The allocator
    /// is handed in as to every call that may take memory; the lists that grow here keep their own.
    pub fn frame(&mut self, _alloc: Global, port: PortNo, caught: &Caught) -> Result<Way, NoMemory>
        ensures way { IfOk result (λ way. (w : of_bridge.Forwarder) (L : History)
            → Remembers w L self.old → way ≡ ways.way_of w L port caught.now) }
        ensures remembers { IfOk result (λ way. (w : of_bridge.Forwarder) (L : History)
            → Remembers w L self.old
            → Remembers w (record { port = port; caught = caught.now; way = way } ∷ L) self.new) }
        ensures err { OnErr result (self.new ≡ self.old) }
        ensures data { (f : Eth) (read : Result Fcoe FcoeFault)
            → decoded caught.now ≡ heard.Fcoe f read → IsOk result }
        ensures known { (w : of_bridge.Forwarder) (L : History) → Remembers w L self.old
            → Remembers w (record {
              port = port;
              caught = caught.now;
              way = ways.way_of w L port caught.now;
            } ∷ L) self.old → IsOk result }
    {
        let heard = hear(caught);
        let way = way_for(
            &self.forwarder,
            &self.homes,
            &self.bindings,
            port,
            &heard.what,
        );
        self.remember(port, &heard.what, &way)?;
        Ok(way)
    }

    // Keeps what a frame shows that goes this way.
    fn remember(&mut self, port: PortNo, what: &What<'_>, way: &Way) -> Result<(), NoMemory>
        ensures ok { OnOk result (IsLike self.new
            (kept.after port (view what.now) way.now self.old)) }
        ensures err { OnErr result (self.new ≡ self.old) }
        ensures known { IsKnownAlready port (view what.now) way.now self.old → IsOk result }
    {
        match what {
            What::Fip { eth, message } => match way {
                Way::Up if is_port_alive(message) => Ok(()),
                Way::Up => self.homes.put(Home { mac: eth.src, port }),
                Way::Down(to) => self
                    .bindings
                    .deliver(&self.forwarder, *to, &eth.dst, message),
                _ => Ok(()),
            },
            _ => Ok(()),
        }
    }
}

// The way of a decoded frame, by what is kept.
fn way_for(
    forwarder: &Forwarder,
    homes: &Homes,
    bindings: &Bindings,
    port: PortNo,
    what: &What<'_>,
) -> Way
    ensures { result ≡ kept.way_for forwarder.now homes.now bindings.now port
        (view what.now) }
{
    match what {
        What::Bad(fault) => Way::Dropped(rule_of(*fault)),
        What::Fip { eth, message } => {
            if port.value() == 1 {
                down(forwarder, eth, message, homes.at(&eth.dst))
            } else {
                let bound = bindings.at(&eth.src);
                let moved = bindings.is_elsewhere(port, &eth.src);
                up(forwarder, port, eth, message, &bound, moved)
            }
        }
        What::Fcoe { eth, read } => match read {
            Ok(body) => data_way(forwarder, bindings, port, eth, body),
            Err(_) => Way::Dropped(SnoopRule::FcoeFault),
        },
    }
}

fn data_way(
    forwarder: &Forwarder,
    bindings: &Bindings,
    port: PortNo,
    eth: &EthFrame<'_>,
    body: &FcoeFrame<'_>,
) -> Way
    ensures { result ≡ ways.data_way forwarder.now (kept.binding_in bindings.now) port
        (eth_view eth.now) (fcoe_view body.now) }
{
    if port.value() == 1 {
        let bound = bindings.at(&eth.dst);
        data_down(forwarder, eth, body, &bound)
    } else {
        let bound = bindings.at(&eth.src);
        data_up(forwarder, port, eth, body, &bound)
    }
}

// The rule of a frame that can't be read.
fn rule_of(fault: Unreadable) -> SnoopRule
    ensures { result ≡ ways.rule_of fault }
{
    match fault {
        Unreadable::Truncated => SnoopRule::Truncated,
        Unreadable::EthShort => SnoopRule::EthShort,
        Unreadable::Ethertype => SnoopRule::Ethertype,
        Unreadable::Fip(_) => SnoopRule::FipFault,
    }
}
