//! A forwarder: its configuration, who is logged in, and what happened and was sent.
ghost use Rattle.std.specs.Prelude.{◌≡◌, ◌≤◌, IfOk, IfErr, [], map};
ghost use Rattle.fab_policy.specs.Journal.{Journal};
ghost use Rattle.fab_policy.specs.Outputs.{state_of};
ghost use Rattle.fab_policy.specs.Standing.{Stands, drained};
ghost use Rattle.fab_sending.specs.Message.{sent_of};
ghost use Rattle.forward_core.specs.Fabric.{AreRanged, empty_roll};
ghost use Rattle.fab_roster.specs.Changes.{IsSoundRoll};
ghost use Rattle.fab_roster.specs.Reaching.{zones_of};

use crate::Drained;
use crate::due::in_range;
use fab_base::{FcId, Moment, NoMemory, OwnedList};
use fab_config::Config;
use fab_policy::fabric_steps;
use fab_roster::Roster;
use fab_sending::{EventList, OutList};
use std::alloc::Global;
use std::marker::Model;
use std::mem;
use zone_rules::Zones;

/// A forwarder of some ports.
pub struct Fabric {
    pub(crate) config: Config,
    pub(crate) ports: u32,
    pub(crate) zones: Zones,
    pub(crate) roster: Roster,
    /// When the period of advertisements began that runs; none before the first tick.
    pub(crate) advertised: Option<Moment>,
    /// How many state changes were sent, modulo 65535.
    pub(crate) rscns: u32,
    pub(crate) events: EventList,
    pub(crate) outs: OutList,
    /// How many entries and frames the last drain handed out: the next lists begin with this room.
    pub(crate) handed_events: usize,
    pub(crate) handed_outs: usize,
    /// For empty lists, which take no memory.
    pub(crate) alloc: Global,
}

impl Drop for Fabric {
    // Written by hand, so that a fabric is dropped by one call wherever it is owned: a derived drop
    // stands there field by field, and is proved there.
    fn drop(self) {
        let Fabric {
            config: _config,
            ports: _,
            zones: _zones,
            roster: _roster,
            advertised: _,
            rscns: _,
            events: _events,
            outs: _outs,
            handed_events: _,
            handed_outs: _,
            alloc: _,
        } = self;
    }
}

impl Model for Fabric {
    ghost use Rattle.fab_policy.specs.Standing.{Contents};
    ghost use Rattle.forward_core.specs.Fabric.{contents_of, IsFabric};

    ghost Value = { Contents };

    ghost view = { contents_of };

    ghost invariant = { IsFabric };
}

impl Fabric {
    /// A forwarder of this many ports to which nothing has happened. Where memory is refused, the
    /// configuration is handed back.
    pub fn new(alloc: Global, config: Config, ports: u32) -> Result<Fabric, (Config, NoMemory)>
        requires { (1 ≤ ports) × (ports ≤ 64) }
        ensures settings { IfOk result (λ f. (f.settings ≡ config) × (f.count ≡ ports)) }
        ensures state { IfOk result (λ f. f.state ≡ state_of config []) }
        ensures nothing { IfOk result (λ f. (f.events ≡ []) × (f.outs ≡ [])) }
        ensures stands { IfOk result (λ f. Stands f []) }
        ensures back { IfErr result (λ e. e.0 ≡ config) }
    {
        // Law: before anything happened a fabric represents the empty journal; the clause stands.
        fabric_steps();
        let Ok((zones, roster)) = empty_tables(alloc, &config) else {
            return Err((config, NoMemory));
        };
        Ok(Fabric {
            config,
            ports,
            zones,
            roster,
            advertised: None,
            rscns: 0,
            events: OwnedList::empty(alloc),
            outs: OwnedList::empty(alloc),
            handed_events: 0,
            handed_outs: 0,
            alloc,
        })
    }

    /// The configuration.
    pub fn config(&self) -> &Config
        ensures { result.now ≡ self.now.settings }
    {
        &self.config
    }

    /// Hands out what happened and was sent since the last drain, and forgets it. It takes no
    /// memory: the lists that it leaves have no room yet.
    pub fn drain(&mut self) -> Drained
        ensures fabric { self.new ≡ drained self.old }
        ensures events { result.events ≡ self.old.events }
        ensures outs { map (sent_of self.old.settings self.old.events) result.outs
            ≡ self.old.outs }
        ensures ranged { AreRanged self.old.events }
        ensures stands { (J : Journal) → Stands self.old J → Stands self.new J }
    {
        // Law: after a drain a fabric represents the same journals; the clause stands.
        fabric_steps();
        self.handed_events = self.events.len();
        self.handed_outs = self.outs.len();
        let events = mem::replace(&mut self.events, OwnedList::empty(self.alloc));
        let outs = mem::replace(&mut self.outs, OwnedList::empty(self.alloc));
        Drained { events, outs }
    }
}

// The zones of a configuration and a roster without logins.
pub(crate) fn empty_tables(alloc: Global, config: &Config) -> Result<(Zones, Roster), NoMemory>
    ensures zones { IfOk result (λ t. t.0 ≡ zones_of config.now) }
    ensures roster { IfOk result (λ t. t.1 ≡ empty_roll config.now) }
    ensures sound { IfOk result (λ t. IsSoundRoll t.1) }
{
    // For the proof: the values of the configuration are in their ranges.
    in_range(config);
    let zones = Zones::build(alloc, &config.zones, &config.sets, &config.activations)?;
    let Some(lowest) = FcId::new(u32::from(config.domain) * 65536 + 256) else {
        unreachable!()
    };
    let roster = Roster::new(alloc, lowest, config.pool, config.limit, config.period)?;
    Ok((zones, roster))
}
