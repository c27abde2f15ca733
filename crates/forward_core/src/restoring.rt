//! A fabric that goes on from a seam that was read.
ghost use Rattle.std.specs.Prelude.{◌≡◌, ℕ, ◌<◌, ◌≤◌, ◌^◌, IfOk, IfErr, IfSome, is_some, [], Some};
ghost use Rattle.fab_base.specs.Fabric.{past_at};
ghost use Rattle.fab_policy.specs.State.{now_of};
ghost use Rattle.fab_roster.specs.Changes.{IsSoundRoll, KeepsBounds};
ghost use Rattle.fab_roster.specs.Reaching.{zones_of};
ghost use Rattle.fab_roster.specs.Restoring.{Restores};
ghost use Rattle.fab_state.specs.Fit.{IsFit};
ghost use Rattle.fc_addresses.specs.Pool.{never_had};
ghost use Rattle.forward_core.specs.Fabric.{empty_roll};
ghost use Rattle.forward_core.specs.Restoring.{AddsPast, AddsPasts, AddsPorts, AwaitsPasts, AwaitsPorts, AwaitsSeam, CanAdd};

use crate::Fabric;
use crate::fabric::empty_tables;
use crate::kept::kept_values;
use fab_base::{Moment, NoMemory, OwnedList};
use fab_config::Config;
use fab_roster::{Login, Roster};
use fab_state::{LivePort, Past, PastList, Seam};
use std::alloc::Global;
use zone_rules::Zones;

impl Fabric {
    /// A forwarder of this many ports that goes on from a seam. Where memory is refused, the
    /// configuration is handed back.
    pub fn restored(
        alloc: Global,
        config: Config,
        ports: u32,
        seam: &Seam,
    ) -> Result<Fabric, (Config, NoMemory)>
        requires ports { (1 ≤ ports) × (ports ≤ 64) }
        requires fit { IsFit config ports seam.now }
        ensures settings { IfOk result (λ f. (f.settings ≡ config) × (f.count ≡ ports)) }
        ensures state { IfOk result (λ f. f.state ≡ seam.now.state) }
        ensures nothing { IfOk result (λ f. (f.events ≡ []) × (f.outs ≡ [])) }
        ensures back { IfErr result (λ e. e.0 ≡ config) }
    {
        let (advertised, rscns) = counts_of(&config, seam);
        let Ok((zones, roster)) = restored_tables(alloc, &config, seam) else {
            return Err((config, NoMemory));
        };
        Ok(Fabric {
            config,
            ports,
            zones,
            roster,
            advertised,
            rscns,
            events: OwnedList::empty(alloc),
            outs: OwnedList::empty(alloc),
            handed_events: 0,
            handed_outs: 0,
            alloc,
        })
    }
}

// When the period of advertisements began, and how many state changes were sent.
fn counts_of(_config: &Config, seam: &Seam) -> (Option<Moment>, u32)
    requires fit { (n : ℕ) × IsFit _config.now n seam.now }
    ensures advertised { result.0 ≡ seam.now.state.advertised }
    ensures rscns { result.1 ≡ seam.now.state.rscns }
    ensures begun { is_some result.0 ≡ is_some seam.now.state.tables.clock }
    ensures range { IfSome result.0 (λ m. m < 2 ^ 63) }
    ensures few { result.1 < 65535 }
{
    (seam.state.advertised, seam.state.rscns as u32)
}

// The zones of a configuration and the roster of a seam.
fn restored_tables(alloc: Global, config: &Config, seam: &Seam) -> Result<(Zones, Roster), NoMemory>
    requires fit { (n : ℕ) × IsFit config.now n seam.now }
    ensures zones { IfOk result (λ t. t.0 ≡ zones_of config.now) }
    ensures bounds { IfOk result (λ t. KeepsBounds (empty_roll config.now) t.1) }
    ensures tables { IfOk result (λ t. t.1.tables ≡ seam.now.state.tables) }
    ensures sound { IfOk result (λ t. IsSoundRoll t.1) }
{
    let (zones, mut roster) = empty_tables(alloc, config)?;
    fill(&mut roster, seam);
    Ok((zones, roster))
}

// An empty roster gets what a seam says.
fn fill(roster: &mut Roster, seam: &Seam)
    requires awaits { AwaitsSeam seam.now roster.old }
    requires sound { IsSoundRoll roster.old }
    ensures bounds { KeepsBounds roster.old roster.new }
    ensures tables { roster.new.tables ≡ seam.now.state.tables }
    ensures sound { IsSoundRoll roster.new }
{
    if let Some(clock) = clock_of(seam) {
        roster.set_clock(clock);
        add_pasts(roster, past_of(seam));
        add_ports(roster, seam);
    }
}

// The clock of a seam, none before the first tick.
fn clock_of(seam: &Seam) -> Option<Moment>
    ensures { result ≡ seam.now.state.tables.clock }
{
    seam.state.tables.clock
}

// The pasts of the addresses of a seam.
fn past_of(seam: &Seam) -> &PastList
    ensures { result.now ≡ seam.now.state.tables.past }
{
    &seam.state.tables.past
}

// The addresses get their pasts, as far as their logins ended.
fn add_pasts(roster: &mut Roster, past: &PastList)
    requires awaits { AwaitsPasts past.now roster.old }
    requires sound { IsSoundRoll roster.old }
    ensures change { AddsPasts past.now roster.old roster.new }
    ensures sound { IsSoundRoll roster.new }
{
    let mut rest = past.items();
    'pasts: while let Some((past, behind)) = rest.split_first() {
        add_past(roster, past);
        rest = behind;
    }
}

// An address that nobody had gets its past, if its login ended.
fn add_past(roster: &mut Roster, past: &Past)
    requires sound { IsSoundRoll roster.old }
    requires order { IfSome past.now.ended (λ t. t ≤ now_of roster.old.tables) }
    requires unused { past_at past.now.address roster.old.tables.past
        ≡ Some (never_had past.now.address) }
    ensures change { AddsPast past.now roster.old roster.new }
    ensures sound { IsSoundRoll roster.new }
{
    if let Some(name) = past.name {
        if let Some(end) = past.ended {
            roster.had(past.address, name, end);
        }
    }
}

// The N_Ports of a seam are logged in again.
fn add_ports(roster: &mut Roster, seam: &Seam)
    requires awaits { AwaitsPorts seam.now roster.old }
    requires sound { IsSoundRoll roster.old }
    ensures change { AddsPorts seam.now roster.old roster.new }
    ensures sound { IsSoundRoll roster.new }
{
    let mut rest = seam.state.tables.ports.items();
    'ports: while let Some((port, behind)) = rest.split_first() {
        add_port(roster, port);
        rest = behind;
    }
}

// An N_Port is logged in again.
fn add_port(roster: &mut Roster, port: &LivePort)
    requires can { CanAdd port.now roster.old }
    ensures change { Restores port.now roster.old roster.new }
    ensures sound { IsSoundRoll roster.new }
{
    let login = Login {
        address: port.address,
        name: port.name,
        node: port.node,
        enode: port.enode,
        server_size: port.server,
    };
    let values = kept_values(&port.values);
    roster.restore(login, port.node_heard, port.port_heard, port.watch, &values);
}
