//! The configuration of a load.
ghost use Rattle.std.specs.Prelude.{◌≡◌, IfOk};
ghost use Rattle.fab_vectors.specs.Settings as spec;

use crate::LOGINS;
use crate::names::{FORWARDER, TAG, port_name};
use fab_base::{Bytes, NoMemory, PortNo, Wwn};
use fab_config::{ActivationList, Config, NameList, SetList, Zone, ZoneList};
use std::alloc::Global;

/// The name of the forwarder as a switch.
const SWITCH: Wwn = Wwn(0x1000_0005_1e00_0002);

/// The configuration.
pub(crate) fn settings(alloc: Global) -> Result<Config, NoMemory>
    ensures { IfOk result (λ c. c ≡ spec.settings) }
{
    let zones = zones(alloc)?;
    Ok(Config {
        switch: SWITCH,
        fcf_mac: FORWARDER,
        fc_map: 0x0e_fc00,
        vlan: TAG,
        domain: 1,
        pool: 256,
        priority: 128,
        period: 8000,
        window: 100,
        limit: 240,
        zones,
        sets: SetList::empty(alloc),
        activations: ActivationList::empty(alloc),
    })
}

// A zone for each login that a port has.
#[tactic(auto, unfolding(crate::specs::Settings::zones))]
fn zones(alloc: Global) -> Result<ZoneList, NoMemory>
    ensures { IfOk result (λ l. l ≡ spec.zones) }
{
    let mut zones = ZoneList::empty(alloc);
    for login in 0..LOGINS {
        let zone = zone(alloc, login)?;
        zones.push(alloc, zone)?;
    }
    Ok(zones)
}

// The zone of the logins of one number.
fn zone(alloc: Global, login: u8) -> Result<Zone, NoMemory>
    ensures { IfOk result (λ z. z ≡ spec.zone login) }
{
    let members = members(alloc, login)?;
    let name = format!(in alloc; "z{login}")?;
    let name = Bytes::copy(alloc, name.as_bytes())?;
    Ok(Zone { name, members })
}

// The port names of the logins of one number.
#[tactic(auto, unfolding(crate::specs::Settings::members))]
fn members(alloc: Global, login: u8) -> Result<NameList, NoMemory>
    ensures { IfOk result (λ l. l ≡ spec.members login) }
{
    let mut members = NameList::empty(alloc);
    for index in 0..8 {
        members.push(alloc, port_name(PortNo::at(index), login))?;
    }
    Ok(members)
}
