//! What the name server answers a live N_Port.
ghost use Rattle.std.specs.Prelude.{◌≡◌, IfOk, IsSome, Some, false, map, filter, option_copied, option_to_list};
ghost use Rattle.ct_messages.specs.Ask.{view};
ghost use Rattle.ct_messages.specs.CanWrite.{CanTell};
ghost use Rattle.ct_messages.specs.Server as server;
ghost use Rattle.fab_policy.specs.Queries.{known_to};
ghost use Rattle.fab_policy.specs.State.{LivePort, port_at};
ghost use Rattle.fab_roster.specs.Reaching.{asked_of, zones_of, may_see, seen_port};
ghost use Rattle.login_table.specs.Logins.{added, login_at};

use crate::{Login, Roster};
use ct_messages::{CtAsk, CtTell};
use fab_base::{FcId, Moment, NoMemory};
use fab_config::Config;
use fab_policy::port_name;
use login_table::LoginTable;
use name_server::{Seen, SeenPort};
use std::alloc::Global;
use zone_rules::Zones;

impl Roster {
    /// The answer of the name server to a query of a live address, over the N_Ports that it may
    /// see: itself, and those that are joined with it at the clock. The zones are those of the
    /// configuration.
    pub fn answer(
        &self,
        alloc: Global,
        config: &Config,
        zones: &Zones,
        asker: FcId,
        ask: &CtAsk<'_>,
    ) -> Result<CtTell, NoMemory>
        requires zones { zones.now ≡ zones_of config.now }
        requires query { server.is_registration (view ask.now) ≡ false }
        requires live { IsSome (port_at asker self.now.tables.ports) }
        ensures answer { IfOk result (λ tell. (b : LivePort)
            → port_at asker self.now.tables.ports ≡ Some b
            → tell ≡ server.answer (known_to config.now self.now.tables b) (view ask.now)) }
        ensures writable { IfOk result CanTell }
    {
        let Some(login) = self.logins.by_address(asker) else {
            unreachable!()
        };
        let at = self.now();
        // A query of one N_Port needs no other but the asker.
        let seen = if let Some(address) = asked_of(ask) {
            let asked = seen_login(&self.logins, zones, at, login, address);
            seen_pair(alloc, config, login, asked)?
        } else {
            seen_by(alloc, &self.logins, config, zones, at, login)?
        };
        self.registry.answer(alloc, asker, ask, &seen)
    }
}

// The logins that one of them may see at a moment.
fn seen_by(
    alloc: Global,
    logins: &LoginTable,
    config: &Config,
    zones: &Zones,
    at: Moment,
    asker: &Login,
) -> Result<Seen, NoMemory>
    ensures { IfOk result (λ seen. seen
        ≡ map (seen_port config.now) (filter (may_see zones.now at asker.now) logins.now.logins)) }
{
    let mut seen = Seen::new(alloc)?;
    let mut from = 0;
    while let Some(login) = logins.login_from(from) {
        if may_see(zones, at, asker, login) {
            seen.push(alloc, seen_port(config, login))?;
        }
        from = login.address.value() + 1;
    }
    Ok(seen)
}

// The address that a query of one N_Port asks for.
fn asked_of(ask: &CtAsk<'_>) -> Option<FcId>
    ensures { result ≡ asked_of (view ask.now) }
{
    match *ask {
        CtAsk::PortNameOf(address)
        | CtAsk::NodeNameOf(address)
        | CtAsk::TypesOf(address)
        | CtAsk::FeaturesOf(address) => Some(address),
        _ => None,
    }
}

// The login of an address, if another may see it at a moment.
fn seen_login<'a>(
    logins: &'a LoginTable,
    zones: &Zones,
    at: Moment,
    asker: &Login,
    address: FcId,
) -> Option<&'a Login>
    ensures { option_copied result
        ≡ login_at address (filter (may_see zones.now at asker.now) logins.now.logins) }
{
    match logins.by_address(address) {
        Some(login) if may_see(zones, at, asker, login) => Some(login),
        _ => None,
    }
}

// A login and, where there is one, another that it sees.
fn seen_pair(
    alloc: Global,
    config: &Config,
    asker: &Login,
    asked: Option<&Login>,
) -> Result<Seen, NoMemory>
    ensures { IfOk result (λ seen. seen ≡ map (seen_port config.now)
        (added asker.now (option_to_list (option_copied asked.entry)))) }
{
    let mut seen = Seen::new(alloc)?;
    if let Some(login) = asked
        && login.address.value() < asker.address.value()
    {
        seen.push(alloc, seen_port(config, login))?;
    }
    seen.push(alloc, seen_port(config, asker))?;
    if let Some(login) = asked
        && asker.address.value() < login.address.value()
    {
        seen.push(alloc, seen_port(config, login))?;
    }
    Ok(seen)
}

// Whether a login may see another at a moment: it is the same, or a zone joins them.
fn may_see(zones: &Zones, at: Moment, asker: &Login, login: &Login) -> bool
    ensures { result ≡ may_see zones.now at asker.now login.now }
{
    login.address.value() == asker.address.value() || zones.joined(at, login.name, asker.name)
}

fn seen_port(config: &Config, login: &Login) -> SeenPort
    ensures { result ≡ seen_port config.now login.now }
{
    SeenPort {
        address: login.address,
        name: login.name,
        fabric_port: port_name(config, login.enode.port.value()),
    }
}
