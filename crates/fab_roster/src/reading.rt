//! What is known of the live N_Ports, one by one.
ghost use Rattle.std.specs.Prelude.{◌≡◌, ℕ, length, find, nat_le, ◌==◌, ◌&&◌, Some, None, option_map, option_copied};
ghost use Rattle.std.specs.Option.{option_map_or};
ghost use Rattle.fab_base.specs.Fabric.{past_at, same_enode};
ghost use Rattle.fab_policy.specs.State.{port_at};
ghost use Rattle.fab_roster.specs.Changes.{IsSoundRoll};
ghost use Rattle.fab_roster.specs.Roll.{login_of};

use crate::{Login, Roster};
use ct_messages::TypeMap;
use fab_base::{Enode, FcId, Moment, Wwn};
use fc_addresses::Past;
use keepalive_clock::Voice;
use name_server::Values;

impl Roster {
    /// The login of an address.
    pub fn by_address(&self, address: FcId) -> Option<&Login>
        ensures { option_copied result ≡ option_map login_of
            (port_at address self.now.tables.ports) }
    {
        self.logins.by_address(address)
    }

    /// The login of a port name.
    pub fn by_name(&self, name: Wwn) -> Option<&Login>
        ensures { option_copied result ≡ option_map login_of
            (find (λ p. p.name == name) self.now.tables.ports) }
    {
        self.logins.by_name(name)
    }

    /// The least live address that isn't below this one.
    pub fn next(&self, from: u32) -> Option<FcId>
        ensures { result ≡ option_map (λ p. p.address)
            (find (λ p. nat_le from p.address) self.now.tables.ports) }
    {
        self.logins.after(from)
    }

    /// The least live address of an ENode that isn't below this one.
    pub fn first_of(&self, enode: &Enode, from: u32) -> Option<FcId>
        ensures { result ≡ option_map (λ p. p.address)
            (find (λ p. nat_le from p.address && same_enode p.enode enode.now)
            self.now.tables.ports) }
    {
        self.logins.first_of(enode, from)
    }

    /// How many are live.
    pub fn len(&self) -> u32
        ensures count { result ≡ length self.now.tables.ports }
        ensures sound { IsSoundRoll self.now }
    {
        self.logins.len()
    }

    /// When the ENode of a live address was last heard, and when the address was.
    pub fn heard_at(&self, address: FcId) -> Option<(Moment, Moment)>
        ensures { result ≡ option_map (λ p. (p.node_heard, p.port_heard))
            (port_at address self.now.tables.ports) }
    {
        let login = self.by_address(address)?;
        self.heard(login)
    }

    // When the ENode of a login of the roster was last heard, and when its N_Port was.
    pub(crate) fn heard(&self, login: &Login) -> Option<(Moment, Moment)>
        requires live { option_map login_of (port_at login.now.address self.now.tables.ports)
            ≡ Some login.now }
        ensures { result ≡ option_map (λ p. (p.node_heard, p.port_heard))
            (port_at login.now.address self.now.tables.ports) }
    {
        let node = self.voices.last(&Voice::Node(login.enode))?;
        let port = self.voices.last(&Voice::Port(login.address))?;
        Some((node, port))
    }

    /// The FC-4 types that a live address registered.
    pub fn types(&self, address: FcId) -> Option<TypeMap>
        ensures { result ≡ option_map (λ p. p.values.types)
            (port_at address self.now.tables.ports) }
    {
        self.registry.types(address)
    }

    /// The registered node name of a live address.
    pub fn node_name(&self, address: FcId) -> Option<Wwn>
        ensures { result ≡ option_map (λ p. p.values.node_name)
            (port_at address self.now.tables.ports) }
    {
        self.registry.node_name(address)
    }

    /// All that a live address registered.
    pub fn values(&self, address: FcId) -> Option<&Values>
        ensures { option_copied result ≡ option_map (λ p. p.values)
            (port_at address self.now.tables.ports) }
    {
        self.registry.values(address)
    }

    /// What an address of the pool was used for, and none of another.
    pub fn past(&self, address: FcId) -> Option<Past>
        ensures { result ≡ past_at address self.now.tables.past }
    {
        self.pool.past(address)
    }

    /// The function with which a live address asked for state changes, and 0 where it didn't.
    pub fn watch_of(&self, address: FcId) -> u8
        ensures { result ≡ option_map_or (λ p. p.watch) (port_at address self.now.tables.ports) 0 }
    {
        self.watchers.function_of(address)
    }
}
