//! What a fabric knows of its live N_Ports.
ghost use Rattle.std.specs.Prelude.{◌≡◌, find, nat_le, option_map, option_copied};
ghost use Rattle.std.specs.Option.{option_map_or};
ghost use Rattle.fab_roster.specs.Roll.{login_of};
ghost use Rattle.forward_core.specs.Fabric.{live_at};

use crate::Fabric;
use ct_messages::TypeMap;
use fab_base::{FcId, Moment, Wwn};
use fab_roster::Login;

impl Fabric {
    /// The moment of the last tick, and none before the first.
    pub fn clock(&self) -> Option<Moment>
        ensures { result ≡ self.now.state.tables.clock }
    {
        self.roster.clock()
    }

    /// The login of an address.
    pub fn login(&self, address: FcId) -> Option<&Login>
        ensures { option_copied result ≡ option_map login_of (live_at address self.now) }
    {
        self.roster.by_address(address)
    }

    /// The least live address that isn't below this one.
    pub fn next_login(&self, from: u32) -> Option<FcId>
        ensures { result ≡ option_map (λ p. p.address)
            (find (λ p. nat_le from p.address) self.now.state.tables.ports) }
    {
        self.roster.next(from)
    }

    /// When the ENode of a live address was last heard, and when the address was.
    pub fn heard_at(&self, address: FcId) -> Option<(Moment, Moment)>
        ensures { result ≡ option_map (λ p. (p.node_heard, p.port_heard))
            (live_at address self.now) }
    {
        self.roster.heard_at(address)
    }

    /// The FC-4 types that a live address registered.
    pub fn types(&self, address: FcId) -> Option<TypeMap>
        ensures { result ≡ option_map (λ p. p.values.types) (live_at address self.now) }
    {
        self.roster.types(address)
    }

    /// The registered node name of a live address.
    pub fn node_name(&self, address: FcId) -> Option<Wwn>
        ensures { result ≡ option_map (λ p. p.values.node_name) (live_at address self.now) }
    {
        self.roster.node_name(address)
    }

    /// The function with which a live address asked for state changes, and 0 where it didn't.
    pub fn watch(&self, address: FcId) -> u8
        ensures { result ≡ option_map_or (λ p. p.watch) (live_at address self.now) 0 }
    {
        self.roster.watch_of(address)
    }
}
