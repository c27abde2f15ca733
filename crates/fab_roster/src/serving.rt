//! What live N_Ports ask of the services: logins to the name server, watchers, registrations.
ghost use Rattle.std.specs.Prelude.{◌≡◌, IsSome, IfSome, IsTrue, Some, None, true, option_map};
ghost use Rattle.ct_messages.specs.Ask.{view};
ghost use Rattle.ct_messages.specs.CanWrite.{CanWrite};
ghost use Rattle.ct_messages.specs.Server.{is_registration, registration_refusal, has_changed};
ghost use Rattle.ct_messages.specs.Server as server;
ghost use Rattle.fab_policy.specs.Changes.{with_server, with_watch, with_values};
ghost use Rattle.fab_policy.specs.State.{LivePort, port_at};
ghost use Rattle.fab_roster.specs.Changes.{ChangesPorts, IsSize, IsSoundRoll};
ghost use Rattle.fab_roster.specs.Roll.{Roll};
ghost use Rattle.name_server.specs.Registry.{codes};
ghost use Rattle.state_change.specs.Watchers.{is_function};

use crate::{RegFault, Roster};
use ct_messages::CtAsk;
use fab_base::FcId;

impl Roster {
    /// The receive size of a live address at the name server, in bytes; none is a logout there.
    pub fn set_server(&mut self, address: FcId, size: Option<u16>)
        requires live { IsSome (port_at address self.old.tables.ports) }
        requires size { IfSome size IsSize }
        ensures change { ChangesPorts (with_server address size) self.old self.new }
        ensures sound { IsSoundRoll self.new }
    {
        self.logins.set_server(address, size);
    }

    /// A live address asks with a function for state changes: 1, 2 or 3, or 255 for none.
    pub fn watch(&mut self, address: FcId, function: u8)
        requires live { IsSome (port_at address self.old.tables.ports) }
        requires function { IsTrue (is_function function) }
        ensures change { ChangesPorts (with_watch address function) self.old self.new }
        ensures sound { IsSoundRoll self.new }
    {
        let Some(login) = self.logins.by_address(address) else {
            unreachable!()
        };
        let name = login.name;
        self.watchers.set(address, name, function);
    }

    /// Why a registration of a live address is refused: reason and explanation (FC-GS-6, "Reject
    /// reason codes").
    pub fn refusal(&self, address: FcId, ask: &CtAsk<'_>) -> Option<RegFault>
        requires live { IsSome (port_at address self.now.tables.ports) }
        ensures { (p : LivePort) → port_at address self.now.tables.ports ≡ Some p
            → option_map codes result
            ≡ registration_refusal p.address p.values.node_name (view ask.now) }
    {
        self.registry.refusal(address, ask)
    }

    /// Whether a registration would change the FC-4 types or a feature of a live address.
    pub fn is_noticed(&self, address: FcId, ask: &CtAsk<'_>) -> bool
        requires live { IsSome (port_at address self.now.tables.ports) }
        requires registration { is_registration (view ask.now) ≡ true }
        ensures { (p : LivePort) → port_at address self.now.tables.ports ≡ Some p
            → result ≡ has_changed p.values (server.after p.node (view ask.now) p.values) }
    {
        self.registry.is_noticed(address, ask)
    }

    /// A registration of a live address, which isn't refused.
    pub fn register(&mut self, address: FcId, ask: &CtAsk<'_>)
        requires live { IsSome (port_at address self.old.tables.ports) }
        requires registration { is_registration (view ask.now) ≡ true }
        requires size { CanWrite (view ask.now) }
        requires allowed { (p : LivePort) → port_at address self.old.tables.ports ≡ Some p
            → registration_refusal p.address p.values.node_name (view ask.now) ≡ None }
        ensures change { ChangesPorts (with_values address (view ask.now)) self.old self.new }
        ensures sound { IsSoundRoll self.new }
    {
        let Ok(_) = self.registry.register(address, ask) else {
            unreachable!()
        };
    }
}
