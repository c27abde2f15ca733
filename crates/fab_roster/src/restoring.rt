//! A roster that is made again, address by address: what addresses were used for, and live N_Ports
//! with all that is kept of them.
ghost use Rattle.std.specs.Prelude.{◌≡◌, ◌<◌, ◌≤◌, ◌==◌, ◌^◌, length, IfSome, IsSome, IsTrue, None, Some, false, if◌then◌else◌};
ghost use Rattle.std.specs.List.{list_any};
ghost use Rattle.fab_base.specs.Fabric.{past_at};
ghost use Rattle.fab_policy.specs.Free.{is_free};
ghost use Rattle.fab_policy.specs.State.{LivePort, now_of, port_at};
ghost use Rattle.fab_roster.specs.Changes.{ChangesPorts, IsSize, IsSoundRoll};
ghost use Rattle.fab_roster.specs.Restoring.{Had, Restores, heard_again, port_of, with_kept};
ghost use Rattle.fc_addresses.specs.Pool.{never_had};
ghost use Rattle.state_change.specs.Watchers.{is_function};

use crate::{Login, Roster};
use els_messages::scr::CLEAR;
use fab_base::{FcId, Moment, Wwn};
use keepalive_clock::Voice;
use name_server::Values;

impl Roster {
    /// A login of this name had the address until then, which nobody had yet.
    pub fn had(&mut self, address: FcId, name: Wwn, end: Moment)
        requires order { end ≤ now_of self.old.tables }
        requires unused { past_at address self.old.tables.past ≡ Some (never_had address) }
        ensures change { Had address name end self.old self.new }
        ensures sound { IsSoundRoll self.new }
    {
        self.pool.had(address, name, end);
    }

    /// A live N_Port with all that is kept of it, whose address nobody has. The other N_Ports of
    /// its ENode are heard with it.
    pub fn restore(
        &mut self,
        login: Login,
        node_heard: Moment,
        port_heard: Moment,
        watch: u8,
        values: &Values,
    )
        requires clock { IsSome self.old.tables.clock }
        requires free { IsTrue (is_free self.old.tables
            (record { flogi = false; enode = login.enode; name = login.name }) login.address) }
        requires name { list_any (λ q. q.name == login.name) self.old.tables.ports ≡ false }
        requires room { length self.old.tables.ports < self.old.limit }
        requires size { IfSome login.server_size IsSize }
        requires node { node_heard < 2 ^ 63 }
        requires port { port_heard < 2 ^ 63 }
        requires watch { watch ≤ 3 }
        ensures change { Restores (port_of login node_heard port_heard watch values.now)
            self.old self.new }
        ensures sound { IsSoundRoll self.new }
    {
        let Login {
            address,
            name,
            node,
            enode,
            server_size,
        } = login;
        self.grant(Login {
            address,
            name,
            node,
            enode,
            server_size: None,
        });
        self.hear_both(address, node_heard, port_heard);
        self.set_server(address, server_size);
        self.watch(address, asked_with(watch));
        self.set_values(address, values);
    }

    // The ENode and the N_Port of a live address were last heard at these moments.
    fn hear_both(&mut self, address: FcId, node: Moment, port: Moment)
        requires live { IsSome (port_at address self.old.tables.ports) }
        requires node { node < 2 ^ 63 }
        requires port { port < 2 ^ 63 }
        ensures change { (p : LivePort) → port_at address self.old.tables.ports ≡ Some p
            → ChangesPorts (heard_again address p.enode node port) self.old self.new }
        ensures sound { IsSoundRoll self.new }
    {
        let Some(login) = self.logins.by_address(address) else {
            unreachable!()
        };
        let enode = login.enode;
        self.voices.heard(Voice::Node(enode), node);
        self.voices.heard(Voice::Port(address), port);
    }

    // A live address has these values.
    fn set_values(&mut self, address: FcId, values: &Values)
        requires live { IsSome (port_at address self.old.tables.ports) }
        ensures change { ChangesPorts (with_kept address values.now) self.old self.new }
        ensures sound { IsSoundRoll self.new }
    {
        self.registry.set_values(address, values);
    }
}

// The function that an N_Port asks with which watches so.
fn asked_with(watch: u8) -> u8
    requires { watch ≤ 3 }
    ensures function { IsTrue (is_function result) }
    ensures watch { (if result == 255 then 0 else result) ≡ watch }
{
    if watch == 0 { CLEAR } else { watch }
}
