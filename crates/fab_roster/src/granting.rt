//! Addresses that may be granted, and grants.
ghost use Rattle.std.specs.Prelude.{◌≡◌, ◌<◌, ◌==◌, ◌&&◌, ◌||◌, ◌⊎◌, ℕ, length, IfSome, IsSome, IsTrue, Some, None, false, is_some};
ghost use Rattle.std.specs.List.{list_any};
ghost use Rattle.fab_base.specs.Fabric.{same_enode};
ghost use Rattle.fab_policy.specs.Free.{is_free, has_free};
ghost use Rattle.fab_policy.specs.State.{LivePort, port_at};
ghost use Rattle.fab_roster.specs.Changes.{Grants, IsSoundRoll};
ghost use Rattle.fab_roster.specs.Roll.{Roll};

use crate::{Login, Roster};
use fab_base::{Enode, FcId, Moment, Wwn};
use keepalive_clock::Voice;
use std::marker::Model;

/// A login request: whether it is a FLOGI, whose it is, and its port name.
#[derive(Clone, Copy, Debug, PartialEq, Eq)]
pub struct Request {
    pub flogi: bool,
    pub enode: Enode,
    pub name: Wwn,
}

impl Model for Request {
    ghost use Rattle.fab_policy.specs.Free as free;

    ghost Value = { free.Request };

    ghost view = { λ r. record { flogi = r.flogi; enode = r.enode; name = r.name } };

    ghost inverse = { λ r. record { flogi = r.flogi; enode = r.enode; name = r.name } };
}

impl Request {
    // Whether a FLOGI replaces this login: it is one of its own ENode and name.
    fn replaces(&self, login: &Login) -> bool
        ensures { result ≡ (self.now.flogi && same_enode login.now.enode self.now.enode
            && login.now.name == self.now.name) }
    {
        self.flogi && login.enode == self.enode && login.name == self.name
    }
}

impl Roster {
    /// Whether the address may be granted to the request.
    pub fn is_free(&self, request: &Request, address: FcId) -> bool
        ensures { result ≡ is_free self.now.tables request.now address }
    {
        match self.logins.by_address(address) {
            Some(login) => request.replaces(login),
            None => self.pool.is_free(address, request.name, self.now()),
        }
    }

    /// An address that may be granted to the request.
    pub fn find(&self, request: &Request) -> Option<FcId>
        ensures free { IfSome result (λ a. IsTrue (is_free self.now.tables request.now a)) }
        ensures some { is_some result ≡ has_free self.now.tables request.now }
    {
        let own = self.own(request);
        let free = self.pool.find(request.name, self.now());
        least_of(own, free)
    }

    // The address that the ENode of a FLOGI has for the same name.
    fn own(&self, request: &Request) -> Option<FcId>
        ensures free { IfSome result (λ a. IsTrue (is_free self.now.tables request.now a)) }
        ensures none { result ≡ None → (a : ℕ) (p : LivePort)
            → port_at a self.now.tables.ports ≡ Some p
            → (request.now.flogi && same_enode p.enode request.now.enode
            && p.name == request.now.name) ≡ false }
    {
        match self.logins.by_name(request.name) {
            Some(login) if request.replaces(login) => Some(login.address),
            _ => None,
        }
    }

    /// A login gets its address, which is free for its name and held by nobody.
    pub fn grant(&mut self, login: Login)
        requires clock { IsSome self.old.tables.clock }
        requires free { IsTrue (is_free self.old.tables
            (record { flogi = false; enode = login.enode; name = login.name }) login.address) }
        requires name { list_any (λ q. q.name == login.name) self.old.tables.ports ≡ false }
        requires room { length self.old.tables.ports < self.old.limit }
        requires server { login.server_size ≡ None }
        ensures change { Grants login.address
            (record { name = login.name; node = login.node; enode = login.enode })
            self.old self.new }
        ensures sound { IsSoundRoll self.new }
    {
        let Some(now) = self.clock else {
            unreachable!()
        };
        let Login {
            address,
            name,
            node,
            enode,
            ..
        } = login;
        self.pool.take(address, name, now);
        self.logins.add(login);
        self.voices.heard(Voice::Node(enode), now);
        self.voices.heard(Voice::Port(address), now);
        self.registry.enter(address, node);
    }
}

// The lesser of two addresses, of which either may be none.
fn least_of(a: Option<FcId>, b: Option<FcId>) -> Option<FcId>
    ensures one { (result ≡ a) ⊎ (result ≡ b) }
    ensures some { is_some result ≡ (is_some a || is_some b) }
{
    match (a, b) {
        (Some(x), Some(y)) if y.value() < x.value() => Some(y),
        (Some(x), _) => Some(x),
        (None, y) => y,
    }
}
