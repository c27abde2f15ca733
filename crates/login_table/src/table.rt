//! The table: each login at a place of its own, and the places in three orders.
ghost use Rattle.std.specs.Prelude.{◌≡◌, ℕ, ◌<◌, if◌then◌else◌, ◌==◌, length, IfOk, Some, None, [], is_some, true, false, option_copied, option_map, find, nat_le};
ghost use Rattle.fab_base.specs.Fabric.{same_enode};
ghost use Rattle.login_table.specs.Logins.{Logins, login_at, named, next_of, added, sized, with_server, without, IsSound};

use crate::Login;
use crate::orders::{
    ByAddress, ByEnode, ByName, first_behind, first_from, known, login_by, place_of,
};
use fab_base::{Enode, FcId, NoMemory, Wwn};
use slab::Slab;
use sorted_lists::{order_next, order_put, order_take};
use std::alloc::Global;
use std::marker::Model;

/// The live logins, up to a limit. No address and no port name comes twice.
#[derive(Debug)]
pub struct LoginTable {
    limit: u32,
    logins: Slab<Login>,
    // The places of the logins, in each of their orders.
    by_address: Vec<usize>,
    by_name: Vec<usize>,
    by_enode: Vec<usize>,
}

impl Drop for LoginTable {
    // By hand, so that it is dropped by one call.
    fn drop(self) {
        let LoginTable {
            limit: _,
            logins: _logins,
            by_address: _by_address,
            by_name: _by_name,
            by_enode: _by_enode,
        } = self;
    }
}

impl Model for LoginTable {
    ghost use Rattle.sorted_lists.specs.Orders.{seen};
    ghost use Rattle.login_table.specs.Logins.{Logins};

    ghost Value = { Logins };

    ghost use Rattle.login_table.specs.Sound.{IsTableKept};

    ghost view = { λ t. record { limit = t.limit; logins = seen t.logins t.by_address.items } };

    ghost invariant = { λ t. IsTableKept t.limit t.logins t.by_address t.by_name t.by_enode };
}

impl LoginTable {
    /// An empty table with room for `limit` logins.
    pub fn new(alloc: Global, limit: u32) -> Result<LoginTable, NoMemory>
        ensures empty { IfOk result (λ t. t ≡ record { limit = limit; logins = [] }) }
        ensures sound { IfOk result IsSound }
    {
        let logins = Slab::with_capacity(alloc, limit as usize)?;
        let by_address = Vec::with_capacity(alloc, limit as usize)?;
        let by_name = Vec::with_capacity(alloc, limit as usize)?;
        let by_enode = Vec::with_capacity(alloc, limit as usize)?;
        Ok(LoginTable {
            limit,
            logins,
            by_address,
            by_name,
            by_enode,
        })
    }

    /// Adds a login.
    pub fn add(&mut self, login: Login)
        requires room { length self.old.logins < self.old.limit }
        requires address { login_at login.address self.old.logins ≡ None }
        requires name { named login.name self.old.logins ≡ None }
        ensures logins { self.new ≡ record self.old { logins = added login self.old.logins } }
        ensures sound { IsSound self.new }
        ensures found { (a : ℕ) → login_at a self.new.logins
            ≡ (if login.address == a then Some login else login_at a self.old.logins) }
        ensures named { (name : ℕ) → named name self.new.logins
            ≡ (if login.name == name then Some login else named name self.old.logins) }
    {
        // For the proof: the numbers of the ENode and the address are in their ranges.
        known(&login);
        let place = self.logins.insert_reserved(login);
        order_put(&ByAddress, &self.logins, &mut self.by_address, place);
        order_put(&ByName, &self.logins, &mut self.by_name, place);
        order_put(&ByEnode, &self.logins, &mut self.by_enode, place);
    }

    /// The login of an address.
    pub fn by_address(&self, address: FcId) -> Option<&Login>
        ensures login { option_copied result ≡ login_at address self.now.logins }
        ensures sound { IsSound self.now }
    {
        login_by(
            &ByAddress,
            &self.logins,
            &self.by_address,
            address.value() as u128,
        )
    }

    /// The login of a port name.
    pub fn by_name(&self, name: Wwn) -> Option<&Login>
        ensures login { option_copied result ≡ named name self.now.logins }
        ensures sound { IsSound self.now }
    {
        login_by(&ByName, &self.logins, &self.by_name, name.0 as u128)
    }

    /// Sets the receive size at the name server. False where the address has no login.
    pub fn set_server(&mut self, address: FcId, size: Option<u16>) -> bool
        ensures there { result ≡ is_some (login_at address self.old.logins) }
        ensures logins { self.new
            ≡ record self.old { logins = with_server address size self.old.logins } }
        ensures sound { IsSound self.new }
        ensures absent { result ≡ false → self.new ≡ self.old }
        ensures found { (a : ℕ) → login_at a self.new.logins
            ≡ option_map (sized address size) (login_at a self.old.logins) }
    {
        match place_of(&self.logins, &self.by_address, address) {
            Some(place) => {
                self.logins[place].server_size = size;
                true
            }
            None => false,
        }
    }

    /// The least address of the ENode's logins that isn't below `from`.
    pub fn first_of(&self, enode: &Enode, from: u32) -> Option<FcId>
        ensures first { result ≡ next_of (λ l. same_enode l.enode enode.now) from self.now.logins }
        ensures sound { IsSound self.now }
    {
        first_behind(&self.logins, &self.by_enode, enode, from)
    }

    /// Removes the login of an address, and hands it out.
    pub fn remove(&mut self, address: FcId) -> Option<Login>
        ensures login { result ≡ login_at address self.old.logins }
        ensures logins { self.new ≡ record self.old { logins = without address self.old.logins } }
        ensures sound { IsSound self.new }
        ensures absent { result ≡ None → self.new ≡ self.old }
        ensures found { (a : ℕ) → login_at a self.new.logins
            ≡ (if address == a then None else login_at a self.old.logins) }
    {
        match place_of(&self.logins, &self.by_address, address) {
            Some(place) => {
                order_take(&ByAddress, &self.logins, &mut self.by_address, place);
                order_take(&ByName, &self.logins, &mut self.by_name, place);
                order_take(&ByEnode, &self.logins, &mut self.by_enode, place);
                Some(self.logins.remove(place))
            }
            None => None,
        }
    }

    /// The least live address that isn't below `from`.
    pub fn after(&self, from: u32) -> Option<FcId>
        ensures first { result ≡ next_of (λ l. true) from self.now.logins }
        ensures sound { IsSound self.now }
    {
        first_from(&self.logins, &self.by_address, from)
    }

    /// The login of the least live address that isn't below `from`.
    pub fn login_from(&self, from: u32) -> Option<&Login>
        ensures first { option_copied result
            ≡ find (λ l. nat_le from l.address) self.now.logins }
        ensures sound { IsSound self.now }
    {
        order_next(&ByAddress, &self.logins, &self.by_address, from as u128)
    }

    /// How many logins there are.
    pub fn len(&self) -> u32
        ensures count { result ≡ length self.now.logins }
        ensures sound { IsSound self.now }
    {
        self.by_address.len() as u32
    }
}
