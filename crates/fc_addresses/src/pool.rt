//! The addresses of the pool, each with the name that had it last and the end of that login.
ghost use Rattle.std.specs.Prelude.{◌≡◌, ℕ, ◌+◌, ◌<◌, ◌≤◌, ◌^◌, IsTrue, IfOk, IfSome, is_some, length, vec_capacity};
ghost use Rattle.fc_addresses.specs.Pool.{unused, is_free, has_free, is_held, AreEndedBy, IsSound};
ghost use Rattle.fc_addresses.specs.Pool.{addresses, taken, released, HoldsAddress, EndsLogin};
ghost use Rattle.fc_addresses.specs.Pool.{never_had, HadAddress};
ghost use Rattle.fc_addresses.specs.Holders.{may_follow, past_of, IsUnusedPlace, IsOneOf};
ghost use Rattle.fc_addresses.specs.Holders.{owner_number, end_number, owner_of, release_of, left};
ghost use Rattle.fab_base.specs.Fabric.{past_at};
ghost use Rattle.fab_base.specs.Keyed.{AscendFrom};

use crate::Past;
use crate::released::{Owner, QUARANTINE, Release, over_place, owned_place};
use fab_base::{FcId, Moment, NoMemory, Wwn};
use sorted_lists::{HasRank, Tree, rank_put, rank_take};
use std::alloc::Global;
use std::marker::Model;

// The name that had an address last, and the end of its login.
#[derive(Clone, Copy, Debug, PartialEq, Eq)]
struct Holder {
    name: Option<Wwn>,
    ended: Option<Moment>,
}

impl Holder {
    // Whether a login of this name may have the address next.
    fn may_be_followed(&self, name: Wwn, now: Moment) -> bool
        ensures { result ≡ may_follow name now self.now }
    {
        match (self.name, self.ended) {
            (None, _) => true,
            (Some(_), None) => false,
            (Some(last), Some(end)) => last == name || now.0.saturating_sub(end.0) > QUARANTINE,
        }
    }

    // What its place says of an address.
    fn past(&self, address: FcId) -> Past
        ensures { result ≡ past_of address self.now }
    {
        Past {
            address,
            name: self.name,
            ended: self.ended,
        }
    }
}

// The first place that nobody had, of so many.
fn unused_place(unused: &Tree, places: usize) -> Option<u32>
    requires { places < 2 ^ 24 }
    ensures { IsUnusedPlace unused.now places result }
{
    match unused.first() {
        Some(place) => {
            if place < places {
                Some(place as u32)
            } else {
                None
            }
        }
        None => None,
    }
}

// The lesser of two places.
fn lesser(one: Option<u32>, other: Option<u32>) -> Option<u32>
    ensures { IsOneOf one other result }
{
    match (one, other) {
        (Some(x), Some(y)) => Some(x.min(y)),
        (Some(x), None) => Some(x),
        (None, y) => y,
    }
}

// The place isn't among those whose login ended any more.
fn unlist(owners: &mut Vec<Owner>, line: &mut Vec<Release>, place: u32, last: Holder)
    requires owners { AscendFrom owner_number 0 owners.old.items }
    requires line { AscendFrom end_number 0 line.old.items }
    ensures owners { owners.new.items ≡ left owner_number (owner_of place last) owners.old.items }
    ensures line { line.new.items ≡ left end_number (release_of place last) line.old.items }
    ensures owner_room { vec_capacity owners.new ≡ vec_capacity owners.old }
    ensures line_room { vec_capacity line.new ≡ vec_capacity line.old }
{
    match (last.name, last.ended) {
        (Some(name), Some(end)) => {
            rank_take(owners, Owner { name, place }.rank());
            rank_take(line, Release { end, place }.rank());
        }
        _ => {}
    }
}

/// The addresses that may be granted, in ascending order.
#[derive(Debug)]
pub struct Pool {
    first: u32,
    holders: Vec<Holder>,
    // The places that nobody had.
    unused: Tree,
    // The places whose login ended, by name and by end.
    owners: Vec<Owner>,
    line: Vec<Release>,
}

impl Drop for Pool {
    // By hand, so that it is dropped by one call.
    fn drop(self) {
        let Pool {
            first: _,
            holders: _holders,
            unused: _unused,
            owners: _owners,
            line: _line,
        } = self;
    }
}

impl Model for Pool {
    ghost use Rattle.std.specs.Prelude.{List, vec_capacity};
    ghost use Rattle.fab_base.specs.Fabric.{Past};

    ghost Value = { List Past };

    ghost use Rattle.fc_addresses.specs.Holders.{IsKept, pasts_from};

    ghost view = { λ p. pasts_from p.first p.holders.items };

    ghost invariant = { λ p. IsKept p.first
        p.holders.items
        p.unused
        p.owners.items
        p.line.items
        (vec_capacity p.owners)
        (vec_capacity p.line) };
}

impl Pool {
    /// The `count` addresses from `first` on, which nobody had yet.
    pub fn new(alloc: Global, first: FcId, count: u32) -> Result<Pool, NoMemory>
        requires { (k : ℕ) → k < count → first + k < 0xFF0000 }
        ensures { IfOk result (λ p. p ≡ unused first count) }
    {
        let nobody = Holder {
            name: None,
            ended: None,
        };
        let holders = vec![in alloc; nobody; count as usize]?;
        let unused = Tree::full(alloc, count)?;
        let owners = Vec::with_capacity(alloc, count as usize)?;
        let line = Vec::with_capacity(alloc, count as usize)?;
        Ok(Pool {
            first: first.value(),
            holders,
            unused,
            owners,
            line,
        })
    }

    /// An address that a login of this name may have at this moment.
    pub fn find(&self, name: Wwn, now: Moment) -> Option<FcId>
        ensures free { IfSome result (λ a. IsTrue (is_free self.now name now a)) }
        ensures some { is_some result ≡ has_free self.now name now }
        ensures sound { IsSound self.now }
    {
        let unused = unused_place(&self.unused, self.holders.len());
        let owned = owned_place(&self.owners, name);
        let over = over_place(&self.line, now);
        match lesser(unused, lesser(owned, over)) {
            Some(place) => FcId::new(self.first + place),
            None => None,
        }
    }

    /// Whether a login of this name may have the address at this moment.
    pub fn is_free(&self, address: FcId, name: Wwn, now: Moment) -> bool
        ensures free { result ≡ is_free self.now name now address }
        ensures sound { IsSound self.now }
    {
        let Some(place) = address.value().checked_sub(self.first) else {
            return false;
        };
        match self.holders.get(place as usize) {
            Some(holder) => holder.may_be_followed(name, now),
            None => false,
        }
    }

    /// The past of an address, if it is one of the pool.
    pub fn past(&self, address: FcId) -> Option<Past>
        ensures past { result ≡ past_at address self.now }
        ensures sound { IsSound self.now }
    {
        let Some(place) = address.value().checked_sub(self.first) else {
            return None;
        };
        match self.holders.get(place as usize) {
            Some(holder) => Some(holder.past(address)),
            None => None,
        }
    }

    /// A login of this name holds the address from now on.
    pub fn take(&mut self, address: FcId, name: Wwn, now: Moment)
        requires free { IsTrue (is_free self.old name now address) }
        ensures pool { self.new ≡ taken self.old address name }
        ensures found { HoldsAddress address name self.old self.new }
        ensures places { addresses self.new ≡ addresses self.old }
    {
        let place = address.value() - self.first;
        let held = Holder {
            name: Some(name),
            ended: None,
        };
        let last = self.holders[place as usize];
        self.holders[place as usize] = held;
        self.unused.clear(place as usize);
        unlist(&mut self.owners, &mut self.line, place, last);
    }

    /// The login that holds the address ends.
    pub fn release(&mut self, address: FcId, now: Moment)
        requires taken { IsTrue (is_held self.old address) }
        requires order { AreEndedBy now self.old }
        ensures pool { self.new ≡ released self.old address now }
        ensures found { EndsLogin address now self.old self.new }
        ensures places { addresses self.new ≡ addresses self.old }
        ensures order { AreEndedBy now self.new }
    {
        self.end_login(address, now);
    }

    /// A login of this name had the address until then, which nobody had yet. Of several addresses
    /// the ends come in any order.
    pub fn had(&mut self, address: FcId, name: Wwn, end: Moment)
        requires unused { past_at address self.old ≡ Some (never_had address) }
        ensures found { HadAddress address name end self.old self.new }
        ensures places { addresses self.new ≡ addresses self.old }
        ensures order { (now : ℕ) → end ≤ now → AreEndedBy now self.old → AreEndedBy now self.new }
    {
        self.take(address, name, end);
        self.end_login(address, end);
    }

    // The login that holds the address ended then.
    fn end_login(&mut self, address: FcId, end: Moment)
        requires { IsTrue (is_held self.old address) }
        ensures pool { self.new ≡ released self.old address end }
        ensures found { EndsLogin address end self.old self.new }
        ensures places { addresses self.new ≡ addresses self.old }
    {
        let place = address.value() - self.first;
        let holder = self.holders[place as usize];
        let Some(name) = holder.name else {
            unreachable!()
        };
        self.holders[place as usize] = Holder {
            name: Some(name),
            ended: Some(end),
        };
        rank_put(&mut self.owners, Owner::new(name, place));
        rank_put(&mut self.line, Release { end, place });
    }
}
