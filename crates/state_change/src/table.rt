//! The watchers in ascending order of addresses.
ghost use Rattle.std.specs.Prelude.{◌≡◌, ℕ, ◌+◌, ◌<◌, ◌≤◌, if◌then◌else◌, ◌==◌, length, IfOk, IsTrue, Some, None, [], is_some, true, false};
ghost use Rattle.state_change.specs.Watchers.{Watching, watcher_at, function_at, set_to, without, asked, after_ask, is_function, is_asking, HasPlace, recipients, changed, first_from, IsSound};

use crate::search::place_of;
use crate::watcher::ByAddress;
use crate::{Watcher, search};
use els_messages::scr::CLEAR;
use fab_base::{FcId, Moment, NoMemory, Wwn};
use slab::Slab;
use sorted_lists::{order_put, order_take};
use std::alloc::Global;
use std::marker::Model;
use zone_rules::Zones;

/// The watchers, as many as there is room for. No address comes twice.
#[derive(Debug)]
pub struct Watchers {
    room: u32,
    watchers: Slab<Watcher>,
    // Their places, by address.
    places: Vec<usize>,
}

impl Drop for Watchers {
    // By hand, so that it is dropped by one call.
    fn drop(self) {
        let Watchers {
            room: _,
            watchers: _watchers,
            places: _places,
        } = self;
    }
}

impl Model for Watchers {
    ghost use Rattle.std.specs.Prelude.{vec_capacity};
    ghost use Rattle.state_change.specs.Watchers.{Watching};

    ghost Value = { Watching };

    ghost use Rattle.sorted_lists.specs.Orders.{seen};
    ghost use Rattle.state_change.specs.Sound.{HasRoom};

    ghost view = { λ t. record { room = t.room; watchers = seen t.watchers t.places.items } };

    ghost invariant = { λ t. HasRoom t.room t.watchers t.places.items (vec_capacity t.places) };
}

impl Watchers {
    /// No watchers, and room for this many.
    pub fn new(alloc: Global, room: u32) -> Result<Watchers, NoMemory>
        ensures empty { IfOk result (λ t. t ≡ record { room = room; watchers = [] }) }
        ensures sound { IfOk result IsSound }
    {
        let watchers = Slab::with_capacity(alloc, room as usize)?;
        let places = Vec::with_capacity(alloc, room as usize)?;
        Ok(Watchers {
            room,
            watchers,
            places,
        })
    }

    /// An N_Port asks with a function: 1, 2 or 3 for state changes, in the place of what it asked
    /// before, or 255 for none.
    pub fn set(&mut self, address: FcId, name: Wwn, function: u8)
        requires function { IsTrue (is_function function) }
        requires room { HasPlace address function self.old }
        ensures watchers { self.new
            ≡ record self.old { watchers = after_ask address name function self.old.watchers } }
        ensures count { length self.new.watchers ≤ length self.old.watchers + 1 }
        ensures sound { IsSound self.new }
        ensures found { (a : ℕ) → watcher_at a self.new.watchers
            ≡ (if address == a then asked address name function
            else watcher_at a self.old.watchers) }
    {
        self.forget(address);
        if function != CLEAR {
            self.add(Watcher {
                address,
                name,
                function,
            });
        }
    }

    // Adds a watcher.
    fn add(&mut self, watcher: Watcher)
        requires room { length self.old.watchers < self.old.room }
        requires address { watcher_at watcher.address self.old.watchers ≡ None }
        requires function { IsTrue (is_asking watcher.function) }
        ensures watchers { self.new
            ≡ record self.old { watchers = set_to watcher self.old.watchers } }
        ensures count { length self.new.watchers ≡ length self.old.watchers + 1 }
        ensures sound { IsSound self.new }
        ensures found { (a : ℕ) → watcher_at a self.new.watchers
            ≡ (if watcher.address == a then Some watcher else watcher_at a self.old.watchers) }
    {
        let place = self.watchers.insert_reserved(watcher);
        order_put(&ByAddress, &self.watchers, &mut self.places, place);
    }

    /// Removes the watcher of an address. False where there is none.
    pub fn forget(&mut self, address: FcId) -> bool
        ensures there { result ≡ is_some (watcher_at address self.old.watchers) }
        ensures watchers { self.new
            ≡ record self.old { watchers = without address self.old.watchers } }
        ensures count { length self.new.watchers ≤ length self.old.watchers }
        ensures room { result ≡ true → length self.new.watchers < self.new.room }
        ensures sound { IsSound self.new }
        ensures absent { result ≡ false → self.new ≡ self.old }
        ensures found { (a : ℕ) → watcher_at a self.new.watchers
            ≡ (if address == a then None else watcher_at a self.old.watchers) }
    {
        match place_of(&self.watchers, &self.places, address) {
            Some(place) => {
                order_take(&ByAddress, &self.watchers, &mut self.places, place);
                self.watchers.remove(place);
                true
            }
            None => false,
        }
    }

    /// The function that an address asked with, or 0 where it is no watcher.
    pub fn function_of(&self, address: FcId) -> u8
        ensures function { result ≡ function_at address self.now.watchers }
        ensures sound { IsSound self.now }
    {
        match place_of(&self.watchers, &self.places, address) {
            Some(place) => self.watchers[place].function,
            None => 0,
        }
    }

    /// The least watcher that isn't below `from`, and that a change of the affected name reaches at
    /// a moment: it asked with function 1 or 3, and a zone joins it with that name.
    pub fn next_recipient(
        &self,
        zones: &Zones,
        at: Moment,
        affected: Wwn,
        from: u32,
    ) -> Option<FcId>
        ensures first { result ≡ first_from from
            (recipients zones.now at affected self.now.watchers) }
        ensures sound { IsSound self.now }
    {
        search::next_recipient(&self.watchers, &self.places, zones, at, affected, from)
    }

    /// The least watcher that isn't below `from`, asked with function 1 or 3, and is joined with
    /// the affected name at one of two moments but not at the other.
    pub fn next_changed(
        &self,
        zones: &Zones,
        before: Moment,
        at: Moment,
        affected: Wwn,
        from: u32,
    ) -> Option<FcId>
        ensures first { result ≡ first_from from
            (changed zones.now before at affected self.now.watchers) }
        ensures sound { IsSound self.now }
    {
        search::next_changed(
            &self.watchers,
            &self.places,
            zones,
            before,
            at,
            affected,
            from,
        )
    }
}
