//! The registry: its entries at places of their own, by address and by type.
ghost use Rattle.std.specs.Prelude.{◌≡◌, ℕ, ◌<◌, ◌≤◌, ◌^◌, if◌then◌else◌, ◌==◌, length, IfOk, IfErr, OnOk, OnErr, IsSome, Some, None, [], is_some, true, false, option_map, option_copied, slice_get};
ghost use Rattle.sorted_lists.specs.Row.{has};
ghost use Rattle.ct_messages.specs.Ask.{view};
ghost use Rattle.ct_messages.specs.CanWrite.{CanWrite, CanTell};
ghost use Rattle.ct_messages.specs.Server as server;
ghost use Rattle.name_server.specs.Registry.{Registrations, entry_at, entered, added, without, registered, with_registration, valued, with_values, refusal, is_noticed, codes, seen_at, AreEntered, known, SeenAscend, IsSound};
ghost use Rattle.name_server.specs.Views.{seen_of_type};

use crate::answers::answer_of;
use crate::entry::Entry;
use crate::placed::{Placed, place_of, take_place};
use crate::refusals::refusal_of;
use crate::seen::mark;
use crate::types::{TypeRows, next_of_type, no_types, put_types};
use crate::{RegFault, Seen, SeenPort, Values};
use ct_messages::{CtAsk, CtTell, TypeMap};
use fab_base::{FcId, HasAddress, NoMemory, Wwn};
use slab::Slab;
use sorted_lists::{Row, empty_row, rank_put};
use std::alloc::Global;
use std::marker::Model;

/// What a registration did.
#[derive(Clone, Copy, Debug, PartialEq, Eq)]
pub struct Change {
    /// The FC-4 types or a feature are others than before.
    pub noticed: bool,
}

/// What is registered of the N_Ports that are logged in, up to a number of them. No address comes
/// twice.
#[derive(Debug)]
pub struct Registry {
    room: u32,
    entries: Slab<Entry>,
    // The places of the entries, by address.
    index: Vec<Placed>,
    // The places of the entries, by type.
    types: TypeRows,
}

impl Drop for Registry {
    // By hand, so that it is dropped by one call.
    fn drop(self) {
        let Registry {
            room: _,
            entries: _entries,
            index: _index,
            types: _types,
        } = self;
    }
}

impl Model for Registry {
    ghost use Rattle.std.specs.Prelude.{vec_capacity};
    ghost use Rattle.name_server.specs.Registry.{Registrations};

    ghost Value = { Registrations };

    ghost use Rattle.name_server.specs.Places.{entries_of, HasPlaces};

    ghost view = { λ r. record { room = r.room; entries = entries_of r.entries r.index.items } };

    ghost invariant = { λ r. HasPlaces r.room
        r.entries
        r.index.items
        r.types.items
        (vec_capacity r.index) };
}

impl Registry {
    /// An empty registry with room for `room` N_Ports.
    pub fn new(alloc: Global, room: u32) -> Result<Registry, NoMemory>
        ensures empty { IfOk result (λ r. r ≡ record { room = room; entries = [] }) }
        ensures sound { IfOk result IsSound }
    {
        let entries = Slab::with_capacity(alloc, room as usize)?;
        let index = Vec::with_capacity(alloc, room as usize)?;
        let types = no_types(alloc, entries.capacity())?;
        Ok(Registry {
            room,
            entries,
            index,
            types,
        })
    }

    /// Enters an N_Port that logged in, with the node name of its login and nothing else.
    pub fn enter(&mut self, address: FcId, node: Wwn)
        requires room { length self.old.entries < self.old.room }
        requires address { entry_at address self.old.entries ≡ None }
        ensures entries { self.new ≡ record self.old {
          entries = added
              (entered address node) self.old.entries;
        } }
        ensures sound { IsSound self.new }
        ensures found { (a : ℕ) → entry_at a self.new.entries
            ≡ (if address == a then Some (entered address node) else entry_at a self.old.entries) }
    {
        let place = self.entries.insert_reserved(Entry::new(address, node));
        rank_put(&mut self.index, Placed::new(address, place));
    }

    /// Takes an N_Port out, with all that it registered. False where the address isn't there.
    pub fn forget(&mut self, address: FcId) -> bool
        ensures there { result ≡ is_some (entry_at address self.old.entries) }
        ensures entries { self.new
            ≡ record self.old { entries = without address self.old.entries } }
        ensures absent { result ≡ false → self.new ≡ self.old }
        ensures sound { IsSound self.new }
        ensures found { (a : ℕ) → entry_at a self.new.entries
            ≡ (if address == a then None else entry_at a self.old.entries) }
    {
        match take_place(&mut self.index, address) {
            Some(place) => {
                self.entries.remove(place);
                put_types(&mut self.types, place, TypeMap([0; 8]));
                true
            }
            None => false,
        }
    }

    /// The entry of an address.
    pub(crate) fn find(&self, address: FcId) -> Option<&Entry>
        ensures entry { option_copied result ≡ entry_at address self.now.entries }
        ensures sound { IsSound self.now }
    {
        match place_of(&self.index, address) {
            Some(place) => self.entries.get(place),
            None => None,
        }
    }

    /// The FC-4 types of an N_Port.
    pub fn types(&self, address: FcId) -> Option<TypeMap>
        ensures types { result ≡ option_map (λ e. e.values.types)
            (entry_at address self.now.entries) }
        ensures sound { IsSound self.now }
    {
        self.find(address).map(|entry| entry.types())
    }

    /// The registered node name of an N_Port.
    pub fn node_name(&self, address: FcId) -> Option<Wwn>
        ensures name { result ≡ option_map (λ e. e.values.node_name)
            (entry_at address self.now.entries) }
        ensures sound { IsSound self.now }
    {
        self.find(address).map(|entry| entry.node_name())
    }

    /// What is registered of an N_Port.
    pub fn values(&self, address: FcId) -> Option<&Values>
        ensures values { option_copied result ≡ option_map (λ e. e.values)
            (entry_at address self.now.entries) }
        ensures sound { IsSound self.now }
    {
        match self.find(address) {
            Some(entry) => Some(entry.values()),
            None => None,
        }
    }

    /// Why a registration of the asker would be refused; none where the asker isn't entered.
    pub fn refusal(&self, asker: FcId, ask: &CtAsk<'_>) -> Option<RegFault>
        ensures codes { option_map codes result
            ≡ refusal (view ask.now) (entry_at asker self.now.entries) }
        ensures sound { IsSound self.now }
    {
        match self.find(asker) {
            Some(entry) => refusal_of(entry.address(), entry.node_name(), ask),
            None => None,
        }
    }

    /// Whether a registration would change the FC-4 types or a feature of the asker.
    pub fn is_noticed(&self, asker: FcId, ask: &CtAsk<'_>) -> bool
        requires registration { server.is_registration (view ask.now) ≡ true }
        ensures noticed { result
            ≡ is_noticed (view ask.now) (entry_at asker self.now.entries) }
        ensures sound { IsSound self.now }
    {
        match self.find(asker) {
            Some(entry) => entry.is_changed_by(ask),
            None => false,
        }
    }

    /// Does a registration of the asker. Refused, nothing changes.
    pub fn register(&mut self, asker: FcId, ask: &CtAsk<'_>) -> Result<Change, RegFault>
        requires asker { IsSome (entry_at asker self.old.entries) }
        requires registration { server.is_registration (view ask.now) ≡ true }
        requires size { CanWrite (view ask.now) }
        ensures allowed { OnOk result (refusal (view ask.now) (entry_at asker self.old.entries)
            ≡ None) }
        ensures entries { OnOk result (self.new
            ≡ record self.old {
              entries = with_registration asker
                  (view ask.now) self.old.entries;
            }) }
        ensures found { OnOk result ((a : ℕ) → entry_at a self.new.entries
            ≡ option_map (registered asker (view ask.now)) (entry_at a self.old.entries)) }
        ensures noticed { IfOk result (λ change. change.noticed
            ≡ is_noticed (view ask.now) (entry_at asker self.old.entries)) }
        ensures refused { IfErr result (λ fault. refusal (view ask.now)
            (entry_at asker self.old.entries) ≡ Some (codes fault)) }
        ensures stays { OnErr result (self.new ≡ self.old) }
        ensures sound { IsSound self.new }
    {
        if let Some(fault) = self.refusal(asker, ask) {
            return Err(fault);
        }
        let Some(place) = place_of(&self.index, asker) else {
            unreachable!()
        };
        let Some(entry) = self.entries.get_mut(place) else {
            unreachable!()
        };
        let noticed = entry.register(ask);
        let types = entry.types();
        put_types(&mut self.types, place, types);
        Ok(Change { noticed })
    }

    /// Other values of an N_Port, in the place of those that it had.
    pub fn set_values(&mut self, address: FcId, values: &Values)
        requires { IsSome (entry_at address self.old.entries) }
        ensures entries { self.new ≡ record self.old {
          entries = with_values address values.now self.old.entries;
        } }
        ensures found { (a : ℕ) → entry_at a self.new.entries
            ≡ option_map (valued address values.now) (entry_at a self.old.entries) }
        ensures sound { IsSound self.new }
    {
        let Some(place) = place_of(&self.index, address) else {
            unreachable!()
        };
        let Some(entry) = self.entries.get_mut(place) else {
            unreachable!()
        };
        entry.set_values(values);
        put_types(&mut self.types, place, values.types());
    }

    /// The answer to a request that is no registration, over the N_Ports that the asker may see.
    /// All of them are entered, and `_asker` is among them.
    pub fn answer(
        &self,
        alloc: Global,
        _asker: FcId,
        ask: &CtAsk<'_>,
        seen: &Seen,
    ) -> Result<CtTell, NoMemory>
        requires query { server.is_registration (view ask.now) ≡ false }
        requires entered { AreEntered self.now.entries seen.now }
        requires asker { IsSome (seen_at _asker seen.now) }
        ensures answer { IfOk result (λ tell. tell
            ≡ server.answer (known self.now.entries seen.now) (view ask.now)) }
        ensures writable { IfOk result CanTell }
        ensures sound { IsSound self.now }
    {
        // For the proof: the table's invariant is known once a field is read.
        let _ = &self.room;
        answer_of(alloc, self, seen.ports(), ask)
    }

    /// A row with the bits of those of the seen N_Ports that have an FC-4 type.
    pub(crate) fn of_type(
        &self,
        alloc: Global,
        seen: &[SeenPort],
        kind: u8,
    ) -> Result<Row, NoMemory>
        requires { SeenAscend 0 seen.now }
        ensures bits { IfOk result (λ row. (i : ℕ) → has row.items i
            ≡ seen_of_type kind self.now.entries (slice_get seen.now i)) }
        ensures words { IfOk result (λ row. length row.items ≤ 2 ^ 58) }
    {
        let mut row = empty_row(alloc, seen.len())?;
        let mut from = 0;
        while let Some(place) = next_of_type(&self.types, kind, from) {
            let Some(entry) = self.entries.get(place) else {
                unreachable!()
            };
            mark(&mut row, seen, entry.address());
            from = place + 1;
        }
        Ok(row)
    }
}
