//! Owned lists, which every contract sees as the list of their items.
ghost use Rattle.std.specs.Prelude.{◌≡◌, List, ℕ, ◌++◌, ◌∷◌, [], length, nat_lt, IfOk, OnOk, OnErr, IsNone, ◌↔◌, slice_get};
ghost use Rattle.std.specs.List.{AllPass};
ghost use Rattle.std.specs.Option.{option_copied, option_to_list};

use crate::{FcId, NoMemory};
use std::alloc::Global;
use std::marker::Model;

/// An owned list of bytes.
#[derive(Debug, Drop)]
pub struct Bytes {
    items: Vec<u8>,
}

impl Model for Bytes {
    ghost Value = { List ℕ };

    ghost view = { λ b. b.items.items };
}

impl Bytes {
    /// A copy of these bytes.
    pub fn copy(alloc: Global, from: &[u8]) -> Result<Bytes, NoMemory>
        ensures { IfOk result (λ b. b ≡ from.now) }
    {
        let items = from.to_vec(alloc)?;
        Ok(Bytes { items })
    }

    /// These bytes, without a copy.
    pub fn from_vec(items: Vec<u8>) -> Bytes
        ensures { result ≡ items.items }
    {
        Bytes { items }
    }

    /// The bytes.
    pub fn view(&self) -> &[u8]
        ensures value { result.now ≡ self.now }
        ensures bytes { AllPass (λ b. nat_lt b 256) self.now }
    {
        known_bytes(self.items.as_slice())
    }
}

// Bytes, of which a caller learns that each is below 256.
fn known_bytes(bytes: &[u8]) -> &[u8]
    ensures value { result.now ≡ bytes.now }
    ensures bytes { AllPass (λ b. nat_lt b 256) bytes.now }
{
    bytes
}

/// An owned list, the one form of every list type of the forwarder.
#[derive(Debug, Drop)]
pub struct OwnedList<T> {
    items: Vec<T>,
}

impl<T> Model for OwnedList<T> {
    ghost Value = { List T };

    ghost view = { λ l. l.items.items };
}

impl<T: Drop> OwnedList<T> {
    /// An empty list.
    pub fn new(alloc: Global) -> Result<OwnedList<T>, NoMemory>
        ensures { IfOk result (λ l. l ≡ []) }
    {
        Ok(OwnedList::empty(alloc))
    }

    /// An empty list, which takes no memory.
    pub fn empty(alloc: Global) -> OwnedList<T>
        ensures { result ≡ [] }
    {
        OwnedList {
            items: Vec::new(alloc),
        }
    }

    /// These items, without a copy.
    pub fn from_vec(items: Vec<T>) -> OwnedList<T>
        ensures { result ≡ items.items }
    {
        OwnedList { items }
    }

    /// Appends an item. Where memory is refused the item is dropped and the list stays.
    pub fn push(&mut self, _alloc: Global, item: T) -> Result<(), NoMemory>
        ensures ok { OnOk result (self.new ≡ self.old ++ item ∷ []) }
        ensures err { OnErr result (self.new ≡ self.old) }
    {
        self.items.push(item)?;
        Ok(())
    }

    /// Appends the items of another list. Where memory is refused they are dropped and the list
    /// stays.
    pub fn append(&mut self, _alloc: Global, other: OwnedList<T>) -> Result<(), NoMemory>
        ensures ok { OnOk result (self.new ≡ self.old ++ other) }
        ensures err { OnErr result (self.new ≡ self.old) }
    {
        let mut items = other.items;
        self.items.append(&mut items)?;
        Ok(())
    }

    /// Takes out the last item.
    pub fn pop(&mut self) -> Option<T>
        ensures items { self.old ≡ self.new ++ option_to_list result }
        ensures none { IsNone result ↔ (self.old ≡ []) }
    {
        self.items.pop()
    }

    /// The items.
    pub fn items(&self) -> &[T]
        ensures { result.now ≡ self.now }
    {
        self.items.as_slice()
    }

    /// How many items there are.
    pub fn len(&self) -> usize
        ensures { result ≡ length self.now }
    {
        self.items.len()
    }

    /// The item at a place, or none past the end.
    pub fn at(&self, index: usize) -> Option<&T>
        ensures { option_copied result ≡ slice_get self.now index }
    {
        self.items.get(index)
    }
}

/// Addresses.
pub type IdList = OwnedList<FcId>;
