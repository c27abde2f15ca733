//! The names that a depot knows, with their counts of faults, and its slots.
ghost use Rattle.std.specs.Prelude.{◌≡◌, ◌<◌, ◌+◌, ◌-◌, ◌^◌, min, ℕ, Some, None, IfOk, OnErr, IsTrue, length, slice_get, slice_index, IfSome, IfNone, IsNone, ◌↔◌, ◌≤◌, ◌++◌, ◌∷◌, [], vec_capacity};
ghost use Rattle.fab_base.specs.Places.{place, name_at, ArePlaced};

use crate::NoMemory;
use std::alloc::Global;

/// A slot: the place of its name, how far it has come, and whether it is an input.
#[derive(Clone, Copy, Debug)]
pub struct DeskSlot {
    pub file: usize,
    pub at: usize,
    pub input: bool,
}

/// Names with two counts each, and slots of them.
#[derive(Debug)]
pub struct Desk {
    pub names: Vec<String>,
    pub reads: Vec<u64>,
    pub writes: Vec<u64>,
    pub slots: Vec<DeskSlot>,
    ghost reads_paired: { length reads.items ≡ length names.items },
    ghost writes_paired: { length writes.items ≡ length names.items },
    ghost placed: { ArePlaced names.items slots.items },
}

impl Drop for Desk {
    // By hand, so that it is dropped by one call.
    fn drop(self) {
        let Desk {
            names: _names,
            reads: _reads,
            writes: _writes,
            slots: _slots,
        } = self;
    }
}

/// The first place of a name.
pub fn place_in(names: &[String], name: &str) -> Option<usize>
    ensures found { result ≡ place name.now names.now }
    ensures within { IfSome result (λ i. i < length names.now) }
{
    for (i, known) in names.iter().enumerate() {
        if known.as_str() == name {
            return Some(i);
        }
    }
    None
}

// A slot more, under the next number, in room that was made for it; none where no number is left.
fn push_slot(slots: &mut Vec<DeskSlot>, slot: DeskSlot) -> Option<u32>
    requires { length slots.old.items < vec_capacity slots.old }
    ensures added { IfSome result (λ s. (s ≡ length slots.old.items)
        × (slots.new.items ≡ slots.old.items ++ slot ∷ [])) }
    ensures none { IfNone result (slots.new.items ≡ slots.old.items) }
    ensures spent { IsNone result ↔ (2 ^ 32 ≤ length slots.old.items) }
{
    let count = slots.len();
    if count > u32::MAX as usize {
        return None;
    }
    slots.push(slot).unwrap();
    Some(count as u32)
}

/// The word at a place.
pub fn word_at(words: &[String], index: usize) -> &str
    requires { index < length words.now }
    ensures { result.now ≡ name_at words.now index }
{
    words[index].as_str()
}

impl Desk {
    ghost use Rattle.std.specs.Prelude.{◌≡◌, ◌<◌, ◌+◌, ◌-◌, ◌^◌, ◌≤◌, ◌↔◌, min, ℕ, Some, None, IfOk, OnErr, OnOk, IsTrue, IsNone, length, slice_get, slice_index, IfSome, IfNone, List, [], true, false};
    ghost use Rattle.fab_base.specs.Places.{name_at};
    ghost use Rattle.fab_base.specs.Desk.{knows, place_of, file_of, at_of, Stays, KeepsOtherSlots, KeepsCounts, KeepsAll, Adds, HasRoom, one_more};

    /// A desk that knows no name.
    pub fn new(alloc: Global) -> Desk
        ensures names { result.names.items ≡ [] }
        ensures slots { result.slots.items ≡ [] }
    {
        Desk {
            names: Vec::new(alloc),
            reads: Vec::new(alloc),
            writes: Vec::new(alloc),
            slots: Vec::new(alloc),
        }
    }

    /// Makes a name known, behind the others.
    pub fn know(&mut self, alloc: Global, name: &str) -> Result<(), NoMemory>
        ensures ok { OnOk result (Adds name.now self.old self.new) }
        ensures err { OnErr result (KeepsAll self.old self.new) }
    {
        let text = String::from_str(alloc, name)?;
        self.names.reserve(1)?;
        self.reads.reserve(1)?;
        self.writes.reserve(1)?;
        self.names.push(text).unwrap();
        self.reads.push(0).unwrap();
        self.writes.push(0).unwrap();
        Ok(())
    }

    /// Where a name stands.
    pub fn place(&self, name: &str) -> Option<usize>
        ensures found { result ≡ place_of self.now name.now }
        ensures within { IfSome result (λ i. i < length self.now.names.items) }
    {
        place_in(&self.names, name)
    }

    /// Whether all words are known.
    pub fn knows_all(&self, words: &[String]) -> bool
        ensures all { IsTrue result → (k : ℕ) → k < length words.now →
            IsTrue (knows self.now (name_at words.now k)) }
        ensures missing { result ≡ false → (k : ℕ) × (k < length words.now)
            × (knows self.now (name_at words.now k) ≡ false) }
    {
        for i in 0..words.len() {
            if self.place(word_at(words, i)).is_none() {
                return false;
            }
        }
        true
    }

    /// The place of an open slot's name.
    pub fn file(&self, slot: u32) -> usize
        requires { slot < length self.now.slots.items }
        ensures value { result ≡ file_of self.now slot }
        ensures within { result < length self.now.names.items }
    {
        self.slots[slot as usize].file
    }

    /// The number at an open slot: how far it has come, or what its owner put there.
    pub fn at(&self, slot: u32) -> usize
        requires { slot < length self.now.slots.items }
        ensures { result ≡ at_of self.now slot }
    {
        self.slots[slot as usize].at
    }

    /// A fault of reading at a place.
    pub fn read_failed(&mut self, file: usize)
        requires { file < length self.old.names.items }
        ensures stays { Stays file self.old self.new }
        ensures slots { self.new.slots ≡ self.old.slots }
        ensures counted { slice_index self.new.reads.items file
            ≡ one_more (slice_index self.old.reads.items file) }
        ensures writes { self.new.writes ≡ self.old.writes }
    {
        self.reads[file] = self.reads[file].saturating_add(1);
    }

    /// A fault of writing at a place.
    pub fn write_failed(&mut self, file: usize)
        requires { file < length self.old.names.items }
        ensures stays { Stays file self.old self.new }
        ensures slots { self.new.slots ≡ self.old.slots }
        ensures counted { slice_index self.new.writes.items file
            ≡ one_more (slice_index self.old.writes.items file) }
        ensures reads { self.new.reads ≡ self.old.reads }
    {
        self.writes[file] = self.writes[file].saturating_add(1);
    }

    /// Makes room for one more slot.
    pub fn reserve_slot(&mut self, _alloc: Global) -> Result<(), NoMemory>
        ensures same { KeepsAll self.old self.new }
        ensures ok { OnOk result (HasRoom self.new) }
        ensures err { OnErr result (HasRoom self.old → ⊥) }
    {
        self.slots.reserve(1)?;
        Ok(())
    }

    /// A new slot of a name, in room that was made for it, or none where all 2^32 numbers are
    /// taken.
    pub fn open(&mut self, name: &str, file: usize, at: usize, input: bool) -> Option<u32>
        requires place { place_of self.old name.now ≡ Some file }
        requires room { HasRoom self.old }
        ensures none { IsNone result ↔ (2 ^ 32 ≤ length self.old.slots.items) }
        ensures stays { Stays file self.old self.new }
        ensures counts { KeepsCounts self.old self.new }
        ensures fresh { IfSome result (λ s. (s ≡ length self.old.slots.items)
            × (slice_get self.new.slots.items s ≡ Some (record {
              file = file;
              at = at;
              input = input;
            }))) }
        ensures others { IfSome result (λ s. KeepsOtherSlots s self.old self.new) }
        ensures refused { IfNone result (KeepsAll self.old self.new) }
    {
        push_slot(&mut self.slots, DeskSlot { file, at, input })
    }

    /// Changes the number at an open slot.
    pub fn set_at(&mut self, slot: u32, at: usize)
        requires { slot < length self.old.slots.items }
        ensures stays { Stays (file_of self.old slot) self.old self.new }
        ensures at { at_of self.new slot ≡ at }
        ensures others { KeepsOtherSlots slot self.old self.new }
        ensures same { (self.new.names ≡ self.old.names) × (self.new.reads ≡ self.old.reads)
            × (self.new.writes ≡ self.old.writes) }
    {
        self.slots[slot as usize].at = at;
    }
}
