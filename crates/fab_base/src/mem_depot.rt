//! A depot in memory, for tests and for callers that have their files in memory.
ghost use Rattle.std.specs.Prelude.{◌≡◌, ◌<◌, ◌≤◌, ◌+◌, ◌-◌, ◌^◌, ◌++◌, ◌==◌, min, [], ℕ, Some, IfSome, IfOk, OnOk, OnErr, IfNone, None, IsTrue, length, take, drop, slice_get};
ghost use Rattle.std.specs.List.{list_any};
ghost use Rattle.fab_base.specs.Desk.{one_more, place_of, Stays, KeepsOtherSlots, KeepsCounts, spare_slots};
ghost use Rattle.fab_base.specs.Seen.{bytes_of};
ghost use Rattle.fab_base.specs.Contents.{content_bytes, capacity_of};

use crate::{Depot, Desk, Failed, NoMemory};
use std::alloc::Global;

/// Files in memory under names. Each known name has a content, or none, at its place.
///
/// `fetch` takes all that fits and `put` appends all. A call fails where `fail_call` was given its
/// number, where an input that isn't stored is opened, or where memory or slot numbers run out.
#[derive(Debug)]
pub struct MemDepot {
    alloc: Global,
    desk: Desk,
    contents: Vec<Option<Vec<u8>>>,
    calls: u64,
    failing: Vec<u64>,
    ghost paired: { length contents.items ≡ length desk.names.items },
}

impl Drop for MemDepot {
    // By hand, so that it is dropped by one call.
    fn drop(self) {
        let MemDepot {
            alloc: _,
            desk: _desk,
            contents: _contents,
            calls: _,
            failing: _failing,
        } = self;
    }
}

// Whether the call that comes now is to fail. It counts the call.
fn is_refused(calls: &mut u64, failing: &[u64]) -> bool
    ensures refused { result ≡ list_any (λ number. number == calls.old) failing.now }
    ensures counted { calls.new ≡ one_more calls.old }
{
    let number = *calls;
    *calls = number.saturating_add(1);
    failing.contains(&number)
}

impl MemDepot {
    ghost use Rattle.std.specs.Prelude.{◌≡◌, ◌<◌, ◌++◌, ◌∷◌, [], IfSome, IfOk, OnOk, OnErr, IsTrue, length, MatchOption, None, Some, List, ℕ, false};
    ghost use Rattle.std.specs.Option.{option_map};
    ghost use Rattle.fab_base.specs.Places.{name_at};
    ghost use Rattle.fab_base.specs.MemDepot.{mem_seen, IsNew, Learns, Same, SameCalls, next_call, failing_calls};

    /// A depot that knows no name.
    pub fn new(alloc: Global) -> Result<MemDepot, NoMemory>
        ensures { IfOk result IsNew }
    {
        Ok(MemDepot {
            alloc,
            desk: Desk::new(alloc),
            contents: Vec::new(alloc),
            calls: 0,
            failing: Vec::new(alloc),
        })
    }

    /// The bytes stored under a name.
    pub fn content(&self, name: &str) -> Option<&[u8]>
        ensures { option_map (λ bytes. bytes.now) result ≡ (mem_seen self.now).file name.now }
    {
        let place = self.desk.place(name)?;
        match &self.contents[place] {
            Some(bytes) => Some(bytes.as_slice()),
            None => None,
        }
    }

    /// Whether all words are known.
    pub fn knows_all(&self, words: &[String]) -> bool
        ensures all { IsTrue result → (k : ℕ) → k < length words.now →
            IsTrue ((mem_seen self.now).knows (name_at words.now k)) }
        ensures missing { result ≡ false → (k : ℕ) × (k < length words.now)
            × ((mem_seen self.now).knows (name_at words.now k) ≡ false) }
    {
        self.desk.knows_all(words)
    }

    /// The call of that number, counted from 0 over all four calls, fails.
    pub fn fail_call(&mut self, _alloc: Global, number: u64) -> Result<(), NoMemory>
        ensures ok { OnOk result (failing_calls self.new ≡ failing_calls self.old ++ number ∷ []) }
        ensures seen { mem_seen self.new ≡ mem_seen self.old }
        ensures calls { next_call self.new ≡ next_call self.old }
        ensures err { OnErr result (Same self.old self.new) }
    {
        self.failing.push(number)?;
        Ok(())
    }

    /// Makes a name known. A file that is stored under it stays.
    pub fn know(&mut self, alloc: Global, name: &str) -> Result<(), NoMemory>
        ensures ok { OnOk result (Learns name.now (mem_seen self.old) (mem_seen self.new)) }
        ensures file { OnOk result ((mem_seen self.new).file name.now
            ≡ (mem_seen self.old).file name.now) }
        ensures calls { SameCalls self.old self.new }
        ensures err { OnErr result (Same self.old self.new) }
    {
        self.place_or_new(alloc, name)?;
        Ok(())
    }

    /// Stores bytes under a name, which is known from then on, in place of an earlier file.
    pub fn store(&mut self, alloc: Global, name: &str, bytes: &[u8]) -> Result<(), NoMemory>
        ensures ok { OnOk result (Learns name.now (mem_seen self.old) (mem_seen self.new)) }
        ensures file { OnOk result ((mem_seen self.new).file name.now ≡ Some bytes.now) }
        ensures calls { SameCalls self.old self.new }
        ensures err { OnErr result (Same self.old self.new) }
    {
        let bytes = Vec::from_slice(alloc, bytes)?;
        let place = self.place_or_new(alloc, name)?;
        self.contents[place] = Some(bytes);
        Ok(())
    }
}

impl MemDepot {
    ghost use Rattle.std.specs.Prelude.{◌≡◌, ◌<◌, ℕ, IfOk, OnErr, Some, length};
    ghost use Rattle.fab_base.specs.Desk.{place_of};
    ghost use Rattle.fab_base.specs.MemDepot.{mem_seen, Learns, Same, SameCalls};

    // The place of a name, which stands behind the others where it was not known.
    fn place_or_new(&mut self, alloc: Global, name: &str) -> Result<usize, NoMemory>
        ensures place { IfOk result (λ i. (place_of self.new.desk name.now ≡ Some i)
            × (i < length self.new.contents.items)) }
        ensures learns { IfOk result (λ i. Learns name.now (mem_seen self.old)
            (mem_seen self.new)) }
        ensures file { IfOk result (λ i. (mem_seen self.new).file name.now
            ≡ (mem_seen self.old).file name.now) }
        ensures calls { SameCalls self.old self.new }
        ensures err { OnErr result (Same self.old self.new) }
    {
        if let Some(place) = self.desk.place(name) {
            return Ok(place);
        }
        self.contents.reserve(1)?;
        self.desk.know(alloc, name)?;
        self.contents.push(None).unwrap();
        Ok(self.contents.len() - 1)
    }
}

impl MemDepot {
    ghost use Rattle.std.specs.Prelude.{◌≡◌, ◌≢◌, ◌<◌, ◌≤◌, ◌++◌, [], ℕ, min, List, IfSome, IfNone, OnSome, IsNone, IfOk, OnOk, OnErr, IsTrue, true, false, length, None, Some, slice_get, take, ◌↔◌, ◌==◌, ◌⊎◌};
    ghost use Rattle.fab_base.specs.Seen.{bytes_of};
    ghost use Rattle.fab_base.specs.Desk.{place_of, file_of, Stays, KeepsOtherSlots, KeepsCounts};
    ghost use Rattle.fab_base.specs.Contents.{content_at};
    ghost use Rattle.fab_base.specs.MemDepot.{left_of, Counted, is_to_fail, slots_left, spare_at, MayFail};

    fn try_open_in(&mut self, name: &str, file: usize) -> Option<u32>
        requires place { place_of self.old.desk name.now ≡ Some file }
        requires within { file < length self.old.contents.items }
        ensures counted { Counted self.old self.new }
        ensures stays { Stays file self.old.desk self.new.desk }
        ensures counts { KeepsCounts self.old.desk self.new.desk }
        ensures contents { self.new.contents ≡ self.old.contents }
        ensures fresh { IfSome result (λ s. (s ≡ length self.old.desk.slots.items)
            × (slice_get self.new.desk.slots.items s ≡ Some (record {
              file = file;
              at = 0;
              input = true;
            }))) }
        ensures slots { IfSome result (λ s. KeepsOtherSlots s self.old.desk self.new.desk) }
        ensures kept { IfNone result (self.new.desk.slots.items ≡ self.old.desk.slots.items) }
        ensures there { OnSome result ((bytes : List ℕ)
            × (content_at self.new.contents.items file ≡ Some bytes)) }
        ensures allowed { OnSome result (is_to_fail self.old ≡ false) }
        ensures cause { IfNone result (MayFail self.old
            (content_at self.old.contents.items file ≡ None ⊎ slots_left self.old ≡ 0)) }
    {
        if is_refused(&mut self.calls, &self.failing) {
            return None;
        }
        if self.contents[file].is_none() {
            return None;
        }
        open_slot(self.alloc, &mut self.desk, name, file, true)
    }

    fn try_open_out(&mut self, name: &str, file: usize) -> Option<u32>
        requires place { place_of self.old.desk name.now ≡ Some file }
        requires within { file < length self.old.contents.items }
        ensures counted { Counted self.old self.new }
        ensures stays { Stays file self.old.desk self.new.desk }
        ensures counts { KeepsCounts self.old.desk self.new.desk }
        ensures others { (i : ℕ) → i ≢ file → content_at self.new.contents.items i
            ≡ content_at self.old.contents.items i }
        ensures fresh { IfSome result (λ s. (s ≡ length self.old.desk.slots.items)
            × (slice_get self.new.desk.slots.items s ≡ Some (record {
              file = file;
              at = 0;
              input = false;
            }))) }
        ensures slots { IfSome result (λ s. KeepsOtherSlots s self.old.desk self.new.desk) }
        ensures kept { IfNone result (self.new.desk.slots.items ≡ self.old.desk.slots.items) }
        ensures emptied { OnSome result (content_at self.new.contents.items file ≡ Some []) }
        ensures none { IfNone result (content_at self.new.contents.items file
            ≡ content_at self.old.contents.items file) }
        ensures allowed { OnSome result (is_to_fail self.old ≡ false) }
        ensures cause { IfNone result (MayFail self.old (slots_left self.old ≡ 0)) }
    {
        if is_refused(&mut self.calls, &self.failing) {
            return None;
        }
        let slot = open_slot(self.alloc, &mut self.desk, name, file, false)?;
        self.contents[file] = Some(Vec::new(self.alloc));
        Some(slot)
    }

    fn try_fetch(&mut self, slot: u32, file: usize, into: &mut [u8]) -> Option<usize>
        requires slot { slot < length self.old.desk.slots.items }
        requires file { file_of self.old.desk slot ≡ file }
        requires within { file < length self.old.contents.items }
        ensures counted { Counted self.old self.new }
        ensures stays { Stays file self.old.desk self.new.desk }
        ensures counts { KeepsCounts self.old.desk self.new.desk }
        ensures contents { self.new.contents ≡ self.old.contents }
        ensures slots { KeepsOtherSlots slot self.old.desk self.new.desk }
        ensures kept { IfNone result (self.new.desk.slots.items ≡ self.old.desk.slots.items) }
        ensures bound { IfSome result (λ n. n ≤ length into.new) }
        ensures taken { IfSome result (λ n. take n into.new ++ left_of self.new slot
            ≡ left_of self.old slot) }
        ensures all { IfSome result (λ n. n ≡ min (length into.old)
            (length (left_of self.old slot))) }
        ensures none { IfNone result (left_of self.new slot ≡ left_of self.old slot) }
        ensures refused { IsNone result ↔ (is_to_fail self.old ≡ true) }
    {
        if is_refused(&mut self.calls, &self.failing) {
            return None;
        }
        let at = self.desk.at(slot);
        let count = copy_content(&self.contents[file], at, into);
        self.desk.set_at(slot, at + count);
        Some(count)
    }

    fn try_put(&mut self, file: usize, from: &[u8]) -> Option<usize>
        requires within { file < length self.old.contents.items }
        requires some { 0 < length from.now }
        ensures counted { Counted self.old self.new }
        ensures desk { self.new.desk ≡ self.old.desk }
        ensures others { (i : ℕ) → i ≢ file → content_at self.new.contents.items i
            ≡ content_at self.old.contents.items i }
        ensures all { IfSome result (λ n. n ≡ length from.now) }
        ensures grown { OnSome result (content_at self.new.contents.items file
            ≡ Some (bytes_of (content_at self.old.contents.items file) ++ from.now)) }
        ensures none { IfNone result (content_at self.new.contents.items file
            ≡ content_at self.old.contents.items file) }
        ensures allowed { OnSome result (is_to_fail self.old ≡ false) }
        ensures cause { IfNone result (MayFail self.old
            (spare_at self.old.contents.items file < length from.now)) }
    {
        if is_refused(&mut self.calls, &self.failing) {
            return None;
        }
        match append_to(self.alloc, &mut self.contents[file], from) {
            Ok(()) => Some(from.len()),
            Err(NoMemory) => None,
        }
    }
}

impl Depot for MemDepot {
    ghost use Rattle.std.specs.Prelude.{◌≡◌, ◌↔◌, ◌<◌, ◌⊎◌, min, true, None, length, IsTrue, is_err, IsErr, IfOk, OnErr};
    ghost use Rattle.fab_base.specs.Seen.{OpensIn, OpensOut, Fetches, Puts};
    ghost use Rattle.fab_base.specs.MemDepot.{mem_seen, is_to_fail, slots_left, bytes_left, MayFail, Counted, CountsReads, CountsWrites};

    ghost seen = { mem_seen };

    fn open_in(&mut self, name: &str) -> Result<u32, Failed>
        requires { IsTrue ((mem_seen self.old).knows name.now) }
        ensures opens { OpensIn name.now (mem_seen self.old) (mem_seen self.new) result }
        ensures counted { Counted self.old self.new }
        ensures counts { CountsReads name.now (is_err result) (mem_seen self.old)
            (mem_seen self.new) }
        ensures refused { is_to_fail self.old ≡ true → IsErr result }
        ensures missing { (mem_seen self.old).file name.now ≡ None → IsErr result }
        ensures cause { OnErr result (MayFail self.old
            ((mem_seen self.old).file name.now ≡ None ⊎ slots_left self.old ≡ 0)) }
    {
        let file = self.desk.place(name).unwrap();
        match self.try_open_in(name, file) {
            Some(slot) => Ok(slot),
            None => {
                self.desk.read_failed(file);
                Err(Failed)
            }
        }
    }

    fn open_out(&mut self, name: &str) -> Result<u32, Failed>
        requires { IsTrue ((mem_seen self.old).knows name.now) }
        ensures opens { OpensOut name.now (mem_seen self.old) (mem_seen self.new) result }
        ensures counted { Counted self.old self.new }
        ensures counts { CountsWrites name.now (is_err result) (mem_seen self.old)
            (mem_seen self.new) }
        ensures refused { is_to_fail self.old ≡ true → IsErr result }
        ensures cause { OnErr result (MayFail self.old (slots_left self.old ≡ 0)) }
    {
        let file = self.desk.place(name).unwrap();
        match self.try_open_out(name, file) {
            Some(slot) => Ok(slot),
            None => {
                self.desk.write_failed(file);
                Err(Failed)
            }
        }
    }

    fn fetch(&mut self, slot: u32, into: &mut [u8]) -> Result<usize, Failed>
        requires input { IsTrue ((mem_seen self.old).input slot) }
        requires room { 0 < length into.old }
        ensures fetches { Fetches slot into.new (mem_seen self.old) (mem_seen self.new) result }
        ensures counted { Counted self.old self.new }
        ensures counts { CountsReads ((mem_seen self.old).name slot) (is_err result)
            (mem_seen self.old) (mem_seen self.new) }
        ensures refused { IsErr result ↔ (is_to_fail self.old ≡ true) }
        ensures all { IfOk result (λ n. n ≡ min (length into.old)
            (length ((mem_seen self.old).left slot))) }
    {
        let file = self.desk.file(slot);
        match self.try_fetch(slot, file, into) {
            Some(count) => Ok(count),
            None => {
                self.desk.read_failed(file);
                Err(Failed)
            }
        }
    }

    fn put(&mut self, slot: u32, from: &[u8]) -> Result<usize, Failed>
        requires output { IsTrue ((mem_seen self.old).output slot) }
        requires some { 0 < length from.now }
        ensures puts { Puts slot from.now (mem_seen self.old) (mem_seen self.new) result }
        ensures counted { Counted self.old self.new }
        ensures counts { CountsWrites ((mem_seen self.old).name slot) (is_err result)
            (mem_seen self.old) (mem_seen self.new) }
        ensures refused { is_to_fail self.old ≡ true → IsErr result }
        ensures cause { OnErr result (MayFail self.old
            (bytes_left self.old slot < length from.now)) }
        ensures all { IfOk result (λ n. n ≡ length from.now) }
    {
        let file = self.desk.file(slot);
        match self.try_put(file, from) {
            Some(count) => Ok(count),
            None => {
                self.desk.write_failed(file);
                Err(Failed)
            }
        }
    }
}

// A new slot of a name, or none where its memory is refused or no number is left.
fn open_slot(alloc: Global, desk: &mut Desk, name: &str, file: usize, input: bool) -> Option<u32>
    requires { place_of desk.old name.now ≡ Some file }
    ensures stays { Stays file desk.old desk.new }
    ensures counts { KeepsCounts desk.old desk.new }
    ensures fresh { IfSome result (λ s. (s ≡ length desk.old.slots.items)
        × (slice_get desk.new.slots.items s ≡ Some (record {
          file = file;
          at = 0;
          input = input;
        }))) }
    ensures slots { IfSome result (λ s. KeepsOtherSlots s desk.old desk.new) }
    ensures kept { IfNone result (desk.new.slots.items ≡ desk.old.slots.items) }
    ensures cause { IfNone result (spare_slots desk.old ≡ 0) }
{
    match desk.reserve_slot(alloc) {
        Ok(()) => desk.open(name, file, 0, input),
        Err(NoMemory) => None,
    }
}

// Copies what fits from a place on.
fn copy_from(bytes: &[u8], at: usize, into: &mut [u8]) -> usize
    ensures taken { take result into.new ++ drop (at + result) bytes.now ≡ drop at bytes.now }
    ensures all { result ≡ min (length into.old) (length bytes.now - at) }
    ensures fits { at + result < 2 ^ 64 }
{
    if at >= bytes.len() {
        return 0;
    }
    let count = into.len().min(bytes.len() - at);
    into[..count].copy_from_slice(&bytes[at..at + count]);
    count
}

// The same from a content that may not be there.
fn copy_content(content: &Option<Vec<u8>>, at: usize, into: &mut [u8]) -> usize
    ensures taken { take result into.new ++ drop (at + result)
        (bytes_of (content_bytes content.now)) ≡ drop at (bytes_of (content_bytes content.now)) }
    ensures all { result ≡ min (length into.old)
        (length (bytes_of (content_bytes content.now)) - at) }
    ensures fits { at + result < 2 ^ 64 }
{
    match content {
        Some(bytes) => copy_from(bytes, at, into),
        None => 0,
    }
}

// Appends bytes to a content, which is made where it is not there.
fn append_to(alloc: Global, content: &mut Option<Vec<u8>>, from: &[u8]) -> Result<(), NoMemory>
    requires { 0 < length from.now }
    ensures ok { OnOk result (content_bytes content.new
        ≡ Some (bytes_of (content_bytes content.old) ++ from.now)) }
    ensures err { OnErr result (content_bytes content.new ≡ content_bytes content.old) }
    ensures full { OnErr result (capacity_of content.old - length
        (bytes_of (content_bytes content.old)) < length from.now) }
{
    match content {
        Some(bytes) => bytes.extend_from_slice(from)?,
        None => *content = Some(from.to_vec(alloc)?),
    }
    Ok(())
}
