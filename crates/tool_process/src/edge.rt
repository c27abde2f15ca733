//! The real files and the real output, of which no content is known.
ghost use Rattle.std.specs.Prelude.{◌≡◌, ◌<◌, ◌≤◌, ◌^◌, ◌↔◌, ℕ, List, IsTrue, length, IfSome, IfOk, OnOk};
ghost use Rattle.fab_base.specs.Desk.{knows};
ghost use Rattle.tool_process.specs.Edge.{KnowsAll, ReadsAt, WritesAt};
ghost use Rattle.std.specs.Io.KnownBytes.{ReadConsumes, WriteAppends};

use crate::same::{Mix, Spot, mix_of};
use crate::trouble::{Trouble, Why, first_of, why_of};
use fab_base::{Depot, Desk, DeskSlot, Failed, NoMemory, Sink, word_at};
use std::alloc::Global;
use std::fs::{OpenFile, OpenOptions};
use std::io::{Read, Write};
use std::rt::Files;
use std::{fs, io};

/// Real files under the words of a command. Where two of the names are one regular file, or one is
/// the standard output, no output is opened. Outputs are emptied once all of them are open: before
/// the first byte is written.
pub struct FileDepot<'a, R: Files> {
    rt: &'a R,
    alloc: Global,
    desk: Desk,
    files: Vec<R::File>,
    mix: Mix,
    // whether the outputs were emptied
    emptied: bool,
    trouble: Option<Trouble>,
}

impl<'a, R: Files> Drop for FileDepot<'a, R> {
    // By hand, so that it is dropped by one call.
    fn drop(self) {
        let FileDepot {
            rt: _,
            alloc: _,
            desk: _desk,
            files: _files,
            mix: _,
            emptied: _,
            trouble: _trouble,
        } = self;
    }
}

impl<'a, R: Files> FileDepot<'a, R> {
    ghost use Rattle.std.specs.Prelude.{◌≡◌, ◌<◌, ℕ, List, Some, IfSome, IfNone, IfOk, IfErr, length};
    ghost use Rattle.std.specs.Prelude.{slice_get, IsTrue, true, false, ◌≤◌};
    ghost use Rattle.fab_base.specs.Desk.{place_of, Stays, KeepsOtherSlots, KeepsCounts};
    ghost use Rattle.tool_process.specs.Edge.{KnowsAll, AddsFile, HasSame};
    ghost use Rattle.tool_process.specs.Same.{IsMixOf};
    ghost use Rattle.tool_process.specs.declared.same.Mix.TheVariants.{Apart};

    /// A depot that knows these words, beside a standard output that leads to this place.
    pub fn new(
        rt: &'a R,
        alloc: Global,
        words: &[String],
        printed: &Spot,
    ) -> Result<FileDepot<'a, R>, NoMemory>
        ensures knows { IfOk result (λ d. KnowsAll d.desk words.now) }
        ensures mix { IfOk result (λ d. IsMixOf words.now printed.now d.mix) }
    {
        let desk = desk_of(alloc, words)?;
        let mix = mix_of(rt, alloc, words, printed)?;
        Ok(FileDepot {
            rt,
            alloc,
            desk,
            files: Vec::new(alloc),
            mix,
            emptied: false,
            trouble: None,
        })
    }

    /// What the names are to each other and to the standard output.
    pub(crate) fn mix(&self) -> Mix
        ensures { result ≡ self.now.mix }
    {
        self.mix
    }

    /// What went wrong first with a file.
    pub(crate) fn trouble(&self) -> Option<Trouble> {
        self.trouble
    }

    /// The name at a place among those that are known.
    pub(crate) fn name_of(&self, place: usize) -> &str {
        if place < self.desk.names.len() {
            word_at(&self.desk.names, place)
        } else {
            ""
        }
    }

    // Opens an output, unless two names are one file.
    fn try_output(&mut self, name: &str, place: usize) -> Option<u32>
        requires { place_of self.old.desk name.now ≡ Some place }
        ensures stays { Stays place self.old.desk self.new.desk }
        ensures counts { KeepsCounts self.old.desk self.new.desk }
        ensures fresh { IfSome result (λ s. (s ≡ length self.old.desk.slots.items)
            × (slice_get self.new.desk.slots.items s
            ≡ Some (record { file = place; at = length self.old.files.items; input = false }))) }
        ensures slots { IfSome result (λ s. KeepsOtherSlots s self.old.desk self.new.desk) }
        ensures file { IfSome result (λ s. AddsFile s self.old.files.items self.new.files.items
            self.new.desk) }
        ensures none { IfNone result (HasSame self.old.desk self.new.desk self.old.files.items
            self.new.files.items) }
        ensures apart { IfSome result (λ s. self.old.mix ≡ Apart) }
        ensures mix { self.new.mix ≡ self.old.mix }
    {
        if self.mix.is_mixed() {
            return None;
        }
        self.try_open(name, place, false)
    }

    // Opens a file; the number at its slot is its place among the files. There is a number and room
    // for both before the file is touched, since an output is made where it isn't there yet.
    fn try_open(&mut self, name: &str, place: usize, input: bool) -> Option<u32>
        requires { place_of self.old.desk name.now ≡ Some place }
        ensures stays { Stays place self.old.desk self.new.desk }
        ensures counts { KeepsCounts self.old.desk self.new.desk }
        ensures fresh { IfSome result (λ s. (s ≡ length self.old.desk.slots.items)
            × (slice_get self.new.desk.slots.items s
            ≡ Some (record { file = place; at = length self.old.files.items; input = input }))) }
        ensures slots { IfSome result (λ s. KeepsOtherSlots s self.old.desk self.new.desk) }
        ensures file { IfSome result (λ s. AddsFile s self.old.files.items self.new.files.items
            self.new.desk) }
        ensures none { IfNone result (HasSame self.old.desk self.new.desk self.old.files.items
            self.new.files.items) }
        ensures mix { self.new.mix ≡ self.old.mix }
    {
        if !has_number(&self.desk) {
            return None;
        }
        if self.files.reserve(1).is_err() || self.desk.reserve_slot(self.alloc).is_err() {
            return None;
        }
        let opened = if input {
            fs::open(self.rt, name)
        } else {
            open_to_write(self.rt, name, self.emptied)
        };
        let file = match opened {
            Ok(file) => file,
            Err(error) => {
                self.trouble = first_of(self.trouble, place, why_of(error.kind()));
                return None;
            }
        };
        let at = self.files.len();
        self.files.push(file).unwrap();
        self.desk.open(name, place, at, input)
    }
}

impl<R: Files> Depot for FileDepot<'_, R> {
    ghost use Rattle.std.specs.Prelude.{◌≡◌, ◌<◌, IsTrue, IfOk, OnErr, length};
    ghost use Rattle.fab_base.specs.Desk.{at_of};
    ghost use Rattle.fab_base.specs.Seen.{OpensIn, OpensOut, Fetches, Puts};
    ghost use Rattle.tool_process.specs.Edge.{untold, AddsFile, HasSame, ReadsAt, WritesAt};
    ghost use Rattle.tool_process.specs.declared.same.Mix.TheVariants.{Apart};

    ghost seen = { λ d. untold d.desk };

    fn open_in(&mut self, name: &str) -> Result<u32, Failed>
        requires { IsTrue ((untold self.old.desk).knows name.now) }
        ensures opens { OpensIn name.now (untold self.old.desk) (untold self.new.desk) result }
        ensures file { IfOk result (λ s. AddsFile s self.old.files.items self.new.files.items
            self.new.desk) }
        ensures err { OnErr result (HasSame self.old.desk self.new.desk self.old.files.items
            self.new.files.items) }
        ensures mix { self.new.mix ≡ self.old.mix }
    {
        let place = self.desk.place(name).unwrap();
        match self.try_open(name, place, true) {
            Some(slot) => Ok(slot),
            None => {
                self.desk.read_failed(place);
                Err(Failed)
            }
        }
    }

    fn open_out(&mut self, name: &str) -> Result<u32, Failed>
        requires { IsTrue ((untold self.old.desk).knows name.now) }
        ensures opens { OpensOut name.now (untold self.old.desk) (untold self.new.desk) result }
        ensures file { IfOk result (λ s. AddsFile s self.old.files.items self.new.files.items
            self.new.desk) }
        ensures err { OnErr result (HasSame self.old.desk self.new.desk self.old.files.items
            self.new.files.items) }
        // No output is opened where two names are one file, or one is the standard output.
        ensures apart { IfOk result (λ s. self.old.mix ≡ Apart) }
        ensures mix { self.new.mix ≡ self.old.mix }
    {
        let place = self.desk.place(name).unwrap();
        match self.try_output(name, place) {
            Some(slot) => Ok(slot),
            None => {
                self.desk.write_failed(place);
                Err(Failed)
            }
        }
    }

    fn fetch(&mut self, slot: u32, into: &mut [u8]) -> Result<usize, Failed>
        requires input { IsTrue ((untold self.old.desk).input slot) }
        requires room { 0 < length into.old }
        ensures fetches { Fetches slot into.new (untold self.old.desk)
            (untold self.new.desk) result }
        ensures reads { ReadsAt R.File.remaining
            (at_of self.old.desk slot) self.old.files.items self.new.files.items into.new result }
        ensures err { OnErr result (self.new.desk.slots.items ≡ self.old.desk.slots.items) }
        ensures mix { self.new.mix ≡ self.old.mix }
    {
        let source = self.desk.file(slot);
        let at = self.desk.at(slot);
        match read_at(&mut self.files, at, into) {
            Ok(count) => Ok(count),
            Err(Failed) => {
                self.trouble = first_of(self.trouble, source, Why::Unread);
                self.desk.read_failed(source);
                Err(Failed)
            }
        }
    }

    fn put(&mut self, slot: u32, from: &[u8]) -> Result<usize, Failed>
        requires output { IsTrue ((untold self.old.desk).output slot) }
        requires some { 0 < length from.now }
        ensures puts { Puts slot from.now (untold self.old.desk) (untold self.new.desk) result }
        ensures writes { WritesAt R.File.contents
            (at_of self.old.desk slot) self.old.files.items self.new.files.items from.now result }
        ensures err { OnErr result (self.new.desk.slots.items ≡ self.old.desk.slots.items) }
        ensures mix { self.new.mix ≡ self.old.mix }
    {
        let target = self.desk.file(slot);
        let at = self.desk.at(slot);
        match write_to(&mut self.files, &self.desk, &mut self.emptied, at, from) {
            Ok(count) => Ok(count),
            Err(Failed) => {
                self.trouble = first_of(self.trouble, target, Why::Unwritten);
                self.desk.write_failed(target);
                Err(Failed)
            }
        }
    }
}

// Opens an output, which is made where it isn't there. It keeps its bytes until all are emptied.
fn open_to_write<R: Files>(files: &R, name: &str, emptied: bool) -> io::Result<R::File> {
    let mut how = OpenOptions::new();
    how.write(true).create(true).truncate(emptied);
    how.open(files, name)
}

// Empties the outputs that are regular files.
fn empty_outputs<F: OpenFile>(files: &[F], slots: &[DeskSlot]) -> Result<(), Failed> {
    for slot in slots {
        if !slot.input && slot.at < files.len() {
            empty(&files[slot.at])?;
        }
    }
    Ok(())
}

fn empty<F: OpenFile>(file: &F) -> Result<(), Failed> {
    let Ok(found) = file.metadata() else {
        return Err(Failed);
    };
    if found.is_file() && file.set_len(0).is_err() {
        return Err(Failed);
    }
    Ok(())
}

// Writes to the file at a place. Before the first byte of any output all are emptied.
fn write_to<F: Write + OpenFile>(
    files: &mut Vec<F>,
    desk: &Desk,
    emptied: &mut bool,
    at: usize,
    from: &[u8],
) -> Result<usize, Failed>
    ensures bound { IfOk result (λ n. (1 ≤ n) × (n ≤ length from.now)) }
    ensures writes { WritesAt F.contents at files.old.items files.new.items from.now result }
{
    if !*emptied {
        empty_outputs(files, &desk.slots)?;
        *emptied = true;
    }
    write_at(files, at, from)
}

// Whether a number is left for one more slot.
fn has_number(desk: &Desk) -> bool
    ensures { IsTrue result ↔ (length desk.now.slots.items < 2 ^ 32) }
{
    desk.slots.len() <= u32::MAX as usize
}

// A desk that knows these words.
fn desk_of(alloc: Global, words: &[String]) -> Result<Desk, NoMemory>
    ensures knows { IfOk result (λ d. KnowsAll d words.now) }
{
    let mut desk = Desk::new(alloc);
    for index in 0..words.len() {
        learn(alloc, &mut desk, word_at(words, index))?;
    }
    Ok(desk)
}

// Makes a name known where it isn't.
fn learn(alloc: Global, desk: &mut Desk, name: &str) -> Result<(), NoMemory>
    ensures own { OnOk result (IsTrue (knows desk.new name.now)) }
    ensures others { OnOk result ((m : List ℕ) → IsTrue (knows desk.old m) →
        IsTrue (knows desk.new m)) }
{
    if desk.place(name).is_some() {
        return Ok(());
    }
    desk.know(alloc, name)?;
    Ok(())
}

// Reads from the file at a place, and changes no other.
fn read_at<F: Read>(files: &mut Vec<F>, at: usize, into: &mut [u8]) -> Result<usize, Failed>
    ensures bound { IfOk result (λ n. n ≤ length into.new) }
    ensures reads { ReadsAt F.remaining at files.old.items files.new.items into.new result }
{
    if at >= files.len() {
        return Err(Failed);
    }
    read_some(&mut files[at], into)
}

fn read_some<F: Read>(file: &mut F, into: &mut [u8]) -> Result<usize, Failed>
    ensures bound { IfOk result (λ n. n ≤ length into.new) }
    ensures takes { ReadConsumes (F.remaining file.old) (F.remaining file.new) result into.new }
{
    match file.read(into) {
        Ok(count) => Ok(count),
        Err(_) => Err(Failed),
    }
}

// Writes to the file at a place, and changes no other.
fn write_at<F: Write>(files: &mut Vec<F>, at: usize, from: &[u8]) -> Result<usize, Failed>
    ensures bound { IfOk result (λ n. (1 ≤ n) × (n ≤ length from.now)) }
    ensures writes { WritesAt F.contents at files.old.items files.new.items from.now result }
{
    if at >= files.len() {
        return Err(Failed);
    }
    write_some(&mut files[at], from)
}

// A write that takes nothing is a fault.
fn write_some<W: Write>(to: &mut W, from: &[u8]) -> Result<usize, Failed>
    ensures bound { IfOk result (λ n. (1 ≤ n) × (n ≤ length from.now)) }
    ensures adds { WriteAppends (W.contents to.old) (W.contents to.new) result from.now }
{
    match to.write(from) {
        Ok(0) => Err(Failed),
        Ok(count) => Ok(count),
        Err(_) => Err(Failed),
    }
}

/// Standard output or another writer, with a count of faults.
#[derive(Drop)]
pub struct StdSink<W: Write + Drop> {
    to: W,
    faults: u64,
}

impl<W: Write + Drop> StdSink<W> {
    /// A sink of which no fault was counted.
    pub fn new(to: W) -> StdSink<W>
        ensures to { result.to ≡ to }
        ensures faults { result.faults ≡ 0 }
    {
        StdSink { to, faults: 0 }
    }
}

impl<W: Write + Drop> Sink for StdSink<W> {
    ghost use Rattle.std.specs.Prelude.{◌<◌, length};
    ghost use Rattle.std.specs.Io.KnownBytes.{WriteAppends};
    ghost use Rattle.fab_base.specs.Sunk.{Sinks};
    ghost use Rattle.tool_process.specs.Edge.{untold_sink};

    ghost sunk = { λ s. untold_sink s.faults };

    fn put(&mut self, from: &[u8]) -> Result<usize, Failed>
        requires { 0 < length from.now }
        ensures sinks { Sinks from.now (untold_sink self.old.faults)
            (untold_sink self.new.faults) result }
        ensures adds { WriteAppends (W.contents self.old.to)
            (W.contents self.new.to) result from.now }
    {
        match write_some(&mut self.to, from) {
            Ok(count) => Ok(count),
            Err(Failed) => {
                self.faults = self.faults.saturating_add(1);
                Err(Failed)
            }
        }
    }
}
