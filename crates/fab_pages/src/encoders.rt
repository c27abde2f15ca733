//! The records of several ports at once, those of each port in a thread of its own.
ghost use Rattle.std.specs.Prelude.{◌≡◌, ℕ, ◌+◌, ◌-◌, ◌<◌, ◌≤◌, ◌^◌, ◌++◌, ◌∷◌, [], false, List, length, IsTrue, OnOk, vec_capacity, vec_len, slice_index_or, slice_set};
ghost use Rattle.fab_policy.specs.Growing.{records_to};
ghost use Rattle.fab_sending.specs.Message.{can_send};
ghost use Rattle.fab_pages.specs.Pages.{Adds, AreEarly, GoOn, GoesOn, Writes, items_in, piece_at, sent_by, sents_of};
ghost use Rattle.fab_pages.specs.Encoders.{AreBelow, AreOut, IsEncoded, NoneFor, NoneRefused, page_in};
ghost use Rattle.fab_pages.specs.Sizes.{bytes_out, has_few, size_at, size_in};
ghost use Rattle.fab_pages.specs.declared.encoders.Encoder as of_pages;

use crate::cuts::{cut_all, lengths_of};
use crate::pages::Sendings;
use fab_base::NoMemory;
use fab_policy::Event;
use forward_core::{Drained, EventList, Out, OutMessage};
use std::alloc::Global;
use std::thread::Threads;
use std::{mem, thread};

/// From so many bytes on threads are worth their start.
const MANY: usize = 262144;

/// What a message without a frame or a size of its own counts as.
const SHORT: usize = 64;

/// The page of a port while its records are appended, and whether memory was refused.
#[derive(Drop)]
pub(crate) struct Encoder {
    pub(crate) place: usize,
    pub(crate) page: Vec<u8>,
    pub(crate) refused: bool,
}

impl Sendings<'_> {
    /// As `write_records`; where there are many bytes, a thread for each port that has a record.
    pub fn write_records_at_once<R: Threads + Sync>(
        &self,
        rt: &R,
        alloc: Global,
        pages: &mut [Vec<u8>],
    ) -> Result<(), NoMemory>
        requires { AreEarly self.now.drained.now.outs }
        ensures { Writes (sents_of self.now) pages.old pages.new result }
    {
        if are_few(self.drained) {
            return self.write_records(alloc, pages);
        }
        let lengths = lengths_of(alloc, pages)?;
        let encoders = Vec::with_capacity(alloc, pages.len())?;
        if write_by(rt, alloc, self, encoders, pages) {
            cut_all(&lengths, pages);
            return Err(NoMemory);
        }
        Ok(())
    }
}

// Appends the records by encoders. Whether memory was refused; then only some of them stand there.
fn write_by<R: Threads + Sync>(
    rt: &R,
    alloc: Global,
    sendings: &Sendings<'_>,
    encoders: Vec<Encoder>,
    pages: &mut [Vec<u8>],
) -> bool
    requires early { AreEarly sendings.now.drained.now.outs }
    requires room { (encoders.items ≡ []) × (length pages.old ≤ vec_capacity encoders) }
    ensures adds { result ≡ false → Adds (sents_of sendings.now) (items_in pages.old)
        (items_in pages.new) }
    ensures fronts { GoOn (items_in pages.old) (items_in pages.new) }
{
    let mut encoders = encoders;
    take_pages(alloc, sendings.drained, pages, &mut encoders);
    encode_all(rt, alloc, sendings, encoders.as_mut_slice());
    put_back(encoders, pages)
}

// Whether what is sent has less than many bytes.
fn are_few(drained: &Drained) -> bool
    ensures { result ≡ has_few drained.now.events drained.now.outs }
{
    lacking(&drained.events, drained.outs.items()) > 0
}

// How many bytes what is sent lacks to many.
fn lacking(events: &EventList, outs: &[Out]) -> usize
    ensures { result ≡ 262144 - bytes_out events.now outs.now }
{
    let mut left = MANY;
    for out in outs {
        left = left.saturating_sub(size_of(events, &out.message));
    }
    left
}

// About how many bytes a message has.
fn size_of(events: &EventList, message: &OutMessage) -> usize
    ensures { result ≡ size_in events.now message.now }
{
    match message {
        OutMessage::Solicited { size, .. } => usize::from(*size),
        OutMessage::Forwarded { entry, .. } => size_of_entry(events, *entry),
        OutMessage::Vlans { .. }
        | OutMessage::Advertisement
        | OutMessage::LoginAccept { .. }
        | OutMessage::LoginReply { .. }
        | OutMessage::ServiceReply { .. }
        | OutMessage::Ct { .. }
        | OutMessage::Clear { .. }
        | OutMessage::Rscn { .. } => SHORT,
    }
}

// How many bytes the frame of an entry has.
fn size_of_entry(events: &EventList, entry: usize) -> usize
    ensures { result ≡ size_at entry events.now }
{
    match events.at(entry) {
        Some(Event::Frame { caught, .. }) => caught.bytes.view().len(),
        Some(Event::Tick { .. }) => SHORT,
        None => SHORT,
    }
}

// Takes the page of each port that has a record out.
fn take_pages(alloc: Global, drained: &Drained, pages: &mut [Vec<u8>], encoders: &mut Vec<Encoder>)
    requires { (encoders.old.items ≡ []) × (length pages.old ≤ vec_capacity encoders.old) }
    ensures count { length pages.new ≡ length pages.old }
    ensures out { AreOut (length pages.old) drained.now.outs encoders.new.items
        (items_in pages.old) (items_in pages.new) }
{
    for place in 0..pages.len() {
        take_own(alloc, drained, place, pages, encoders);
    }
}

// Takes the page at a place out, where its port has a record.
fn take_own(
    alloc: Global,
    drained: &Drained,
    place: usize,
    pages: &mut [Vec<u8>],
    encoders: &mut Vec<Encoder>,
)
    requires place { place < length pages.old }
    requires room { vec_len encoders.old < vec_capacity encoders.old }
    ensures count { length pages.new ≡ length pages.old }
    ensures capacity { vec_capacity encoders.new ≡ vec_capacity encoders.old }
    ensures more { vec_len encoders.new ≤ vec_len encoders.old + 1 }
    ensures out { (old : List (List ℕ)) → AreOut place drained.now.outs encoders.old.items old
        (items_in pages.old) → AreOut (place + 1) drained.now.outs encoders.new.items old
        (items_in pages.new) }
{
    if !has_record(drained, place) {
        return;
    }
    let page = mem::replace(&mut pages[place], Vec::new(alloc));
    encoders.push_reserved(Encoder {
        place,
        page,
        refused: false,
    });
}

// Whether a frame is sent on the port at a place.
fn has_record(drained: &Drained, place: usize) -> bool
    ensures { result ≡ false → NoneFor place drained.now.outs }
{
    for index in 0..drained.outs.len() {
        let Some(out) = drained.outs.at(index) else {
            unreachable!()
        };
        if out.port.index() == place {
            return true;
        }
    }
    false
}

// Has each encoder append the records of its port, in a thread of its own.
fn encode_all<R: Threads + Sync>(
    rt: &R,
    alloc: Global,
    sendings: &Sendings<'_>,
    encoders: &mut [Encoder],
)
    requires { AreEarly sendings.now.drained.now.outs }
    ensures { (k : ℕ) (d : of_pages.Encoder) → k < length encoders.old
        → IsEncoded (sents_of sendings.now) (slice_index_or encoders.old k d)
        (slice_index_or encoders.new k d) }
{
    if encoders.is_empty() {
        return;
    }
    let threads = encoders.len();
    thread::for_each_mut(
        rt,
        encoders,
        threads,
        &|_: usize, encoder: &mut Encoder|
            requires { AreEarly sendings.now.drained.now.outs }
            ensures { IsEncoded (sents_of sendings.entry.now) encoder.old encoder.new }
        { encode(alloc, sendings, encoder) },
    );
}

// Appends the records of an encoder's port.
fn encode(alloc: Global, sendings: &Sendings<'_>, encoder: &mut Encoder)
    requires { AreEarly sendings.now.drained.now.outs }
    ensures { IsEncoded (sents_of sendings.now) encoder.old encoder.new }
{
    let place = encoder.place;
    let written = write_port(alloc, sendings, place, &mut encoder.page);
    encoder.refused = written.is_err();
}

// Appends the records of the frames that are sent on the port at a place.
fn write_port(
    alloc: Global,
    sendings: &Sendings<'_>,
    place: usize,
    page: &mut Vec<u8>,
) -> Result<(), NoMemory>
    requires { AreEarly sendings.now.drained.now.outs }
    ensures ok { OnOk result (page.new.items
        ≡ page.old.items ++ records_to (place + 1) (sents_of sendings.now)) }
    ensures front { GoesOn page.old.items page.new.items }
{
    for index in 0..sendings.drained.outs.len() {
        let Some(out) = sendings.drained.outs.at(index) else {
            unreachable!()
        };
        write_own(alloc, sendings, out, place, page)?;
    }
    Ok(())
}

// Appends the record of a frame that is sent, where it is of the port at a place.
fn write_own(
    alloc: Global,
    sendings: &Sendings<'_>,
    out: &Out,
    place: usize,
    page: &mut Vec<u8>,
) -> Result<(), NoMemory>
    requires can { IsTrue (can_send sendings.now.drained.now.events out.now.message) }
    requires early { out.now.moment < 2 ^ 53 }
    ensures ok { OnOk result (page.new.items
        ≡ page.old.items ++ records_to (place + 1) (sent_by sendings.now out.now ∷ [])) }
    ensures front { GoesOn page.old.items page.new.items }
{
    if out.port.index() != place {
        return Ok(());
    }
    sendings.write_sent(alloc, out, page)?;
    Ok(())
}

// Puts all pages back. Whether memory was refused for one.
fn put_back(encoders: Vec<Encoder>, pages: &mut [Vec<u8>]) -> bool
    requires within { AreBelow (length pages.old) encoders.items }
    ensures count { length pages.new ≡ length pages.old }
    ensures pages { (q : ℕ) → q < length pages.old → piece_at (items_in pages.new) q
        ≡ page_in q encoders.items (piece_at (items_in pages.old) q) }
    ensures refused { result ≡ false → NoneRefused encoders.items }
{
    let mut encoders = encoders;
    let mut refused = false;
    while let Some(encoder) = encoders.pop() {
        let Encoder {
            place,
            page,
            refused: by_this,
        } = encoder;
        put_page(pages, place, page);
        refused = refused | by_this;
    }
    refused
}

// Puts a page back at its place.
fn put_page(pages: &mut [Vec<u8>], place: usize, page: Vec<u8>)
    requires place { place < length pages.old }
    ensures { pages.new ≡ slice_set pages.old place page }
{
    pages[place] = page;
}
