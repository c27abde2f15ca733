//! The lines of a journal, written.
ghost use Rattle.std.specs.Prelude.{◌≡◌, ◌++◌, ◌∷◌, ◌+◌, ◌≤◌, [], ◌<◌, length, decimal, IfOk, OnOk, OnErr};
ghost use Rattle.fab_policy.specs.Spelling.{IsClockOf, EndsAscend};
ghost use Rattle.fab_policy.specs.Text.{line, head_line, line1, frame_words, verdict_text};
ghost use Rattle.fab_policy.specs.Text.{cause_text, then_word, address_word, address_words};
ghost use Rattle.fab_policy.specs.Text.{code_word, LINE_FEED};
ghost use Rattle.fab_base.specs.Texts.{hex_digit};
ghost use Rattle.arrayvec.specs.ArrayVec.{array_vec_len};

use crate::words::rule_text;
use crate::{Dropped, Event, Verdict};
use arrayvec::ArrayVec;
use fab_base::{FcId, IdList, Moment, NoMemory, PortNo, address_text, append_made, put};
use itoa::Buffer;
use std::alloc::{AllocError, Global};

const FRAME_LINE: usize = 128;

/// The line of a frame, made without memory: three numbers, a verdict of at most 48 bytes.
type FrameLine = ArrayVec<u8, FRAME_LINE>;

/// Room for the line of a tick that ends few logins, so that its memory is asked for once.
const TICK_LINE: usize = 64;

/// Appends the line that begins a journal of format 2.
pub fn write_head_line(_alloc: Global, out: &mut Vec<u8>) -> Result<(), NoMemory>
    ensures ok { OnOk result (out.new.items ≡ out.old.items ++ head_line) }
    ensures err { OnErr result (out.new.items ≡ out.old.items) }
{
    append(b"journal 2\n", out)
}

/// Appends the line of an entry in format 2, as `1000 tick` or `1000 1 0 vlans`, with its line
/// feed. The clock is the moment of the last tick, and of the entry itself where that is a tick.
pub fn write_line(
    alloc: Global,
    clock: Moment,
    event: &Event,
    out: &mut Vec<u8>,
) -> Result<(), NoMemory>
    requires clock { IsClockOf clock event.now }
    requires ascending { EndsAscend event.now }
    ensures ok { OnOk result (out.new.items ≡ out.old.items ++ line clock event.now) }
    ensures err { OnErr result (out.new.items ≡ out.old.items) }
{
    match event {
        Event::Tick { ended, .. } => {
            append_made(alloc, clocked_line_of_tick(alloc, clock, ended), out)
        }
        Event::Frame {
            port,
            index,
            verdict,
            ..
        } => append(&clocked_line_of_frame(clock, *port, *index, verdict), out),
    }
}

/// Appends the line of an entry in format 1, as `tick 1000` or `1 0 vlans`, with its line feed.
pub fn write_line1(alloc: Global, event: &Event, out: &mut Vec<u8>) -> Result<(), NoMemory>
    ensures ok { OnOk result (out.new.items ≡ out.old.items ++ line1 event.now) }
    ensures err { OnErr result (out.new.items ≡ out.old.items) }
{
    match event {
        Event::Tick { moment, ended } => write_tick_line(alloc, *moment, ended, out),
        Event::Frame {
            port,
            index,
            verdict,
            ..
        } => write_frame_line(alloc, *port, *index, verdict, out),
    }
}

/// Appends the line of a tick in format 1, as `tick 1000`.
pub fn write_tick_line(
    alloc: Global,
    moment: Moment,
    ended: &IdList,
    out: &mut Vec<u8>,
) -> Result<(), NoMemory>
    ensures ok { OnOk result (
        out.new.items ≡ out.old.items ++ line1 (Event.Tick moment ended.now)) }
    ensures err { OnErr result (out.new.items ≡ out.old.items) }
{
    append_made(alloc, line_of_tick(alloc, moment, ended), out)
}

/// Appends the line of a frame's entry in format 1, as `1 0 vlans`.
pub fn write_frame_line(
    _alloc: Global,
    port: PortNo,
    index: u64,
    verdict: &Verdict,
    out: &mut Vec<u8>,
) -> Result<(), NoMemory>
    ensures ok { OnOk result (
        out.new.items ≡ out.old.items ++ (frame_words port index verdict.now ++ LINE_FEED ∷ [])) }
    ensures err { OnErr result (out.new.items ≡ out.old.items) }
{
    append(&line_of_frame(port, index, verdict), out)
}

// All bytes, or none where memory is refused.
fn append(bytes: &[u8], out: &mut Vec<u8>) -> Result<(), NoMemory>
    ensures ok { OnOk result (out.new.items ≡ out.old.items ++ bytes.now) }
    ensures err { OnErr result (out.new.items ≡ out.old.items) }
{
    match out.extend_from_slice(bytes) {
        Ok(()) => Ok(()),
        Err(_) => Err(NoMemory),
    }
}

fn clocked_line_of_tick(alloc: Global, clock: Moment, ended: &IdList) -> Result<Vec<u8>, AllocError>
    ensures { IfOk result (λ v. v.items ≡ line clock (Event.Tick clock ended.now)) }
{
    let mut line = Vec::with_capacity(alloc, TICK_LINE)?;
    line.extend_from_slice(Buffer::new().format(clock.0).as_bytes())?;
    line.extend_from_slice(b" tick")?;
    write_addresses(ended, &mut line)?;
    line.extend_from_slice(b"\n")?;
    Ok(line)
}

fn line_of_tick(alloc: Global, moment: Moment, ended: &IdList) -> Result<Vec<u8>, AllocError>
    ensures { IfOk result (λ v. v.items ≡ line1 (Event.Tick moment ended.now)) }
{
    let mut line = Vec::with_capacity(alloc, TICK_LINE)?;
    line.extend_from_slice(b"tick ")?;
    line.extend_from_slice(Buffer::new().format(moment.0).as_bytes())?;
    write_addresses(ended, &mut line)?;
    line.extend_from_slice(b"\n")?;
    Ok(line)
}

// Each address after a space.
fn write_addresses(ended: &IdList, line: &mut Vec<u8>) -> Result<(), AllocError>
    ensures { OnOk result (line.new.items ≡ line.old.items ++ address_words ended.now) }
{
    for index in 0..ended.len() {
        write_address(ended.at(index).unwrap(), line)?;
    }
    Ok(())
}

fn write_address(address: &FcId, line: &mut Vec<u8>) -> Result<(), AllocError>
    ensures { OnOk result (
        line.new.items ≡ line.old.items ++ then_word (address_word address.now)) }
{
    line.extend_from_slice(b" ")?;
    line.extend_from_slice(&address_text(address))
}

fn clocked_line_of_frame(clock: Moment, port: PortNo, index: u64, verdict: &Verdict) -> FrameLine
    ensures { result.items ≡ decimal clock ++ then_word (frame_words port index verdict.now)
        ++ LINE_FEED ∷ [] }
{
    let mut line = ArrayVec::new();
    put_digits(clock.0, &mut line);
    put(&mut line, b" ");
    put_frame_words(port, index, verdict, &mut line);
    put(&mut line, b"\n");
    line
}

fn line_of_frame(port: PortNo, index: u64, verdict: &Verdict) -> FrameLine
    ensures { result.items ≡ frame_words port index verdict.now ++ LINE_FEED ∷ [] }
{
    let mut line = ArrayVec::new();
    put_frame_words(port, index, verdict, &mut line);
    put(&mut line, b"\n");
    line
}

// The port, the index and the verdict of a frame: at most 90 bytes.
fn put_frame_words(port: PortNo, index: u64, verdict: &Verdict, line: &mut FrameLine)
    requires room { array_vec_len line.old + 90 ≤ FRAME_LINE }
    ensures text { line.new.items ≡ line.old.items ++ frame_words port index verdict.now }
    ensures size { array_vec_len line.new ≤ array_vec_len line.old + 90 }
{
    put_digits(u64::from(port.value()), line);
    put_number(index, line);
    put(line, b" ");
    put_verdict(verdict, line);
}

// The digits of a number: at most 20 bytes.
fn put_digits(number: u64, line: &mut FrameLine)
    requires room { array_vec_len line.old + 20 ≤ FRAME_LINE }
    ensures text { line.new.items ≡ line.old.items ++ decimal number }
    ensures size { array_vec_len line.new ≤ array_vec_len line.old + 20 }
{
    put(line, Buffer::new().format(number).as_bytes());
}

fn put_number(number: u64, line: &mut FrameLine)
    requires room { array_vec_len line.old + 21 ≤ FRAME_LINE }
    ensures text { line.new.items ≡ line.old.items ++ then_word (decimal number) }
    ensures size { array_vec_len line.new ≤ array_vec_len line.old + 21 }
{
    put(line, b" ");
    put_digits(number, line);
}

fn put_code(code: u8, line: &mut FrameLine)
    requires room { array_vec_len line.old + 3 ≤ FRAME_LINE }
    ensures text { line.new.items ≡ line.old.items ++ then_word (code_word code) }
    ensures size { array_vec_len line.new ≡ array_vec_len line.old + 3 }
{
    put(line, &[b' ', digit(code / 16 % 16), digit(code % 16)]);
}

fn digit(value: u8) -> u8
    requires { value < 16 }
    ensures { result ≡ hex_digit value }
{
    if value < 10 { 48 + value } else { 87 + value }
}

// A word and an address.
fn put_addressed(word: &str, address: &FcId, line: &mut FrameLine)
    requires room { array_vec_len line.old + (length word.now + 7) ≤ FRAME_LINE }
    ensures text { line.new.items
        ≡ line.old.items ++ (word.now ++ then_word (address_word address.now)) }
    ensures size { array_vec_len line.new ≡ array_vec_len line.old + (length word.now + 7) }
{
    put(line, word.as_bytes());
    put(line, b" ");
    put(line, &address_text(address));
}

// A word and a number.
fn put_numbered(word: &str, number: u32, line: &mut FrameLine)
    requires room { array_vec_len line.old + (length word.now + 21) ≤ FRAME_LINE }
    ensures text { line.new.items ≡ line.old.items ++ (word.now ++ then_word (decimal number)) }
    ensures size { array_vec_len line.new ≤ array_vec_len line.old + (length word.now + 21) }
{
    put(line, word.as_bytes());
    put_number(u64::from(number), line);
}

// A word, a reason and an explanation.
fn put_coded(word: &str, reason: u8, explanation: u8, line: &mut FrameLine)
    requires room { array_vec_len line.old + (length word.now + 6) ≤ FRAME_LINE }
    ensures text { line.new.items ≡ line.old.items
        ++ (word.now ++ then_word (code_word reason) ++ then_word (code_word explanation)) }
    ensures size { array_vec_len line.new ≡ array_vec_len line.old + (length word.now + 6) }
{
    put(line, word.as_bytes());
    put_code(reason, line);
    put_code(explanation, line);
}

// A verdict: at most 48 bytes.
fn put_verdict(verdict: &Verdict, line: &mut FrameLine)
    requires room { array_vec_len line.old + 48 ≤ FRAME_LINE }
    ensures text { line.new.items ≡ line.old.items ++ verdict_text verdict.now }
    ensures size { array_vec_len line.new ≤ array_vec_len line.old + 48 }
{
    match verdict {
        Verdict::Vlans => put(line, b"vlans"),
        Verdict::Advertised => put(line, b"advertised"),
        Verdict::Granted(address) => put_addressed("granted", address, line),
        Verdict::Rejected(reason, explanation) => {
            put_coded("rejected", *reason, *explanation, line)
        }
        Verdict::Logout(address) => put_addressed("logout", address, line),
        Verdict::AliveNode => put(line, b"alive"),
        Verdict::AlivePort(address) => put_addressed("alive", address, line),
        Verdict::NsLogin => put(line, b"ns-login"),
        Verdict::NsLogout => put(line, b"ns-logout"),
        Verdict::Watching(function) => put_numbered("watching", u32::from(*function), line),
        Verdict::Registered => put(line, b"registered"),
        Verdict::Answered => put(line, b"answered"),
        Verdict::Refused(reason, explanation) => {
            put_coded("refused", *reason, *explanation, line)
        }
        Verdict::Noted => put(line, b"noted"),
        Verdict::Forwarded(port) => put_numbered("forwarded", port.value(), line),
        Verdict::Dropped(dropped) => put_dropped(dropped, line),
    }
}

// A rule, and its number where it has one: at most 48 bytes.
fn put_dropped(dropped: &Dropped, line: &mut FrameLine)
    requires room { array_vec_len line.old + 48 ≤ FRAME_LINE }
    ensures text { line.new.items ≡ line.old.items ++ verdict_text (Verdict.Dropped dropped.now) }
    ensures size { array_vec_len line.new ≤ array_vec_len line.old + 48 }
{
    put(line, b"dropped ");
    put(line, rule_text(dropped.rule()).as_bytes());
    if let Some(number) = dropped.number() {
        put_number(u64::from(number), line);
    }
}
