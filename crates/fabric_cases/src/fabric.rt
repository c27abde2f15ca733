//! A forwarder: frames stepped one by one, its journal and each byte that it sends.
ghost use Rattle.std.specs.Prelude.{◌≡◌, ◌≤◌, ◌<◌, ◌^◌, IsSome, IfSome};

use fab_base::{Caught, FcId, Moment, NoMemory, PortNo};
use fab_config::Config;
use fab_policy::{write_frame_line, write_line1};
use fab_replay::write_shown;
use forward_core::{Drained, EventList, Fabric, Out, StepFault, write_out};
use frame_cases::{caught, config_of};
use heard_frames::hear;
use std::alloc::Global;
use table_cases::held::{open, open_in};
use table_cases::logins::said;
use table_cases::say::{end, end_address, end_hex, end_moment, end_number, say, say_when};
use table_cases::words::{
    CaseFault, address, has_word, hexadecimal, moment, name_at, number, port, small,
};

/// A call of a forwarder.
pub(crate) fn fabric_call(
    alloc: Global,
    held: &mut Option<Fabric>,
    text: &[u8],
    line: &[u8],
    out: &mut Vec<u8>,
) -> Result<(), CaseFault> {
    if name_at(line, 1) == "open" {
        return open(held, opened(alloc, text, small(line, 2)?)?, out);
    }
    asked(alloc, open_in(held)?, line, out)
}

fn opened(alloc: Global, text: &[u8], ports: u32) -> Result<Fabric, CaseFault> {
    let config = config_of(alloc, text)?;
    if ports < 1 || ports > 64 {
        return Err(CaseFault::Refused);
    }
    match Fabric::new(alloc, config, ports) {
        Ok(fabric) => Ok(fabric),
        Err(_) => Err(CaseFault::Memory),
    }
}

fn asked(
    alloc: Global,
    fabric: &mut Fabric,
    line: &[u8],
    out: &mut Vec<u8>,
) -> Result<(), CaseFault> {
    match name_at(line, 1) {
        "tick" => ticked(alloc, fabric, moment(line, 2)?, out),
        "until" => until(alloc, fabric, moment(line, 2)?, out),
        "step" => stepped(alloc, fabric, line, out),
        "drain" => drained(alloc, fabric, out),
        _ => found(alloc, fabric, line, out),
    }
}

fn found(alloc: Global, fabric: &Fabric, line: &[u8], out: &mut Vec<u8>) -> Result<(), CaseFault> {
    match name_at(line, 1) {
        "due" => end_moment(out, fabric.due()),
        "login" => said(out, fabric.login(address(line, 2)?)),
        "next" => end_address(out, fabric.next_login(hexadecimal(line, 2)?)),
        "watch" => end_number(out, u64::from(fabric.watch(address(line, 2)?))),
        "show" => Ok(write_shown(alloc, fabric, number(line, 2)?, out)?),
        _ => Err(CaseFault::Words),
    }
}

// `tick AT`: how many logins end.
fn ticked(
    alloc: Global,
    fabric: &mut Fabric,
    now: Moment,
    out: &mut Vec<u8>,
) -> Result<(), CaseFault> {
    say(out, "ended")?;
    end_number(out, u64::from(tick(alloc, fabric, now)?))
}

fn tick(alloc: Global, fabric: &mut Fabric, now: Moment) -> Result<u32, CaseFault> {
    if now.0 >= 1 << 63 {
        return Err(CaseFault::Refused);
    }
    if let Some(before) = fabric.clock() {
        if now.0 <= before.0 {
            return Err(CaseFault::Refused);
        }
    }
    Ok(fabric.tick(alloc, now)?)
}

// `until AT`: the ticks that are owed before a moment, and then that of its window, where the clock
// isn't there yet.
fn until(
    alloc: Global,
    fabric: &mut Fabric,
    now: Moment,
    out: &mut Vec<u8>,
) -> Result<(), CaseFault> {
    let mut ticks: u64 = 0;
    for _ in 0..1000 {
        match fabric.due() {
            Some(due) if due <= now => tick(alloc, fabric, due)?,
            _ => break,
        };
        ticks = u64::saturating_add(ticks, 1);
    }
    if fabric.clock() != Some(now) {
        tick(alloc, fabric, now)?;
        ticks = u64::saturating_add(ticks, 1);
    }
    say(out, "ticks")?;
    end_number(out, ticks)
}

// `step PORT INDEX whole|cut FRAME`, and a wish: the verdict, or `taken`.
fn stepped(
    alloc: Global,
    fabric: &mut Fabric,
    line: &[u8],
    out: &mut Vec<u8>,
) -> Result<(), CaseFault> {
    if fabric.clock().is_none() {
        return Err(CaseFault::Refused);
    }
    let wish = match has_word(line, 6) {
        true => Some(address(line, 6)?),
        false => None,
    };
    let caught = caught(alloc, line, 4)?;
    step(
        alloc,
        fabric,
        port(line, 2)?,
        number(line, 3)?,
        &caught,
        wish,
        out,
    )
}

fn step(
    alloc: Global,
    fabric: &mut Fabric,
    port: PortNo,
    index: u64,
    caught: &Caught,
    wish: Option<FcId>,
    out: &mut Vec<u8>,
) -> Result<(), CaseFault>
    requires { IsSome fabric.old.state.tables.clock }
{
    match fabric.step(alloc, port, index, &hear(caught), wish) {
        Ok(verdict) => Ok(write_frame_line(alloc, port, index, &verdict, out)?),
        Err(StepFault::WishTaken) => end(out, "taken"),
        Err(StepFault::Memory) => Err(CaseFault::Memory),
    }
}

// `drain`: the entries and what was sent since the last time.
fn drained(alloc: Global, fabric: &mut Fabric, out: &mut Vec<u8>) -> Result<(), CaseFault> {
    let drained = fabric.drain();
    said_all(alloc, fabric.config(), &drained, out)
}

fn said_all(
    alloc: Global,
    config: &Config,
    drained: &Drained,
    out: &mut Vec<u8>,
) -> Result<(), CaseFault> {
    said_entries(alloc, &drained.events, out)?;
    for index in 0..drained.outs.len() {
        let Some(sent) = drained.outs.at(index) else {
            unreachable!()
        };
        let mut bytes = Vec::new(alloc);
        write_out(alloc, config, &drained.events, sent, &mut bytes)?;
        said_sent(sent, &bytes, out)?;
    }
    Ok(())
}

fn said_entries(alloc: Global, events: &EventList, out: &mut Vec<u8>) -> Result<(), CaseFault> {
    for index in 0..events.len() {
        if let Some(event) = events.at(index) {
            write_line1(alloc, event, out)?;
        }
    }
    Ok(())
}

fn said_sent(sent: &Out, bytes: &[u8], out: &mut Vec<u8>) -> Result<(), CaseFault> {
    say(out, "sent")?;
    say_when(out, sent.port, sent.moment)?;
    end_hex(out, bytes)
}
