//! Who was heard when, and who is silent too long (FC-BB-5, "FIP keep alive").
ghost use Rattle.case_lines.specs.Printing.{Grows};
ghost use Rattle.std.specs.Prelude.{◌≡◌, ◌<◌, ◌≤◌, length};

use crate::held::{open, open_in};
use crate::say::{end, end_bool, end_moment, say, say_address, say_enode};
use crate::words::{CaseFault, address, enode, moment, name_at, small};
use fab_base::{Moment, NoMemory};
use keepalive_clock::{KeepClock, Steps, Voice};
use std::alloc::Global;
use std::marker::Brand;
use std::sync::ledger::{Blank, Ledger};

/// A clock of keep alives, with how many voices it holds at most, and at most now.
#[derive(Drop)]
pub(crate) struct Voices {
    clock: KeepClock,
    room: u32,
    used: u32,
    ghost roomy: { clock.room ≡ room },
    ghost few: { length clock.voices ≤ used },
}

/// A call of a clock of keep alives.
pub(crate) fn voice_call(
    alloc: Global,
    held: &mut Option<Voices>,
    line: &[u8],
    out: &mut Vec<u8>,
) -> Result<(), CaseFault>
    ensures grows { Grows out.old.items out.new.items }
{
    if name_at(line, 1) == "open" {
        let voices = opened(alloc, small(line, 2)?, small(line, 3)?, small(line, 4)?)?;
        return open(held, voices, out);
    }
    open_in(held)?.asked(line, out)
}

fn opened(alloc: Global, nodes: u32, ports: u32, room: u32) -> Result<Voices, NoMemory> {
    let clock = KeepClock::new(alloc, nodes, ports, room)?;
    let used = 0;
    Ok(Voices { clock, room, used })
}

impl Voices {
    fn asked(&mut self, line: &[u8], out: &mut Vec<u8>) -> Result<(), CaseFault>
        ensures grows { Grows out.old.items out.new.items }
    {
        match name_at(line, 1) {
            "heard" => {
                self.heard(voice(line, 3)?, moment(line, 2)?)?;
                end(out, "heard")
            }
            "forget" => end_bool(out, self.clock.forget(voice(line, 2)?)),
            "silent" => {
                let now = moment(line, 2)?;
                said(out, self.silent(now))
            }
            "last" => end_moment(out, self.clock.last(&voice(line, 2)?)),
            "due" => end_moment(out, self.clock.due()),
            _ => Err(CaseFault::Words),
        }
    }

    // A voice that is silent too long, which is taken out.
    fn silent(&mut self, now: Moment) -> Option<Voice> {
        popped::<Brand>(&mut self.clock, now, Blank::new(1))
    }

    // A voice was heard, of which there is room.
    fn heard(&mut self, voice: Voice, now: Moment) -> Result<(), CaseFault> {
        if now.0 >= 1 << 63 {
            return Err(CaseFault::Refused);
        }
        if self.clock.last(&voice).is_some() {
            self.clock.heard(voice, now);
            return Ok(());
        }
        if self.used >= self.room {
            return Err(CaseFault::Refused);
        }
        self.clock.heard(voice, now);
        self.used += 1;
        Ok(())
    }
}

fn popped<L: Ledger>(clock: &mut KeepClock, now: Moment, blank: Blank) -> Option<Voice>
    requires name { blank.name ≡ L.name }
    requires parts { blank.parts ≡ L.parts }
    requires some { 0 < blank.parts }
    ensures few { length clock.new.voices ≤ length clock.old.voices }
    ensures room { clock.new.room ≡ clock.old.room }
{
    let mut steps = Steps::<L>::new(blank);
    clock.pop_due(now, &mut steps)
}

// `node PORT MAC` or `port ADDRESS`.
fn voice(line: &[u8], place: usize) -> Result<Voice, CaseFault>
    requires { place < 900 }
{
    match name_at(line, place) {
        "node" => Ok(Voice::Node(enode(line, place + 1)?)),
        "port" => Ok(Voice::Port(address(line, place + 1)?)),
        _ => Err(CaseFault::Words),
    }
}

fn said(out: &mut Vec<u8>, voice: Option<Voice>) -> Result<(), CaseFault>
    ensures grows { Grows out.old.items out.new.items }
{
    match voice {
        Some(voice) => said_voice(out, &voice),
        None => end(out, "none"),
    }
}

fn said_voice(out: &mut Vec<u8>, voice: &Voice) -> Result<(), CaseFault>
    ensures grows { Grows out.old.items out.new.items }
{
    match voice {
        Voice::Node(enode) => {
            say(out, "node")?;
            say_enode(out, enode)?;
        }
        Voice::Port(address) => {
            say(out, "port")?;
            say_address(out, *address)?;
        }
    }
    end(out, "is silent")
}
