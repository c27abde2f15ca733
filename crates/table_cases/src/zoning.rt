//! Zones (FC-SW, "zone set"), and whom a state change reaches (FC-LS-2, "SCR" and "RSCN").
ghost use Rattle.case_lines.specs.Printing.{Grows};
ghost use Rattle.std.specs.Prelude.{◌≡◌, ◌≤◌, length, IsTrue};
ghost use Rattle.state_change.specs.Watchers as spec;

use crate::held::{open, open_in};
use crate::say::{end, end_address, end_bool, end_moment, end_number};
use crate::words::{
    CaseFault, address, has_word, hexadecimal, moment, name, name_at, octet, small,
};
use case_lines::word_at;
use fab_base::{Bytes, FcId, NoMemory, Wwn};
use fab_config::{
    Activation, ActivationList, NameList, PlaceList, SetList, Zone, ZoneList, ZoneSet,
};
use state_change::Watchers;
use std::alloc::Global;
use zone_rules::Zones;

/// The zones, zone sets and activations so far.
pub(crate) struct Drawn {
    zones: ZoneList,
    sets: SetList,
    activations: ActivationList,
}

impl Drop for Drawn {
    // By hand, so that it is dropped by one call.
    fn drop(self) {
        let Drawn {
            zones: _zones,
            sets: _sets,
            activations: _activations,
        } = self;
    }
}

/// Watchers, with how many there may be, and are at most.
#[derive(Drop)]
pub(crate) struct Watched {
    watchers: Watchers,
    room: u32,
    used: u32,
    ghost roomy: { watchers.room ≡ room },
    ghost few: { length watchers.watchers ≤ used },
}

/// Zones as they are drawn, and as they are built.
#[derive(Drop)]
pub(crate) struct Zoning {
    drawn: Drawn,
    built: Zones,
}

/// A call of zones.
pub(crate) fn zone_call(
    alloc: Global,
    held: &mut Option<Zoning>,
    line: &[u8],
    out: &mut Vec<u8>,
) -> Result<(), CaseFault>
    ensures grows { Grows out.old.items out.new.items }
{
    if name_at(line, 1) == "open" {
        return open(held, opened(alloc)?, out);
    }
    open_in(held)?.asked(alloc, line, out)
}

fn opened(alloc: Global) -> Result<Zoning, NoMemory> {
    let drawn = Drawn {
        zones: ZoneList::empty(alloc),
        sets: SetList::empty(alloc),
        activations: ActivationList::empty(alloc),
    };
    let built = drawn.built(alloc)?;
    Ok(Zoning { drawn, built })
}

impl Drawn {
    fn built(&self, alloc: Global) -> Result<Zones, NoMemory> {
        Zones::build(alloc, &self.zones, &self.sets, &self.activations)
    }

    fn add_zone(&mut self, alloc: Global, line: &[u8]) -> Result<(), CaseFault> {
        let zone = zone(alloc, line)?;
        Ok(self.zones.push(alloc, zone)?)
    }

    fn add_set(&mut self, alloc: Global, line: &[u8]) -> Result<(), CaseFault> {
        let set = set(alloc, line)?;
        Ok(self.sets.push(alloc, set)?)
    }

    fn add_activation(&mut self, alloc: Global, line: &[u8]) -> Result<(), CaseFault> {
        let activation = activation(line)?;
        Ok(self.activations.push(alloc, activation)?)
    }
}

impl Zoning {
    fn asked(&mut self, alloc: Global, line: &[u8], out: &mut Vec<u8>) -> Result<(), CaseFault>
        ensures grows { Grows out.old.items out.new.items }
    {
        match name_at(line, 1) {
            "zone" => self.drawn.add_zone(alloc, line)?,
            "set" => self.drawn.add_set(alloc, line)?,
            "activation" => self.drawn.add_activation(alloc, line)?,
            "build" => self.build(alloc)?,
            "joined" => return joined(&self.built, line, out),
            "next" => return end_moment(out, self.built.next_change(moment(line, 2)?)),
            _ => return Err(CaseFault::Words),
        }
        end(out, "drawn")
    }

    fn build(&mut self, alloc: Global) -> Result<(), NoMemory> {
        self.built = self.drawn.built(alloc)?;
        Ok(())
    }
}

// `joined AT NAME NAME`.
fn joined(zones: &Zones, line: &[u8], out: &mut Vec<u8>) -> Result<(), CaseFault>
    ensures grows { Grows out.old.items out.new.items }
{
    let at = moment(line, 2)?;
    let first = name(line, 3)?;
    let second = name(line, 4)?;
    end_bool(out, zones.joined(at, first, second))
}

// `zone NAME MEMBER..`.
fn zone(alloc: Global, line: &[u8]) -> Result<Zone, CaseFault> {
    let members = members(alloc, line)?;
    let name = Bytes::copy(alloc, word_at(line, 2))?;
    Ok(Zone { name, members })
}

fn members(alloc: Global, line: &[u8]) -> Result<NameList, CaseFault> {
    let mut members = NameList::new(alloc)?;
    for place in 3..first_empty(line) {
        members.push(alloc, name(line, place)?)?;
    }
    Ok(members)
}

// `set NAME PLACE..`.
fn set(alloc: Global, line: &[u8]) -> Result<ZoneSet, CaseFault> {
    let places = places(alloc, line)?;
    let name = Bytes::copy(alloc, word_at(line, 2))?;
    Ok(ZoneSet { name, places })
}

fn places(alloc: Global, line: &[u8]) -> Result<PlaceList, CaseFault> {
    let mut places = PlaceList::new(alloc)?;
    for place in 3..first_empty(line) {
        places.push(alloc, small(line, place)?)?;
    }
    Ok(places)
}

// The first place from 3 on at which a line has no word.
fn first_empty(line: &[u8]) -> usize {
    for place in 3..1000 {
        if !has_word(line, place) {
            return place;
        }
    }
    1000
}

// `activation PLACE AT`.
fn activation(line: &[u8]) -> Result<Activation, CaseFault> {
    Ok(Activation {
        set: small(line, 2)?,
        moment: moment(line, 3)?,
    })
}

/// A call of watchers, over these zones.
pub(crate) fn watcher_call(
    alloc: Global,
    held: &mut Option<Watched>,
    zoning: &Option<Zoning>,
    line: &[u8],
    out: &mut Vec<u8>,
) -> Result<(), CaseFault>
    ensures grows { Grows out.old.items out.new.items }
{
    if name_at(line, 1) == "open" {
        return open(held, watchers_opened(alloc, small(line, 2)?)?, out);
    }
    open_in(held)?.asked(zoning, line, out)
}

fn watchers_opened(alloc: Global, room: u32) -> Result<Watched, NoMemory> {
    let watchers = Watchers::new(alloc, room)?;
    let used = 0;
    Ok(Watched {
        watchers,
        room,
        used,
    })
}

impl Watched {
    fn asked(
        &mut self,
        zoning: &Option<Zoning>,
        line: &[u8],
        out: &mut Vec<u8>,
    ) -> Result<(), CaseFault>
        ensures grows { Grows out.old.items out.new.items }
    {
        match name_at(line, 1) {
            "set" => self.set_by(line, out),
            "forget" => end_bool(out, self.watchers.forget(address(line, 2)?)),
            "function" => end_number(out, u64::from(self.watchers.function_of(address(line, 2)?))),
            _ => match zoning {
                Some(zoning) => end_recipient(&self.watchers, &zoning.built, line, out),
                None => Err(CaseFault::Closed),
            },
        }
    }

    // `set ADDRESS NAME FUNCTION`.
    fn set_by(&mut self, line: &[u8], out: &mut Vec<u8>) -> Result<(), CaseFault>
        ensures grows { Grows out.old.items out.new.items }
    {
        let address = address(line, 2)?;
        let name = name(line, 3)?;
        let function = octet(line, 4)?;
        self.set(address, name, function)?;
        end(out, "set")
    }

    fn set(&mut self, address: FcId, name: Wwn, function: u8) -> Result<(), CaseFault> {
        if !is_function(function) || self.used >= self.room {
            return Err(CaseFault::Refused);
        }
        self.watchers.set(address, name, function);
        self.used += 1;
        Ok(())
    }
}

pub fn is_function(function: u8) -> bool
    ensures { result ≡ spec.is_function function }
{
    function == 1 || function == 2 || function == 3 || function == 255
}

// `told AT AFFECTED FROM`, `changed BEFORE AT AFFECTED FROM`: the first watcher from an address on.
fn end_recipient(
    watchers: &Watchers,
    zones: &Zones,
    line: &[u8],
    out: &mut Vec<u8>,
) -> Result<(), CaseFault>
    ensures grows { Grows out.old.items out.new.items }
{
    match name_at(line, 1) {
        "told" => told(watchers, zones, line, out),
        "changed" => changed(watchers, zones, line, out),
        _ => Err(CaseFault::Words),
    }
}

fn told(watchers: &Watchers, zones: &Zones, line: &[u8], out: &mut Vec<u8>) -> Result<(), CaseFault>
    ensures grows { Grows out.old.items out.new.items }
{
    let at = moment(line, 2)?;
    let affected = name(line, 3)?;
    let from = hexadecimal(line, 4)?;
    end_address(out, watchers.next_recipient(zones, at, affected, from))
}

fn changed(
    watchers: &Watchers,
    zones: &Zones,
    line: &[u8],
    out: &mut Vec<u8>,
) -> Result<(), CaseFault>
    ensures grows { Grows out.old.items out.new.items }
{
    let before = moment(line, 2)?;
    let at = moment(line, 3)?;
    let affected = name(line, 4)?;
    let from = hexadecimal(line, 5)?;
    end_address(
        out,
        watchers.next_changed(zones, before, at, affected, from),
    )
}
