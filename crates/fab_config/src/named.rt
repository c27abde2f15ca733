//! Zones and zone sets as they are read, with an index of their names.
ghost use Rattle.std.specs.Prelude.{◌≡◌, ◌<◌, ◌+◌, ℕ, List, ◌∷◌, ◌++◌, [], Option, None, Some};
ghost use Rattle.std.specs.Prelude.{Result, Ok, Err, IfErr, IfOk, IfSome, OnOk, MatchResult, true};
ghost use Rattle.std.specs.Prelude.{length, map, option_map, sum_by};
ghost use Rattle.std.specs.List.{list_all};
ghost use Rattle.std.specs.Option.{ok_or};
ghost use Rattle.fab_config.specs.Lines.{words};
ghost use Rattle.fab_config.specs.Names.{place};
ghost use Rattle.fab_config.specs.Values as spec;
ghost use Rattle.fab_config.specs.Settings.{is_zone_name as is_zone_name_spec};
ghost use Rattle.fab_config.specs.Settings.{is_letter as is_letter_spec};
ghost use Rattle.fab_config.specs.Settings.{is_name_sign as is_name_sign_spec};
ghost use Rattle.fab_config.specs.Text.{grown, one_at_least, with_named, zones_with, sets_with};
ghost use Rattle.fab_config.specs.Text.{activations_with, activation, is_later as is_later_spec};
ghost use Rattle.fab_config.specs.Text.{each_once, listed, listed_or_fault, zone_place};
ghost use Rattle.fab_config.specs.Told.{Answers, Leaves, Tells};

use crate::hexes::read_name;
use crate::index::{NameIndex, NumberIndex};
use crate::numbers::number_between;
use crate::reading::LineError;
use crate::words::{next_word, only_word};
use crate::{Activation, ActivationList, ConfigWhy, NameList, PlaceList, Zone, ZoneSet};
use fab_base::{Bytes, Moment, NoMemory, OwnedList, Wwn};
use std::alloc::Global;
use std::marker::Model;

const MOST_ZONES: u32 = 1000;

const MOST_MEMBERS: u32 = 20000;

const MOST_SETS: u32 = 64;

const MOST_PLACES: u32 = 4000;

const MOST_ACTIVATIONS: usize = 64;

/// The last moment of an activation, which is the last millisecond that a capture can have.
pub const LAST_MOMENT: u64 = 4294967295999;

/// A zone or a zone set: a name, and numbers under it.
pub(crate) trait Listing: Drop {
    ghost use Rattle.std.specs.Prelude.{ℕ, List};

    ghost name: { Self → List ℕ };

    ghost numbers: { Self → List ℕ };

    /// How many numbers are under it.
    fn count(&self) -> usize
        ensures { result ≡ length (numbers self.now) };
}

impl Listing for Zone {
    ghost name = { λ z. z.name };

    ghost numbers = { λ z. z.members };

    fn count(&self) -> usize {
        self.members.len()
    }
}

impl Listing for ZoneSet {
    ghost name = { λ s. s.name };

    ghost numbers = { λ s. s.places };

    fn count(&self) -> usize {
        self.places.len()
    }
}

/// The zones or the zone sets so far.
#[derive(Drop)]
pub(crate) struct Named<T: Listing> {
    names: NameIndex,
    list: OwnedList<T>,
    numbers: usize,
}

impl<T: Listing> Model for Named<T> {
    ghost use Rattle.std.specs.Prelude.{List};
    ghost use Rattle.fab_config.specs.Kept.{Keeps};

    ghost Value = { List T };

    ghost view = { λ n. n.list };

    ghost invariant = { λ n. Keeps T.name T.numbers n.names n.list n.numbers };
}

pub(crate) type NamedZones = Named<Zone>;

pub(crate) type NamedSets = Named<ZoneSet>;

impl<T: Listing> Named<T> {
    pub(crate) fn new(alloc: Global) -> Result<Named<T>, NoMemory>
        ensures { IfOk result (λ n. n ≡ []) }
    {
        Ok(Named {
            names: NameIndex::new(alloc),
            list: OwnedList::new(alloc)?,
            numbers: 0,
        })
    }

    /// The place of the item of this name.
    pub(crate) fn place(&self, name: &[u8]) -> Option<u32>
        ensures value { result ≡ place name.now (map T.name self.now) }
        ensures range { IfSome result (λ p. p < length self.now) }
    {
        let place = self.names.place(name)?;
        Some(place as u32)
    }

    /// The items, in the order of the text.
    pub(crate) fn into_list(self) -> OwnedList<T>
        ensures { result ≡ self }
    {
        let Named {
            names: _,
            list,
            numbers: _,
        } = self;
        list
    }

    // The first word of a line, where it is a name that is new here, and what is behind it.
    fn new_name<'a>(&self, values: &'a [u8]) -> Result<(&'a [u8], &'a [u8]), ConfigWhy>
        ensures words { IfOk result (λ p. words values.now ≡ p.0.now ∷ words p.1.now) }
        ensures new { IfOk result (λ p. place p.0.now (map T.name self.now) ≡ None) }
        ensures name { IfOk result (λ p. is_zone_name_spec p.0.now ≡ true) }
        ensures fault { IfErr result (λ why. (says : List ℕ → Option ℕ)
            (put : List ℕ → List ℕ → Result (List T) ConfigWhy)
            → with_named (map T.name self.now) says put (words values.now) ≡ Err why) }
    {
        let Some((name, rest)) = next_word(values) else {
            return Err(ConfigWhy::Value);
        };
        if self.place(name).is_some() {
            return Err(ConfigWhy::Twice);
        }
        if !is_zone_name(name) {
            return Err(ConfigWhy::Value);
        }
        Ok((name, rest))
    }

    // How many numbers there are with one more item, where that is within the limits.
    fn numbers_with(&self, item: &T, most: u32, most_numbers: u32) -> Result<usize, ConfigWhy>
        ensures sum { IfOk result (λ n. n ≡ sum_by (λ x. length (T.numbers x))
            (self.now ++ item.now ∷ [])) }
        ensures few { OnOk result (length self.now < most) }
        ensures within { let more = self.now ++ item.now ∷ [] in
            OnOk result (grown T.numbers most most_numbers more ≡ Ok more) }
        ensures limit { IfErr result (λ why. grown T.numbers most most_numbers
            (self.now ++ item.now ∷ []) ≡ Err why) }
    {
        let Some(numbers) = self.numbers.checked_add(item.count()) else {
            return Err(ConfigWhy::Limit);
        };
        if self.list.len() >= most as usize || numbers > most_numbers as usize {
            return Err(ConfigWhy::Limit);
        }
        Ok(numbers)
    }

    // The list with one more item, within the limits.
    fn grown(
        self,
        alloc: Global,
        name: &[u8],
        item: T,
        most: u32,
        most_numbers: u32,
    ) -> Result<Named<T>, LineError>
        requires new { place name.now (map T.name self) ≡ None }
        requires named { T.name item ≡ name.now }
        ensures { Answers result (grown T.numbers most most_numbers (self ++ item ∷ [])) }
    {
        let numbers = self.numbers_with(&item, most, most_numbers)?;
        let Named {
            mut names,
            mut list,
            ..
        } = self;
        names.push(alloc, name)?;
        list.push(alloc, item)?;
        Ok(Named {
            names,
            list,
            numbers,
        })
    }
}

/// The zones with the zone of a line with these values behind them.
#[tactic(auto, unfolding(crate::specs::Text::zones_with))]
pub(crate) fn with_zone(
    zones: NamedZones,
    alloc: Global,
    values: &[u8],
) -> Result<NamedZones, LineError>
    ensures { Answers result (zones_with zones (words values.now)) }
{
    let (name, rest) = zones.new_name(values)?;
    let members = read_members(alloc, rest)?;
    let zone = Zone {
        name: Bytes::copy(alloc, name)?,
        members,
    };
    zones.grown(alloc, name, zone, MOST_ZONES, MOST_MEMBERS)
}

/// The zone sets with the one of a line with these values behind them.
#[tactic(auto, unfolding(crate::specs::Text::sets_with))]
pub(crate) fn with_set(
    sets: NamedSets,
    alloc: Global,
    zones: &NamedZones,
    values: &[u8],
) -> Result<NamedSets, LineError>
    ensures { Answers result (sets_with zones.now sets (words values.now)) }
{
    let (name, rest) = sets.new_name(values)?;
    let places = read_zones(alloc, zones, rest)?;
    let set = ZoneSet {
        name: Bytes::copy(alloc, name)?,
        places,
    };
    sets.grown(alloc, name, set, MOST_SETS, MOST_PLACES)
}

// The names of a zone's line, one at least, each of which counts once.
fn read_members(alloc: Global, values: &[u8]) -> Result<NameList, LineError>
    ensures { MatchResult result (λ m. listed spec.name (words values.now) ≡ Some m)
        (λ e. Tells e (listed_or_fault spec.name (words values.now))) }
{
    let members = read_names(alloc, values)?;
    Ok(one_at_least(members)?)
}

// A list that was read, which has one item at least.
fn one_at_least<T: Drop>(list: OwnedList<T>) -> Result<OwnedList<T>, ConfigWhy>
    ensures { result ≡ one_at_least list }
{
    if list.len() > 0 {
        Ok(list)
    } else {
        Err(ConfigWhy::Value)
    }
}

// The names of words, each of which is one.
fn read_names(alloc: Global, values: &[u8]) -> Result<NameList, LineError>
    ensures { Answers result (each_once spec.name (words values.now)) }
{
    let mut members = NameList::new(alloc)?;
    let mut seen = NumberIndex::new(alloc);
    let mut rest = values;
    while let Some((word, more)) = next_word(rest) {
        let name = read_member(word)?;
        add_name(alloc, &mut members, &mut seen, name)?;
        rest = more;
    }
    Ok(members)
}

// The name of a zone's member.
fn read_member(word: &[u8]) -> Result<Wwn, ConfigWhy>
    ensures { result ≡ ok_or (spec.name word.now) ConfigWhy.Value }
{
    read_name(word).ok_or(ConfigWhy::Value)
}

// Appends a name unless it is there.
fn add_name(
    alloc: Global,
    members: &mut NameList,
    seen: &mut NumberIndex,
    name: Wwn,
) -> Result<(), NoMemory>
    requires { seen.old ≡ members.old }
    ensures members { OnOk result (members.new ≡ spec.once_more members.old name) }
    ensures seen { OnOk result (seen.new ≡ members.new) }
{
    if seen.add(name.0)? {
        members.push(alloc, name)
    } else {
        Ok(())
    }
}

// The places of the zones of a zone set's line, one at least, each of which counts once.
fn read_zones(alloc: Global, zones: &NamedZones, values: &[u8]) -> Result<PlaceList, LineError>
    ensures { let says = zone_place zones.now in
        MatchResult result (λ m. listed says (words values.now) ≡ Some m)
        (λ e. Tells e (listed_or_fault says (words values.now))) }
{
    let places = read_places(alloc, zones, values)?;
    Ok(one_at_least(places)?)
}

// The places of the zones of these names, each of which is the name of one.
fn read_places(alloc: Global, zones: &NamedZones, values: &[u8]) -> Result<PlaceList, LineError>
    ensures { Answers result (each_once (zone_place zones.now) (words values.now)) }
{
    let mut places = PlaceList::new(alloc)?;
    let mut seen = NumberIndex::new(alloc);
    let mut rest = values;
    while let Some((word, more)) = next_word(rest) {
        let place = read_place(zones, word)?;
        add_place(alloc, &mut places, &mut seen, place)?;
        rest = more;
    }
    Ok(places)
}

// The place of the zone of this name.
fn read_place(zones: &NamedZones, word: &[u8]) -> Result<u32, ConfigWhy>
    ensures { result ≡ ok_or (zone_place zones.now word.now) ConfigWhy.Value }
{
    zones.place(word).ok_or(ConfigWhy::Value)
}

// Appends a place unless it is there.
fn add_place(
    alloc: Global,
    places: &mut PlaceList,
    seen: &mut NumberIndex,
    place: u32,
) -> Result<(), NoMemory>
    requires { seen.old ≡ places.old }
    ensures places { OnOk result (places.new ≡ spec.once_more places.old place) }
    ensures seen { OnOk result (seen.new ≡ places.new) }
{
    if seen.add(u64::from(place))? {
        places.push(alloc, place)
    } else {
        Ok(())
    }
}

/// Puts the activation of a line with these values behind the others.
pub(crate) fn put_activation(
    activations: &mut ActivationList,
    alloc: Global,
    sets: &NamedSets,
    values: &[u8],
) -> Result<(), LineError>
    ensures { Leaves activations.new result
        (activations_with sets.now activations.old (words values.now)) }
{
    let activation = next_activation(activations, sets, values)?;
    activations.push(alloc, activation)?;
    Ok(())
}

// The activation of a line with these values, where there may be one more.
#[tactic(auto, unfolding(crate::specs::Text::activations_with))]
fn next_activation(
    activations: &ActivationList,
    sets: &NamedSets,
    values: &[u8],
) -> Result<Activation, ConfigWhy>
    ensures { let says = activations_with sets.now activations.now (words values.now) in
        MatchResult result (λ a. says ≡ Ok (activations.now ++ a ∷ [])) (λ why. says ≡ Err why) }
{
    let Some(activation) = read_activation(activations, sets, values) else {
        return Err(ConfigWhy::Value);
    };
    if activations.len() >= MOST_ACTIVATIONS {
        return Err(ConfigWhy::Limit);
    }
    Ok(activation)
}

// The activation of a line with these values.
fn read_activation(
    activations: &ActivationList,
    sets: &NamedSets,
    values: &[u8],
) -> Option<Activation>
    ensures { result ≡ activation sets.now activations.now (words values.now) }
{
    let (name, rest) = next_word(values)?;
    let word = only_word(rest)?;
    let set = sets.place(name)?;
    let moment = Moment(number_between(word, 0, LAST_MOMENT)?);
    if is_later(activations, moment) {
        Some(Activation { set, moment })
    } else {
        None
    }
}

// Above the moment of each activation.
fn is_later(activations: &ActivationList, moment: Moment) -> bool
    ensures { result ≡ is_later_spec activations.now moment }
{
    for index in 0..activations.len() {
        if activations.at(index).unwrap().moment >= moment {
            return false;
        }
    }
    true
}

// A name of a zone or of a zone set (FC-GS-6, "zone name").
fn is_zone_name(name: &[u8]) -> bool
    ensures { result ≡ is_zone_name_spec name.now }
{
    let Some((first, signs)) = name.split_first() else {
        return false;
    };
    is_letter(*first) && are_signs(signs) && signs.len() < 64
}

fn are_signs(signs: &[u8]) -> bool
    ensures { result ≡ list_all is_name_sign_spec signs.now }
{
    signs.iter().all(|sign| is_name_sign(*sign))
}

fn is_letter(byte: u8) -> bool
    ensures { result ≡ is_letter_spec byte }
{
    byte >= b'A' && byte <= b'Z' || byte >= b'a' && byte <= b'z'
}

fn is_name_sign(byte: u8) -> bool
    ensures { result ≡ is_name_sign_spec byte }
{
    is_letter(byte)
        || byte >= b'0' && byte <= b'9'
        || byte == b'$'
        || byte == b'-'
        || byte == b'^'
        || byte == b'_'
}
