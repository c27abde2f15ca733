//! What the lines of a text say so far.
ghost use Rattle.std.specs.Prelude.{◌≡◌, ◌<◌, ◌^◌, Ok, Err, IfErr, IfNone, IfOk, IfSome, MatchResult};
ghost use Rattle.std.specs.Prelude.{true, unwrap_or};
ghost use Rattle.fab_config.specs.Lines.{words};
ghost use Rattle.fab_config.specs.Text as spec;
ghost use Rattle.fab_config.specs.Told.{Answers, Leaves};
ghost use Rattle.fab_config.specs.Fitting.{Fits};

use crate::hexes::{only_fc_map, only_name, only_station};
use crate::keyword::{Keyword, NumberKey, keyword_of};
use crate::named::{NamedSets, NamedZones, put_activation, with_set, with_zone};
use crate::numbers::only_number;
use crate::reading::LineError;
use crate::words::{is_ascii, is_skipped, next_word};
use crate::{ActivationList, Config, ConfigWhy};
use fab_base::{Mac, NoMemory, Wwn};
use std::alloc::Global;

/// The values of the keys so far, and the lists.
#[derive(Drop)]
pub(crate) struct Draft {
    pub(crate) fcf_mac: Option<Mac>,
    pub(crate) vlan: Option<u32>,
    pub(crate) switch: Option<Wwn>,
    pub(crate) map: Option<u32>,
    pub(crate) domain: Option<u32>,
    pub(crate) pool: Option<u32>,
    pub(crate) priority: Option<u32>,
    pub(crate) period: Option<u32>,
    pub(crate) window: Option<u32>,
    pub(crate) limit: Option<u32>,
    pub(crate) zones: NamedZones,
    pub(crate) sets: NamedSets,
    pub(crate) activations: ActivationList,
}

impl Draft {
    /// What no line says.
    pub(crate) fn new(alloc: Global) -> Result<Draft, NoMemory>
        ensures { IfOk result (λ d. d ≡ spec.NOTHING) }
    {
        let zones = NamedZones::new(alloc)?;
        let sets = NamedSets::new(alloc)?;
        let activations = ActivationList::new(alloc)?;
        Ok(Draft {
            fcf_mac: None,
            vlan: None,
            switch: None,
            map: None,
            domain: None,
            pool: None,
            priority: None,
            period: None,
            window: None,
            limit: None,
            zones,
            sets,
            activations,
        })
    }

    /// What is said with one more line.
    pub(crate) fn with_line(self, alloc: Global, line: &[u8]) -> Result<Draft, LineError>
        ensures { Answers result (spec.line_read self line.now) }
    {
        match key_and_values(line)? {
            Some((keyword, values)) => self.with(alloc, keyword, values),
            None => Ok(self),
        }
    }

    // What is said with a line of this key and these values.
    fn with(self, alloc: Global, keyword: Keyword, values: &[u8]) -> Result<Draft, LineError>
        ensures { Answers result (spec.with_keyword self keyword (words values.now)) }
    {
        match keyword {
            Keyword::Zones => self.with_zone(alloc, values),
            Keyword::Sets => self.with_set(alloc, values),
            _ => self.with_value(alloc, keyword, values),
        }
    }

    // With the value of a key that isn't about zones.
    fn with_value(self, alloc: Global, keyword: Keyword, values: &[u8]) -> Result<Draft, LineError>
        requires { spec.takes_value keyword ≡ true }
        ensures { Answers result (spec.with_keyword self keyword (words values.now)) }
    {
        let mut draft = self;
        draft.put_value(alloc, keyword, values)?;
        Ok(draft)
    }

    // Puts what a key says into its place.
    fn put_value(&mut self, alloc: Global, keyword: Keyword, values: &[u8]) -> Result<(), LineError>
        requires { spec.takes_value keyword ≡ true }
        ensures { Leaves self.new result (spec.with_keyword self.old keyword (words values.now)) }
    {
        match keyword {
            Keyword::FcfMac => self.fcf_mac = set_once(self.fcf_mac, only_station(values))?,
            Keyword::Switch => self.switch = set_once(self.switch, only_name(values))?,
            Keyword::FcMap => self.map = set_once(self.map, only_fc_map(values))?,
            Keyword::Number(key) => {
                let (least, most) = key.range();
                self.put_number(key, only_number(values, least, most))?;
            }
            Keyword::Activations => {
                put_activation(&mut self.activations, alloc, &self.sets, values)?;
            }
            Keyword::Zones | Keyword::Sets => unreachable!(),
        }
        Ok(())
    }

    // Puts a number under its key.
    fn put_number(&mut self, key: NumberKey, number: Option<u32>) -> Result<(), ConfigWhy>
        ensures { let says = spec.with_number self.old key number in
            MatchResult result (λ _. says ≡ Ok self.new) (λ why. says ≡ Err why) }
    {
        match key {
            NumberKey::Vlan => self.vlan = set_once(self.vlan, number)?,
            NumberKey::Domain => self.domain = set_once(self.domain, number)?,
            NumberKey::Pool => self.pool = set_once(self.pool, number)?,
            NumberKey::Priority => self.priority = set_once(self.priority, number)?,
            NumberKey::Period => self.period = set_once(self.period, number)?,
            NumberKey::Window => self.window = set_once(self.window, number)?,
            NumberKey::Logins => self.limit = set_once(self.limit, number)?,
        }
        Ok(())
    }

    fn with_zone(self, alloc: Global, values: &[u8]) -> Result<Draft, LineError>
        ensures { Answers result (spec.with_keyword self Keyword.Zones (words values.now)) }
    {
        let mut draft = self;
        draft.zones = with_zone(draft.zones, alloc, values)?;
        Ok(draft)
    }

    fn with_set(self, alloc: Global, values: &[u8]) -> Result<Draft, LineError>
        ensures { Answers result (spec.with_keyword self Keyword.Sets (words values.now)) }
    {
        let mut draft = self;
        draft.sets = with_set(draft.sets, alloc, &draft.zones, values)?;
        Ok(draft)
    }

    /// The configuration, with the defaults for what no line says, or none where a required key
    /// is missing.
    #[tactic(auto, unfolding(crate::specs::Text::finished))]
    pub(crate) fn finish(self) -> Option<Config>
        requires { Fits self }
        ensures { result ≡ spec.finished self }
    {
        let fcf_mac = self.fcf_mac?;
        let vlan = self.vlan?;
        let switch = switch_or(self.switch, &fcf_mac);
        Some(Config {
            switch,
            fcf_mac,
            fc_map: self.map.unwrap_or(0x0efc00),
            vlan: vlan as u16,
            domain: self.domain.unwrap_or(1) as u8,
            pool: self.pool.unwrap_or(256),
            priority: self.priority.unwrap_or(128) as u8,
            period: self.period.unwrap_or(8000),
            window: self.window.unwrap_or(100),
            limit: self.limit.unwrap_or(240),
            zones: self.zones.into_list(),
            sets: self.sets.into_list(),
            activations: self.activations,
        })
    }
}

// The name of the switch.
fn switch_or(name: Option<Wwn>, mac: &Mac) -> Wwn
    ensures value { result ≡ unwrap_or name (spec.switch_of mac.now) }
    ensures range { result < 2 ^ 64 }
{
    match name {
        Some(name) => Wwn(name.0),
        None => switch_of(mac),
    }
}

// The name of the switch where no line says it: 10:00 and the MAC (FC-FS-3, "IEEE 48-bit address").
fn switch_of(mac: &Mac) -> Wwn
    ensures value { result ≡ spec.switch_of mac.now }
    ensures range { result < 2 ^ 64 }
{
    let [a, b, c, d, e, f] = mac.0;
    Wwn(u64::from_be_bytes([0x10, 0, a, b, c, d, e, f]))
}

// The key and the values of a line, or none where it says nothing.
#[tactic(auto, unfolding(crate::specs::Text::line_read))]
fn key_and_values(line: &[u8]) -> Result<Option<(Keyword, &[u8])>, ConfigWhy>
    ensures said { IfOk result (λ o. IfSome o (λ p. (d : Draft)
        → spec.line_read d line.now ≡ spec.with_keyword d p.0 (words p.1.now))) }
    ensures nothing { IfOk result (λ o. IfNone o ((d : Draft) → spec.line_read d line.now ≡ Ok d)) }
    ensures fault { IfErr result (λ why. (d : Draft) → spec.line_read d line.now ≡ Err why) }
{
    if is_skipped(line) {
        return Ok(None);
    }
    if !is_ascii(line) {
        return Err(ConfigWhy::Ascii);
    }
    let Some((word, values)) = next_word(line) else {
        return Err(ConfigWhy::Key);
    };
    match keyword_of(word) {
        Some(keyword) => Ok(Some((keyword, values))),
        None => Err(ConfigWhy::Key),
    }
}

// The value of a key that stands once.
fn set_once<T: Copy + Drop>(old: Option<T>, value: Option<T>) -> Result<Option<T>, ConfigWhy>
    ensures { result ≡ spec.set_once old value }
{
    if old.is_some() {
        return Err(ConfigWhy::Twice);
    }
    match value {
        Some(value) => Ok(Some(value)),
        None => Err(ConfigWhy::Value),
    }
}
