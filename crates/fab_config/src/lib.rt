//! The configuration of a forwarder and its text.
#![tactic(auto)]

mod draft;
mod hexes;
mod index;
mod keyword;
mod laws;
mod named;
mod numbers;
mod reading;
mod words;
mod writing;

use fab_base::{Bytes, Mac, Moment, OwnedList, Wwn};
pub use hexes::{read_mac, read_name};
pub use laws::a_written_configuration_is_read_back;
pub use named::LAST_MOMENT;
pub use reading::{ConfigError, read_config};
use std::marker::Model;
use thiserror::Error;
pub use words::next_word;
pub use writing::{octet_text, write_config};

/// Port names.
pub type NameList = OwnedList<Wwn>;

/// A zone (FC-GS-6, "Fabric Zone Server"): its name and the names of its members.
#[derive(Debug, Drop)]
pub struct Zone {
    pub name: Bytes,
    pub members: NameList,
}

pub type ZoneList = OwnedList<Zone>;

/// Places in the list of zones.
pub type PlaceList = OwnedList<u32>;

/// A zone set: its name and the places of its zones.
#[derive(Debug, Drop)]
pub struct ZoneSet {
    pub name: Bytes,
    pub places: PlaceList,
}

pub type SetList = OwnedList<ZoneSet>;

/// From a moment on the zone set at a place of the list of zone sets is active.
#[derive(Clone, Copy, Debug, PartialEq, Eq)]
pub struct Activation {
    pub set: u32,
    pub moment: Moment,
}

pub type ActivationList = OwnedList<Activation>;

/// The configuration, each value in its range. Period and window are milliseconds; `limit` is the
/// most logins at once.
#[derive(Debug)]
pub struct Config {
    pub switch: Wwn,
    pub fcf_mac: Mac,
    pub fc_map: u32,
    pub vlan: u16,
    pub domain: u8,
    pub pool: u32,
    pub priority: u8,
    pub period: u32,
    pub window: u32,
    pub limit: u32,
    pub zones: ZoneList,
    pub sets: SetList,
    pub activations: ActivationList,
}

impl Drop for Config {
    // By hand, so that it is dropped by one call.
    fn drop(self) {
        let Config {
            switch: _,
            fcf_mac: _,
            fc_map: _,
            vlan: _,
            domain: _,
            pool: _,
            priority: _,
            period: _,
            window: _,
            limit: _,
            zones: _zones,
            sets: _sets,
            activations: _activations,
        } = self;
    }
}

impl Model for Config {
    ghost use Rattle.fab_config.specs.Settings.{Settings};

    ghost Value = { Settings };

    ghost use Rattle.fab_config.specs.InRange.{settings_of, inside_in_range};

    ghost view = { settings_of };

    ghost invariant = { inside_in_range };
}

/// Why a text is no configuration. The variants stand in the order of the tests.
#[derive(Clone, Copy, Debug, PartialEq, Eq, Error)]
pub enum ConfigWhy {
    /// The text has more than 1,048,576 bytes.
    #[error("the text has more than 1048576 bytes")]
    Long,
    /// A byte of the line is above 7E, or below 20 and no tab.
    #[error("a byte is no printed sign, space or tab")]
    Ascii,
    /// The line's first word is no key.
    #[error("the first word is no key")]
    Key,
    /// A key that stands once, or the name of a zone or of a zone set, stands a second time.
    #[error("the key or the name stands a second time")]
    Twice,
    /// The words behind the key aren't what it takes.
    #[error("the words behind the key are not what it takes")]
    Value,
    /// One zone, member, zone set, zone of the sets or activation too many.
    #[error("there is one zone, member, zone set or activation too many")]
    Limit,
    /// A required key is in no line.
    #[error("a required key is missing")]
    Missing,
}

/// The first fault of a text. Lines count from 1; `Long` is at line 0, `Missing` behind the last
/// line.
#[derive(Clone, Copy, Debug, PartialEq, Eq, Error)]
#[error("line {line}: {why}")]
pub struct ConfigFault {
    pub line: u32,
    pub why: ConfigWhy,
}
