//! What is known before an entry, and what the entry sends.
ghost use Rattle.std.specs.Prelude.{◌≡◌, ◌+◌, ◌*◌, ◌<◌, ◌≤◌};
ghost use Rattle.fab_roster.specs.Reaching.{zones_of};

use crate::OutList;
use fab_base::{FcId, Moment};
use fab_config::Config;
use fab_policy::Asker;
use fab_roster::{LoginList, Request, Roster};
use fip_codec::LoginKind;
use zone_rules::Zones;

/// What decides over the frames that an entry sends, as it stands before the entry: how many ports
/// there are, when advertisements were owed last, and how many state changes were sent, modulo
/// 65535.
#[derive(Drop)]
pub struct Before<'a> {
    pub config: &'a Config,
    pub zones: &'a Zones,
    pub roster: &'a Roster,
    pub ports: u32,
    pub advertised: Option<Moment>,
    pub rscns: u32,
    ghost rules: { zones.now ≡ zones_of config.now },
    ghost lowest: { roster.now.lowest ≡ config.now.domain * 65536 + 256 },
    ghost pool: { roster.now.count ≡ config.now.pool },
    ghost period: { roster.now.period ≡ config.now.period },
    ghost few_ports: { ports ≤ 64 },
    ghost few_changes: { rscns < 65535 },
}

/// The frames that an entry sends, in their order, and how many state changes were sent then,
/// modulo 65535.
#[derive(Drop)]
pub struct Sends {
    pub outs: OutList,
    pub rscns: u32,
}

/// A login that gets an address: what its accept says, and the logins that end with it.
#[derive(Drop)]
pub struct Grant<'a> {
    pub request: &'a Request,
    pub to: Asker,
    /// Which login it is.
    pub kind: LoginKind,
    /// Whether it asks for several addresses.
    pub several: bool,
    pub address: FcId,
    pub ended: &'a LoginList,
}
