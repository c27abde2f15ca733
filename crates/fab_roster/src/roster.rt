//! The five tables and the clock.
ghost use Rattle.std.specs.Prelude.{◌≡◌, ℕ, ◌+◌, ◌<◌, ◌≤◌, ◌^◌, IfOk, IfSome, None, []};
ghost use Rattle.fc_addresses.specs.Pool.{unused};
ghost use Rattle.fab_policy.specs.State.{now_of};
ghost use Rattle.fab_roster.specs.Roll.{Roll};
ghost use Rattle.fab_roster.specs.Changes.{IsSoundRoll, Moves};

use fab_base::{FcId, Moment, NoMemory};
use fab_policy::PORT_PERIOD;
use fc_addresses::Pool;
use keepalive_clock::KeepClock;
use login_table::LoginTable;
use name_server::Registry;
use state_change::Watchers;
use std::alloc::Global;
use std::marker::Model;

/// Who is live, and what the addresses of the pool were used for.
pub struct Roster {
    pub(crate) lowest: u32,
    pub(crate) count: u32,
    pub(crate) limit: u32,
    pub(crate) period: u32,
    pub(crate) clock: Option<Moment>,
    pub(crate) pool: Pool,
    pub(crate) logins: LoginTable,
    pub(crate) voices: KeepClock,
    pub(crate) registry: Registry,
    pub(crate) watchers: Watchers,
}

impl Drop for Roster {
    // By hand, so that it is dropped by one call.
    fn drop(self) {
        let Roster {
            lowest: _,
            count: _,
            limit: _,
            period: _,
            clock: _,
            pool: _pool,
            logins: _logins,
            voices: _voices,
            registry: _registry,
            watchers: _watchers,
        } = self;
    }
}

impl Model for Roster {
    ghost use Rattle.fab_roster.specs.Roll.{Roll, roll_of};
    ghost use Rattle.fab_roster.specs.Agreement.{Agree};

    ghost Value = { Roll };

    ghost view = { roll_of };

    ghost invariant = { Agree };
}

impl Roster {
    /// A roster without logins over `count` addresses from the lowest on, with room for `limit`
    /// logins. The period of the ENodes' keep alives is in milliseconds.
    pub fn new(
        alloc: Global,
        lowest: FcId,
        count: u32,
        limit: u32,
        period: u32,
    ) -> Result<Roster, NoMemory>
        requires range { (k : ℕ) → k < count → lowest + k < 0xFF0000 }
        requires limit { limit ≤ 1000 }
        ensures empty { IfOk result (λ r. r ≡ record {
          lowest = lowest;
          count = count;
          limit = limit;
          period = period;
          tables = record { clock = None; ports = []; past = unused lowest count };
        }) }
        ensures sound { IfOk result IsSoundRoll }
    {
        let pool = Pool::new(alloc, lowest, count)?;
        let logins = LoginTable::new(alloc, limit)?;
        let voices = KeepClock::new(alloc, period, PORT_PERIOD, 2 * limit)?;
        let registry = Registry::new(alloc, limit)?;
        let watchers = Watchers::new(alloc, limit)?;
        Ok(Roster {
            lowest: lowest.value(),
            count,
            limit,
            period,
            clock: None,
            pool,
            logins,
            voices,
            registry,
            watchers,
        })
    }

    /// The moment of the last tick, and none before the first.
    pub fn clock(&self) -> Option<Moment>
        ensures clock { result ≡ self.now.tables.clock }
        ensures sound { IsSoundRoll self.now }
    {
        self.clock
    }

    // The clock as a moment, 0 before the first tick.
    pub(crate) fn now(&self) -> Moment
        ensures { result ≡ now_of self.now.tables }
    {
        match self.clock {
            Some(now) => now,
            None => Moment(0),
        }
    }

    /// The clock moves on.
    pub fn set_clock(&mut self, now: Moment)
        requires range { now < 2 ^ 63 }
        requires order { IfSome self.old.tables.clock (λ t. t ≤ now) }
        ensures change { Moves now self.old self.new }
        ensures sound { IsSoundRoll self.new }
    {
        self.clock = Some(now);
    }
}
