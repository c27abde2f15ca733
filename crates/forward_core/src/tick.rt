//! Ticks of the clock.
ghost use Rattle.std.specs.Prelude.{◌≡◌, ◌<◌, ◌^◌, ◌∷◌, length, map, IfOk, IfSome, OnOk, OnErr, IsSome, List, ℕ, ◌≤◌, is_some, true};
ghost use Rattle.fab_policy.specs.Journal.{Journal};
ghost use Rattle.fab_policy.specs.Legal.{Legal};
ghost use Rattle.fab_policy.specs.Outputs as outputs;
ghost use Rattle.fab_policy.specs.Standing.{Stands, Takes};
ghost use Rattle.fab_policy.specs.Ranged.{AscendFrom};
ghost use Rattle.fab_policy.specs.State.{addresses, overdue, port_at};
ghost use Rattle.fab_roster.specs.Roll.{addresses_of, login_of};
ghost use Rattle.std.specs.List.{All};
ghost use Rattle.fab_policy.specs.declared.event.Event.TheVariants.{Tick};

use crate::Fabric;
use crate::due::in_range;
use fab_base::{IdList, Moment, NoMemory};
use fab_config::Config;
use fab_policy::{Event, fabric_steps, tables_change};
use fab_roster::LoginList;
use fab_sending::{is_owed, tick_sends};
use std::alloc::Global;

impl Fabric {
    /// The clock moves on to a moment, and the logins that are overdue then end: so many. Where
    /// memory is refused, nothing changes.
    pub fn tick(&mut self, alloc: Global, moment: Moment) -> Result<u32, NoMemory>
        requires range { moment < 2 ^ 63 }
        requires order { IfSome self.old.state.tables.clock (λ t. t < moment) }
        ensures takes { OnOk result (Takes self.old (Tick moment
            (addresses (overdue self.old.settings self.old.state.tables moment))) self.new) }
        ensures count { IfOk result (λ k. k
            ≡ length (overdue self.old.settings self.old.state.tables moment)) }
        ensures journal { OnOk result ((J : Journal) → Legal self.old.settings J
            → Stands self.old J
            → let K = Tick moment
            (addresses (overdue self.old.settings self.old.state.tables moment)) ∷ J in
            Legal self.old.settings K × Stands self.new K) }
        ensures err { OnErr result (self.new ≡ self.old) }
    {
        // Law: with a right tick a fabric represents the longer journal, and which tables are after
        // a tick; the clauses journal and takes rest on them.
        fabric_steps();
        tables_change();
        let ended = self.ended_at(alloc, moment)?;
        let sends = tick_sends(alloc, &self.before(), moment, &ended)?;
        let addresses = addresses_of(alloc, &ended)?;
        self.keep(
            alloc,
            Event::Tick {
                moment,
                ended: addresses,
            },
            sends,
        )?;
        self.advertised = advertised_after(&self.config, self.advertised, moment);
        self.roster.set_clock(moment);
        self.roster.end_all(&ended);
        Ok(ended.len() as u32)
    }

    // The logins that end at a moment.
    fn ended_at(&self, alloc: Global, moment: Moment) -> Result<LoginList, NoMemory>
        ensures logins { IfOk result (λ l. l
            ≡ map login_of (overdue self.now.settings self.now.state.tables moment)) }
        ensures live { IfOk result (λ l. All (λ a. IsSome
            (port_at a self.now.state.tables.ports)) (addresses_of l)) }
        ensures ascending { IfOk result (λ l. AscendFrom 0 (addresses_of l)) }
        ensures few { IfOk result (λ l. length l ≤ 1000) }
    {
        // Law: which logins a tick ends; they are those that are overdue.
        tables_change();
        // For the proof: the values of the configuration are in their ranges.
        in_range(&self.config);
        let logins = self.roster.overdue(alloc, moment)?;
        Ok(logins)
    }
}

// When the period of advertisements began that runs after a tick.
fn advertised_after(config: &Config, last: Option<Moment>, moment: Moment) -> Option<Moment>
    ensures after { (ended : List ℕ) → result
        ≡ outputs.advertised_after config.now last (Tick moment ended) }
    ensures some { is_some result ≡ true }
    ensures range { IfSome last (λ m. m < 2 ^ 63) → moment < 2 ^ 63
        → IfSome result (λ m. m < 2 ^ 63) }
{
    match last {
        Some(began) if !is_owed(config, last, moment) => Some(began),
        _ => Some(moment),
    }
}

// The addresses of logins.
fn addresses_of(alloc: Global, logins: &LoginList) -> Result<IdList, NoMemory>
    ensures { IfOk result (λ ids. ids ≡ addresses_of logins.now) }
{
    let mut ids = IdList::empty(alloc);
    for login in logins.items() {
        ids.push(alloc, login.address)?;
    }
    Ok(ids)
}
