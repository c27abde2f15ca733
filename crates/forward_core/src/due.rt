//! When the next tick is owed.
ghost use Rattle.std.specs.Prelude.{◌≡◌, ℕ, ◌<◌, ◌≤◌, ◌%◌, ◌^◌, ◌+◌, ◌==◌, ◌||◌, not, length, MatchOption, IfSome, Some, None, is_some, true, IsTrue};
ghost use Rattle.fab_config.specs.Settings.{is_in_range};
ghost use Rattle.fab_policy.specs.Journal.{Journal};
ghost use Rattle.fab_policy.specs.Legal.{IsDue, IsDueBy, has_activation, is_tick_owed};
ghost use Rattle.fab_policy.specs.Outputs.{is_owed};
ghost use Rattle.fab_policy.specs.Standing.{Stands};
ghost use Rattle.fab_policy.specs.State.{overdue};
ghost use Rattle.forward_core.specs.Due.{reaches, IsWithin};
ghost use Rattle.forward_core.specs.Fabric.{IsTickOf};
ghost use Rattle.forward_core.specs.Ranges.{Ranges};

use crate::Fabric;
use fab_base::Moment;
use fab_config::Config;
use fab_policy::{fabric_steps, ticks_are_due};

impl Fabric {
    /// The least window start above the clock at which a login is overdue, an advertisement is
    /// owed or zones changed; none before the first tick.
    pub fn due(&self) -> Option<Moment>
        ensures due { MatchOption result (self.now.state.tables.clock ≡ None)
            (λ m. IsDueBy self.now.settings self.now.state m) }
        ensures journal { IfSome result (λ m. (J : Journal) → Stands self.now J
            → IsDue self.now.settings J m) }
    {
        // Law: a tick that is due by the tables is due by the journal; the clause journal says so.
        fabric_steps();
        let clock = self.roster.clock()?;
        let first = self.first_owed(clock);
        Some(window_from(&self.config, first.0.max(clock.0 + 1)))
    }

    /// The next tick on the way to a window start, in milliseconds as the clock is: the window
    /// itself, or a moment before it at which a tick is due. None where the clock stands there.
    pub fn next_tick(&self, window: u64) -> Option<Moment>
        requires start { window % self.now.settings.window ≡ 0 }
        requires order { IfSome self.now.state.tables.clock (λ t. t ≤ window) }
        ensures { MatchOption result (self.now.state.tables.clock ≡ Some window)
            (λ m. IsTickOf window self.now m) }
    {
        // Law: one moment at most is due, and the next tick is the lesser of it and of the window.
        ticks_are_due();
        let Some(clock) = self.clock() else {
            return Some(Moment(window));
        };
        if clock.0 == window {
            return None;
        }
        let Some(due) = self.due() else {
            unreachable!()
        };
        if due.0 < window {
            return Some(due);
        }
        Some(Moment(window))
    }

    // The least moment at which a tick is owed, but for the clock.
    fn first_owed(&self, clock: Moment) -> Moment
        requires clock { self.now.state.tables.clock ≡ Some clock }
        ensures owed { (k : ℕ) → is_tick_owed self.now.settings self.now.state.tables
            self.now.state.advertised k ≡ reaches (Some result) k }
        ensures range { result < 2 ^ 63 + 90000 }
    {
        // For the proof: the values of the configuration are in their ranges.
        in_range(&self.config);
        let advertised = advertisement_owed(&self.config, self.advertised);
        let first = sooner(advertised, self.overdue_from());
        let Some(owed) = sooner(first, self.zones.next_change(clock)) else {
            unreachable!()
        };
        owed
    }

    // The least moment at which somebody is overdue.
    fn overdue_from(&self) -> Option<Moment>
        ensures { (k : ℕ) → not (length (overdue self.now.settings self.now.state.tables k) == 0)
            ≡ reaches result k }
    {
        self.roster.due()
    }
}

// The least moment at which an advertisement is owed, when the last one was then.
fn advertisement_owed(config: &Config, last: Option<Moment>) -> Option<Moment>
    requires range { IfSome last (λ m. m < 2 ^ 63) }
    ensures owed { (k : ℕ) → is_owed config.now last k ≡ reaches result k }
    ensures some { is_some result ≡ is_some last }
    ensures range { IsWithin (2 ^ 63 + 90000) result }
{
    // For the proof: the values of the configuration are in their ranges.
    in_range(config);
    match last {
        Some(last) => Some(Moment(last.0 + u64::from(config.period))),
        None => None,
    }
}

// The first window start that isn't before a moment.
fn window_from(config: &Config, moment: u64) -> Moment
    requires range { moment ≤ 2 ^ 63 + 90000 }
    ensures start { result % config.now.window ≡ 0 }
    ensures from { moment ≤ result }
    ensures least { (k : ℕ) → k % config.now.window ≡ 0 → moment ≤ k → result ≤ k }
{
    // For the proof: the values of the configuration are in their ranges.
    in_range(config);
    let window = u64::from(config.window);
    let over = moment % window;
    if over == 0 {
        return Moment(moment);
    }
    Moment(moment - over + window)
}

// The sooner of two moments that may be there.
fn sooner(one: Option<Moment>, other: Option<Moment>) -> Option<Moment>
    ensures reaches { (k : ℕ) → reaches result k ≡ (reaches one k || reaches other k) }
    ensures some { is_some result ≡ (is_some one || is_some other) }
    ensures within { (most : ℕ) → is_some one ≡ true → IsWithin most one → IsWithin most result }
{
    match (one, other) {
        (Some(one), Some(other)) => Some(if other < one { other } else { one }),
        (None, other) => other,
        (one, None) => one,
    }
}

// The values of a configuration are in their ranges.
pub(crate) fn in_range(config: &Config)
    ensures range { IsTrue (is_in_range config.now) }
    ensures ranges { Ranges config.now }
{
    // For the proof: the configuration's invariant is known once a field is read.
    let _ = &config.window;
}
