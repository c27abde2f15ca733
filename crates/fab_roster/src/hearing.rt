//! Keep alives, and who is silent too long.
ghost use Rattle.std.specs.Prelude.{◌≡◌, ℕ, ◌||◌, IsSome, IfSome, Some, [], true, option_map, MatchOption};
ghost use Rattle.std.specs.List.{list_any};
ghost use Rattle.fab_base.specs.Fabric.{same_enode, is_silent, PORT_PERIOD};
ghost use Rattle.fab_policy.specs.Changes.{heard_node, heard_port};
ghost use Rattle.fab_policy.specs.State.{LivePort, now_of, port_at};
ghost use Rattle.fab_roster.specs.Changes.{ChangesPorts, IsFirstOverdue, IsSoundRoll, is_late};
ghost use Rattle.fab_roster.specs.Roll.{Roll, login_of};

use crate::{Login, Roster};
use fab_base::{Enode, FcId, Moment};
use keepalive_clock::Voice;

impl Roster {
    /// The ENode is heard, which has a login.
    pub fn hear_node(&mut self, enode: &Enode)
        requires clock { IsSome self.old.tables.clock }
        requires known { list_any (λ p. same_enode p.enode enode.now) self.old.tables.ports ≡ true }
        ensures change { ChangesPorts (heard_node enode.now (now_of self.old.tables))
            self.old self.new }
        ensures sound { IsSoundRoll self.new }
    {
        let Some(now) = self.clock else {
            unreachable!()
        };
        self.voices.heard(Voice::Node(*enode), now);
    }

    /// The N_Port of a live address is heard.
    pub fn hear_port(&mut self, address: FcId)
        requires clock { IsSome self.old.tables.clock }
        requires live { IsSome (port_at address self.old.tables.ports) }
        ensures change { ChangesPorts (heard_port address (now_of self.old.tables))
            self.old self.new }
        ensures sound { IsSoundRoll self.new }
    {
        let Some(now) = self.clock else {
            unreachable!()
        };
        self.voices.heard(Voice::Port(address), now);
    }

    /// The least moment at which somebody is overdue; none where nobody is live.
    pub fn due(&self) -> Option<Moment>
        ensures { MatchOption result (self.now.tables.ports ≡ [])
            (λ m. IsFirstOverdue self.now m) }
    {
        self.voices.due()
    }

    // Whether a login of the roster is overdue at a moment: its ENode or its N_Port was silent for
    // more than two and a half periods.
    pub(crate) fn is_overdue(&self, login: &Login, moment: Moment) -> bool
        requires live { option_map login_of (port_at login.now.address self.now.tables.ports)
            ≡ Some login.now }
        ensures { (p : LivePort) → port_at login.now.address self.now.tables.ports ≡ Some p
            → result ≡ is_late self.now.period moment p }
    {
        let Some((node, port)) = self.heard(login) else {
            unreachable!()
        };
        is_silent(self.period, node, moment) || is_silent(fab_policy::PORT_PERIOD, port, moment)
    }
}

// Whether more than two and a half periods passed since a moment.
fn is_silent(period: u32, heard: Moment, now: Moment) -> bool
    ensures { result ≡ is_silent period heard now }
{
    5 * u128::from(period) < 2 * u128::from(now.0.saturating_sub(heard.0))
}
