//! Ends of logins, over all five tables.
ghost use Rattle.std.specs.Prelude.{◌≡◌, IsSome, None, Some, if◌then◌else◌};
ghost use Rattle.std.specs.List.{All};
ghost use Rattle.fab_base.specs.Keyed.{AscendFrom};
ghost use Rattle.fab_policy.specs.State.{port_at};
ghost use Rattle.fab_roster.specs.Agreement.{is_silenced};
ghost use Rattle.fab_roster.specs.Changes.{Ends, EndsAll, IsSoundRoll};
ghost use Rattle.fab_roster.specs.Roll.{Roll, addresses_of};
ghost use Rattle.keepalive_clock.specs.Clock.{IsSound, KeepsLimits, last_of};
ghost use Rattle.keepalive_clock.specs.declared.voice.Voice.{Voice as Spoken};

use crate::{Login, LoginList, Roster};
use fab_base::{FcId, Moment};
use keepalive_clock::{KeepClock, Voice};
use login_table::LoginTable;

impl Roster {
    /// The login of an address ends. The pool keeps its name and the moment; all else of it is
    /// forgotten.
    pub fn end(&mut self, address: FcId)
        requires clock { IsSome self.old.tables.clock }
        requires live { IsSome (port_at address self.old.tables.ports) }
        ensures change { Ends address self.old self.new }
        ensures sound { IsSoundRoll self.new }
    {
        let Some(now) = self.clock() else {
            unreachable!()
        };
        self.end_at(address, now);
    }

    /// These logins end, of which no address comes twice.
    pub fn end_all(&mut self, ended: &LoginList)
        requires clock { IsSome self.old.tables.clock }
        requires live { All (λ a. IsSome (port_at a self.old.tables.ports))
            (addresses_of ended.now) }
        requires differ { AscendFrom (λ a. a) 0 (addresses_of ended.now) }
        ensures change { EndsAll (addresses_of ended.now) self.old self.new }
        ensures sound { IsSoundRoll self.new }
    {
        let Some(now) = self.clock() else {
            unreachable!()
        };
        for login in ended.items() {
            self.end_at(login.address, now);
        }
    }

    // The login of an address ends at the clock.
    fn end_at(&mut self, address: FcId, now: Moment)
        requires clock { self.old.tables.clock ≡ Some now }
        requires live { IsSome (port_at address self.old.tables.ports) }
        ensures change { Ends address self.old self.new }
        ensures sound { IsSoundRoll self.new }
    {
        let Some(gone) = self.logins.remove(address) else {
            unreachable!()
        };
        self.pool.release(address, now);
        forget_voices(&mut self.voices, &self.logins, &gone);
        self.registry.forget(address);
        self.watchers.forget(address);
    }
}

// The voices that speak for nobody any more, once a login is gone.
fn forget_voices(voices: &mut KeepClock, logins: &LoginTable, gone: &Login)
    ensures limits { KeepsLimits voices.old voices.new }
    ensures sound { IsSound voices.new }
    ensures last { (v : Spoken) → last_of v voices.new.voices
        ≡ (if is_silenced logins.now.logins gone.now v then None else last_of v voices.old.voices) }
{
    voices.forget(Voice::Port(gone.address));
    if logins.first_of(&gone.enode, 0).is_some() {
        return;
    }
    voices.forget(Voice::Node(gone.enode));
}
