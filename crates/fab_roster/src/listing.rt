//! Lists of live logins: who is overdue at a moment and who isn't, and which are an ENode's.
ghost use Rattle.std.specs.Prelude.{◌≡◌, not, IfOk, filter, map, if◌then◌else◌};
ghost use Rattle.fab_base.specs.Fabric.{same_enode};
ghost use Rattle.fab_config.specs.Settings.{Settings};
ghost use Rattle.fab_policy.specs.State.{is_overdue, overdue};
ghost use Rattle.fab_roster.specs.Changes.{is_late};
ghost use Rattle.fab_roster.specs.Roll.{login_of};

use crate::{LoginList, Roster};
use fab_base::{Enode, Moment, NoMemory};
use login_table::LoginTable;
use std::alloc::Global;

impl Roster {
    /// The logins that are overdue at a moment, by ascending address.
    pub fn overdue(&self, alloc: Global, moment: Moment) -> Result<LoginList, NoMemory>
        ensures { IfOk result (λ l. (c : Settings) → c.period ≡ self.now.period
            → l ≡ map login_of (overdue c self.now.tables moment)) }
    {
        match self.due() {
            Some(first) if first.0 <= moment.0 => self.by_silence(alloc, moment, true),
            _ => LoginList::new(alloc),
        }
    }

    /// The logins that aren't overdue at a moment, by ascending address.
    pub fn staying(&self, alloc: Global, moment: Moment) -> Result<LoginList, NoMemory>
        ensures { IfOk result (λ l. (c : Settings) → c.period ≡ self.now.period
            → l ≡ map login_of
            (filter (λ p. not (is_overdue c moment p)) self.now.tables.ports)) }
    {
        self.by_silence(alloc, moment, false)
    }

    // The logins that are overdue at a moment, or all others, by a look at each.
    fn by_silence(
        &self,
        alloc: Global,
        moment: Moment,
        overdue: bool,
    ) -> Result<LoginList, NoMemory>
        ensures { IfOk result (λ l. l ≡ map login_of
            (filter (λ p. if overdue then is_late self.now.period moment p
            else not (is_late self.now.period moment p)) self.now.tables.ports)) }
    {
        // For the proof: the roster is sound, so its N_Ports ascend by their addresses.
        let _ = self.len();
        let mut logins = LoginList::empty(alloc);
        let mut from = 0;
        while let Some(address) = self.next(from) {
            let Some(login) = self.by_address(address) else {
                unreachable!()
            };
            if self.is_overdue(login, moment) == overdue {
                logins.push(alloc, *login)?;
            }
            from = address.value() + 1;
        }
        Ok(logins)
    }

    /// The logins of an ENode, by ascending address.
    pub fn of_enode(&self, alloc: Global, enode: &Enode) -> Result<LoginList, NoMemory>
        ensures { IfOk result (λ l. l ≡ map login_of
            (filter (λ p. same_enode p.enode enode.now) self.now.tables.ports)) }
    {
        logins_of(alloc, &self.logins, enode)
    }
}

// The logins of an ENode, by ascending address.
fn logins_of(alloc: Global, table: &LoginTable, enode: &Enode) -> Result<LoginList, NoMemory>
    ensures { IfOk result (λ l. l
        ≡ filter (λ x. same_enode x.enode enode.now) table.now.logins) }
{
    let mut logins = LoginList::empty(alloc);
    let mut from = 0;
    while let Some(address) = table.first_of(enode, from) {
        let Some(login) = table.by_address(address) else {
            unreachable!()
        };
        logins.push(alloc, *login)?;
        from = address.value() + 1;
    }
    Ok(logins)
}
