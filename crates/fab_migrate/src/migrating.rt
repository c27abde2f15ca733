//! The journal in one file, migrated to another.
ghost use Rattle.std.specs.Prelude.{IsTrue};
ghost use Rattle.fab_base.specs.Ending.{Uses, end_by};
ghost use Rattle.fab_base.specs.Seen.{Only};
ghost use Rattle.fab_migrate.specs.Migrating.{Migrates, migrating_end};

use crate::old::{MigrateError, OldError, in_format_two};
use crate::whole::read_whole;
use fab_base::{Depot, put_all};
use std::alloc::Global;

/// Reads the file of a name as a journal of format 1, and writes it in format 2 to the file of
/// another. Answers how many entries there are. `limit` is the most bytes that the input may have.
pub fn migrate<D: Depot>(
    alloc: Global,
    depot: &mut D,
    from: &str,
    to: &str,
    limit: u64,
) -> Result<u64, MigrateError>
    requires from { IsTrue ((D.seen depot.old).knows from.now) }
    requires to { IsTrue ((D.seen depot.old).knows to.now) }
    ensures migrates { Migrates from.now to.now limit (D.seen depot.old) (D.seen depot.new) result }
    // No other file changes. No other answer, want of memory neither, hides a fault of the store.
    ensures uses { Uses (Only from.now) (Only to.now) (end_by migrating_end result)
        (D.seen depot.old) (D.seen depot.new) }
{
    let slot = match depot.open_in(from) {
        Ok(slot) => slot,
        Err(failed) => return Err(MigrateError::Input(OldError::Read(failed))),
    };
    let text = read_whole(alloc, depot, slot, limit)?;
    let new = in_format_two(alloc, &text)?;
    let out = match depot.open_out(to) {
        Ok(out) => out,
        Err(failed) => return Err(MigrateError::Write(failed)),
    };
    match put_all(depot, out, &new.text) {
        Ok(()) => Ok(new.entries),
        Err(failed) => Err(MigrateError::Write(failed)),
    }
}
