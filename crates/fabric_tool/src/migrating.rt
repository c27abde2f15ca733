//! The command `migrate`.
ghost use Rattle.std.specs.Prelude.{◌≡◌, true, codes};
ghost use Rattle.fabric_tool.specs.Command as spec;
ghost use Rattle.fabric_tool.specs.Ends.{Holds, TouchesOwn};
ghost use Rattle.fabric_tool.specs.Reading.{unmigrated_by};

use crate::limits::MOST_BYTES;
use crate::outcome::Outcome;
use fab_base::{Depot, word_at};
use fab_migrate::{MigrateError, OldError, migrate};
use pcap_file::LimitKind;
use std::alloc::Global;

/// Writes a journal of format 1 in format 2. The journal is read whole before the other file is
/// opened.
pub(crate) fn migrate_file<D: Depot>(alloc: Global, words: &[String], depot: &mut D) -> Outcome
    requires migrate { spec.is_pair (codes "migrate") words.now ≡ true }
    requires known { spec.AllKnown (D.seen depot.old) words.now }
    ensures holds { Holds (spec.Migrate (spec.pair_of words.now))
        (D.seen depot.old) (D.seen depot.new) result }
    ensures touches { TouchesOwn (spec.Migrate (spec.pair_of words.now))
        (D.seen depot.old) (D.seen depot.new) }
{
    match migrate(
        alloc,
        depot,
        word_at(words, 1),
        word_at(words, 2),
        MOST_BYTES,
    ) {
        Ok(entries) => Outcome::Migrated { entries },
        Err(MigrateError::Input(error)) => unmigrated(error),
        Err(MigrateError::Write(_)) => Outcome::WriteFault,
    }
}

fn unmigrated(error: OldError) -> Outcome
    ensures { result ≡ unmigrated_by error }
{
    match error {
        OldError::Fault { line, why } => Outcome::BadLine { line, why },
        OldError::Bytes => Outcome::Limit {
            kind: LimitKind::Bytes,
        },
        OldError::Read(_) => Outcome::ReadFault,
        OldError::Memory => Outcome::Memory,
    }
}
