//! What holds of every journal of format 1.
ghost use Rattle.std.specs.Prelude.{ℕ, List};
ghost use Rattle.fab_migrate.specs.OldLaws.{OneReading, JournalsAreMigrated};

/// A text is a journal of format 1 in one way, or has one first fault.
pub fn an_old_journal_has_one_reading()
    ensures { (text : List ℕ) → OneReading text }
{}

/// The text of a journal in format 1 is migrated to its text in format 2.
pub fn journals_are_migrated()
    ensures { JournalsAreMigrated }
{}
