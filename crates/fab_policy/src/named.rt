//! The text of a journal determines it.
ghost use Rattle.fab_policy.specs.Ranged.{TextNamesJournal};
ghost use Rattle.fab_policy.specs.Spelling.{LinesAreUnique, LinesSpellEntries};

/// Each line has one spelling in its format, and the text of a journal in one format, with the
/// frames of each port, determines the journal.
pub fn journal_is_named()
    ensures lines { LinesAreUnique }
    ensures written { LinesSpellEntries }
    ensures journal { TextNamesJournal }
{}
