//! What is said by a state holds of journals. Each function does nothing: its contract is the law.
ghost use Rattle.fab_states.specs.Laws.{StatesGoOn, LegalGoesOn, SentGoesOn, NextTicksStand};
ghost use Rattle.fab_states.specs.Laws.{WentStands, GrownStands, GrowsByFrames, TimedGrowsFrom};
ghost use Rattle.fab_states.specs.Laws.{TextGrowsFrom, RecordsGrowFrom};

/// A journal followed by entries says what these make of the state that it said, it is legal where
/// the journal is and they are right by that state, and they send what they send by it.
pub fn states_go_on()
    ensures states { StatesGoOn }
    ensures legal { LegalGoesOn }
    ensures sent { SentGoesOn }
{}

/// The next tick by a state is that of each journal that says the state.
pub fn next_ticks()
    ensures { NextTicksStand }
{}

/// A fabric that took right entries represents each journal that it represented with these entries,
/// and the journal stays legal. One that grew by frames goes on growing.
pub fn fabrics_go_on()
    ensures went { WentStands }
    ensures grown { GrownStands }
    ensures grows { GrowsByFrames }
{}

/// Records of the last window, or of later ones, change nothing of the time of what was run from a
/// state before them.
pub fn later_records_keep_time()
    ensures { TimedGrowsFrom }
{}

/// Further entries add their lines to those of the entries since a state, and what they send to the
/// captures.
pub fn later_entries_are_written()
    ensures text { TextGrowsFrom }
    ensures records { RecordsGrowFrom }
{}
