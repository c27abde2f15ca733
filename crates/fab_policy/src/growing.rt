//! What further entries add to a journal, and further records to a run.
//!
//! Each function does nothing: its contract is the law.
ghost use Rattle.fab_policy.specs.Growing.{FollowedByParts, SentByParts, RangedByParts};
ghost use Rattle.fab_policy.specs.Growing.{TextGrows, EgressGrows, NothingIsWritten};
ghost use Rattle.fab_policy.specs.Growing.{TimedGrows, NothingIsRun};

/// Further entries may come in two parts, and so may what they send; a journal stays in range with
/// entries that are.
pub fn entries_come_in_parts()
    ensures followed { FollowedByParts }
    ensures sent { SentByParts }
    ensures ranged { RangedByParts }
{}

/// Further entries add their lines to the text and what they send to the captures, which have heads
/// alone where there is no entry.
pub fn entries_add_to_files()
    ensures text { TextGrows }
    ensures egress { EgressGrows }
    ensures nothing { NothingIsWritten }
{}

/// Records of later windows change nothing of the time of what was run before them, and without
/// records there is a run without entries.
pub fn records_come_later()
    ensures timed { TimedGrows }
    ensures nothing { NothingIsRun }
{}
