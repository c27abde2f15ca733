//! What pieces make. Each function does nothing: its contract is the laws.
ghost use Rattle.fab_pieces.specs.Laws.{StatesAreOn, StatesFollow, StatesJoin};
ghost use Rattle.fab_pieces.specs.Laws.{LegalIsCut, LegalPiecesJoin};
ghost use Rattle.fab_pieces.specs.Laws.{TextsJoin, ClocksAgree, CapturesJoin};
ghost use Rattle.fab_pieces.specs.Laws.{RunsAreFrom, RunsAreLater, RunsJoin, RunsLeavePieces};
ghost use Rattle.fab_pieces.specs.Session.{PiecesMakeSession, CheckedMakeSession};
ghost use Rattle.fab_pieces.specs.Session.{TextNamesPiece, BetweenIsOne};
ghost use Rattle.fab_pieces.specs.Sound.{FirstIsSound, EntriesKeepSound};
ghost use Rattle.fab_pieces.specs.Sound.{PiecesKeepSound, JournalsAreSound};
ghost use Rattle.fab_pieces.specs.Sound.{EntriesKeepTimely, RunsKeepTimely, RunsAreTimely};
ghost use Rattle.fab_pieces.specs.Sound.{EntriesKeepServed, PiecesKeepServed, JournalsAreServed};
ghost use Rattle.fab_pieces.specs.Sound.{PiecesKeepPorts, JournalsHavePorts, RestoredStands};
ghost use Rattle.fab_pieces.specs.Restored.{FirstCanRestore, RunsCanRestore};
ghost use Rattle.fab_pieces.specs.Seam.{TextNamesSeam};

use fab_policy::records_come_later;

/// A journal followed by a piece says what the piece makes of the state before it; it is legal
/// exactly where both are, and its text and captures are those of both, one behind the other.
pub fn pieces_are_a_whole()
    ensures first { StatesAreOn }
    ensures states { StatesFollow }
    ensures states_join { StatesJoin }
    ensures legal { LegalIsCut }
    ensures legal_join { LegalPiecesJoin }
    ensures texts { TextsJoin }
    ensures clocks { ClocksAgree }
    ensures captures { CapturesJoin }
{}

/// A run and a run of a piece make one run over the records of both, and what a run has behind a
/// journal is a run of a piece.
pub fn runs_join()
    ensures first { RunsAreFrom }
    ensures later { RunsAreLater }
    ensures join { RunsJoin }
    ensures leave { RunsLeavePieces }
{
    // Law: records of later windows change nothing of the time of what was run before them.
    records_come_later();
}

/// Pieces each of which is a run from the seam before it make a session: a run over all records,
/// with the state of the last seam, whose text and captures are the pieces' behind one another. So
/// do pieces that were each checked from seam to seam, and their files are its files.
pub fn sessions_are_runs()
    ensures pieces { PiecesMakeSession }
    ensures checked { CheckedMakeSession }
{
    // Law: records of later windows change nothing of the time of what was run before them.
    records_come_later();
}

/// The text of a piece from a clock, and the frames of each port, say which piece it is; so what
/// stands between two seams is one piece.
pub fn pieces_are_named()
    ensures text { TextNamesPiece }
    ensures between { BetweenIsOne }
{}

/// What the tables of a fabric keep of each other holds of the first state, each right entry keeps
/// it, and so does each legal piece: so it holds wherever a session is cut.
pub fn states_are_sound()
    ensures first { FirstIsSound }
    ensures entries { EntriesKeepSound }
    ensures pieces { PiecesKeepSound }
    ensures journals { JournalsAreSound }
{}

/// Whoever is live is behind one of the ports that the frames came on, and a piece keeps that.
pub fn logins_have_ports()
    ensures pieces { PiecesKeepPorts }
    ensures journals { JournalsHavePorts }
{}

/// Whoever is logged in at the name server has a size that answers can be cut at, whoever watches
/// has a function, and each right entry and each legal piece keeps that.
pub fn logins_are_served()
    ensures entries { EntriesKeepServed }
    ensures pieces { PiecesKeepServed }
    ensures journals { JournalsAreServed }
{}

/// In a run nobody was heard, and no login ended, after the clock, and a run of a piece keeps that.
pub fn runs_are_timely()
    ensures entries { EntriesKeepTimely }
    ensures pieces { RunsKeepTimely }
    ensures runs { RunsAreTimely }
{}

/// A fabric that is made of a state represents each journal that says that state: whatever is
/// promised of a fabric goes on from there.
pub fn restored_stands()
    ensures { RestoredStands }
{}

/// The text of a seam says which one it is: seams of one configuration whose texts are the same are
/// the same.
pub fn seams_are_named()
    ensures { TextNamesSeam }
{}

/// A fabric can be made of the first seam, and of the one behind each run of a piece whose first
/// seam it can be made of, as long as its numbers have their ranges.
pub fn seams_can_restore()
    ensures first { FirstCanRestore }
    ensures runs { RunsCanRestore }
{}
