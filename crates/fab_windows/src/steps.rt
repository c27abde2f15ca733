//! What a window makes of a run.
//!
//! The function does nothing: its contract is the laws.
ghost use Rattle.fab_windows.specs.Parts.{PartsGoOn};
ghost use Rattle.fab_windows.specs.Steps.{RunsGoOn, WindowIsRun, EntriesAreFew, WindowsAreEarly};
ghost use Rattle.fab_windows.specs.Steps.{NothingIsFirst, FirstsAreTaken};

use crate::onward::journals_go_on;
use fab_policy::{entries_come_in_parts, records_come_later};

/// A run from a state, whatever led to it, goes on by the ticks up to a window and its frames. What
/// stands before a window stands after it; from the state before anything happened it represents a
/// journal. There are few entries, and what a window sends it sends at its start or before.
pub fn runs_go_on()
    ensures goes_on { RunsGoOn }
    ensures window { WindowIsRun }
    ensures few { EntriesAreFew }
    ensures early { WindowsAreEarly }
    ensures nothing { NothingIsFirst }
{
    // Law: entries may come in two parts: a window's are ticks and then frames.
    entries_come_in_parts();
}

/// The numbers of a window's records are those that the shelves have.
pub(crate) fn firsts_are_taken()
    ensures { FirstsAreTaken }
{}

/// A run over the records of all earlier windows and a part of the next window go on to a run over
/// all records of that window too, whatever was made of it so far.
pub fn parts_go_on()
    ensures { PartsGoOn }
{
    // Law: entries may come in two parts, later records leave the time of earlier ones, and a legal
    // journal goes on; so a part of a window is completed.
    entries_come_in_parts();
    records_come_later();
    journals_go_on();
}
