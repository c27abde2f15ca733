//! The laws of the layers below on which a run rests.
//!
//! The function does nothing: its contract is the laws.
ghost use Rattle.fab_windows.specs.Turns.{Laws};

use crate::steps::{firsts_are_taken, runs_go_on};
use fab_policy::{entries_come_in_parts, records_come_later};
use fab_states::later_entries_are_written;
use window_records::{looks_to_come, records_are_read, stops_keep_what_is_before, windows_move_on};

/// Further entries, further records, where reading stops, and what was read.
pub fn laws_of_runs()
    ensures { Laws }
{
    // Law: what further entries add to journal and files, what later windows leave as it is, what a
    // stop keeps, and that what was read grows to all of it.
    entries_come_in_parts();
    later_entries_are_written();
    records_come_later();
    runs_go_on();
    firsts_are_taken();
    stops_keep_what_is_before();
    looks_to_come();
    windows_move_on();
    records_are_read();
}
