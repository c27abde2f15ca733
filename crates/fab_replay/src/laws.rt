//! The laws of the layers below on which a check rests, and those of its answers.
//!
//! The functions do nothing: their contracts are the laws.
ghost use Rattle.fab_replay.specs.Exact.{AnswerIsOne, OutputDiffers, RunIsAccepted, RunIsOne};
ghost use Rattle.fab_replay.specs.Laws.{Laws};

use window_records::{looks_to_come, records_are_read, stops_keep_what_is_before, windows_move_on};

/// The looks that are left, what was read, and what a stop keeps.
pub(crate) fn laws_of_windows()
    ensures { Laws }
{
    // Law: what a stop keeps, which looks are left, and that what was read grows to all of it.
    stops_keep_what_is_before();
    looks_to_come();
    windows_move_on();
    records_are_read();
}

/// The answers of a check exclude each other: at most one holds of a text, its captures and its
/// outputs, so the fault that is answered is the first. Where a text is that of a run over whole
/// captures and the outputs are what the run sends, no fault of a line, of a capture, of a limit or
/// of an output is answered, and the text is that of no other run.
pub fn faults_are_exact()
    ensures exact { AnswerIsOne }
    ensures one { RunIsOne }
    ensures accepted { RunIsAccepted }
    ensures differs { OutputDiffers }
{}
