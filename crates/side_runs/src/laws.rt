//! What the definitions imply. Each function does nothing: its contract is the law.
ghost use Rattle.side_runs.specs.Copies.{RecordsGoOn};
ghost use Rattle.side_runs.specs.Laws.{TakenAreCaptures};

use pcap_file::the_end_makes_a_capture;

/// What is taken of files are their captures: each is one, from its head to its end, and its
/// records are those that are taken.
pub fn what_is_taken_are_captures()
    ensures { TakenAreCaptures }
{
    // Law: behind its last record a capture is at its end; so what was taken is all of it.
    the_end_makes_a_capture();
}

/// The records of frames that are handled later come behind those of the frames before.
pub fn records_go_on()
    ensures records { RecordsGoOn }
{}
