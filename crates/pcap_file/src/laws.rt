//! What holds of every capture, and of every answer of a reader.
ghost use Rattle.pcap_file.specs.Records.{EndsAsCapture, FaultIsNoCapture, BadHeadIsNoCapture};
ghost use Rattle.pcap_file.specs.Records.{OneCapture, MomentsAscend, WrittenIsRead};
ghost use Rattle.pcap_file.specs.Records.{StepTells, StepIsAnswered, HeadIsAnswered};

/// Records that end where the bytes end make the capture.
pub fn the_end_makes_a_capture()
    ensures { EndsAsCapture }
{}

/// Behind the records of a capture no fault stands.
pub fn a_fault_makes_no_capture()
    ensures records { FaultIsNoCapture }
    ensures head { BadHeadIsNoCapture }
{}

/// A capture says one head and one list of records.
pub fn a_capture_says_one_thing()
    ensures { OneCapture }
{}

/// The moments of a capture don't go back.
pub fn moments_do_not_go_back()
    ensures { MomentsAscend }
{}

/// A step is a record that stands there within the limits, the end, or the failure of what stands
/// there.
pub fn a_step_tells_what_stands_there()
    ensures { StepTells }
{}

/// A reader answers what stands in the capture, except where the depot failed or memory was
/// refused.
pub fn a_reader_answers_what_stands_there()
    ensures records { StepIsAnswered }
    ensures head { HeadIsAnswered }
{}

/// What the writers append is read back.
pub fn what_is_written_is_read()
    ensures { WrittenIsRead }
{}
