//! The laws of the looks at captures.
ghost use Rattle.window_records.specs.Keeping.{StopsAhead, KeepsBefore, KeepsJust, KeepsAll};
ghost use Rattle.window_records.specs.Looks.{LooksFound, LooksEnd, StepsFindStop, LateIsStop};

/// Behind a record the looks at a capture go on, and elsewhere they end.
pub fn looks_go_on()
    ensures found { LooksFound }
    ensures end { LooksEnd }
{}

/// A reader's steps at looks in their order find where the reading of captures stops: an error
/// determines the stop, and so does a look that is too late.
pub fn steps_find_the_stop()
    ensures steps { StepsFindStop }
    ensures late { LateIsStop }
{}

/// Looks in a window or later ones stop there or later, and a stop keeps the records of all windows
/// before its own.
pub fn stops_keep_what_is_before()
    ensures ahead { StopsAhead }
    ensures before { KeepsBefore }
    ensures just { KeepsJust }
    ensures all { KeepsAll }
{}
