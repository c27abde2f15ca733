//! What the policy can always meet.
//!
//! The function does nothing: its contract is the laws.
ghost use Rattle.fab_windows.specs.Onward.{FramesExist, TicksExist, VerdictsExist};

/// Whichever frame comes after a journal, some verdict is right for it; whichever window comes,
/// there are right ticks up to it, and right entries for whichever frames it has; and all numbers
/// are in range.
pub fn journals_go_on()
    ensures verdicts { VerdictsExist }
    ensures ticks { TicksExist }
    ensures frames { FramesExist }
{}
