//! What packets make of a run that began from a state.
//!
//! The function does nothing: its contract is the law.
ghost use Rattle.fab_live.specs.From.{PacketsBegin, PacketsGoOn};

use fab_windows::runs_go_on;

/// An idle fabric stands before its first packet from its own state, whatever led to it. What stands
/// behind each packet of a forwarder that went on from a state stands behind the next one too, and
/// what the packet sends can be written.
pub fn packets_go_on()
    ensures begins { PacketsBegin }
    ensures goes_on { PacketsGoOn }
{
    // Law: a run from a state goes on by a window, which sends nothing after its start.
    runs_go_on();
}
