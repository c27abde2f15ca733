//! The numbers of entries are in the ranges of their types. Each function does nothing: its
//! contract says so.
ghost use Rattle.fab_policy.specs.Ranged.{IsRangedEvent, IsRangedVerdict};
ghost use Rattle.fab_policy.specs.Spelling.{EndsAscend};

use crate::{Event, Verdict};
use fab_base::Moment;

/// The numbers of a verdict are in range.
pub fn known_verdict(verdict: &Verdict)
    ensures { IsRangedVerdict verdict.now }
{
    // For the proof: the range of a number is known once it is read.
    match verdict {
        Verdict::Granted(address) => {
            let _ = address.value();
        }
        Verdict::Logout(address) => {
            let _ = address.value();
        }
        Verdict::AlivePort(address) => {
            let _ = address.value();
        }
        Verdict::Rejected(reason, explanation) => {
            let _codes = (*reason, *explanation);
        }
        Verdict::Refused(reason, explanation) => {
            let _codes = (*reason, *explanation);
        }
        Verdict::Watching(function) => {
            let _function = *function;
        }
        Verdict::Forwarded(port) => {
            let _ = port.value();
        }
        Verdict::Dropped(dropped) => {
            let _ = dropped.number();
        }
        Verdict::Vlans
        | Verdict::Advertised
        | Verdict::AliveNode
        | Verdict::NsLogin
        | Verdict::NsLogout
        | Verdict::Registered
        | Verdict::Answered
        | Verdict::Noted => {}
    }
}

/// The numbers of an entry are in range, where the addresses of a tick ascend.
pub fn known(event: &Event)
    requires { EndsAscend event.now }
    ensures { IsRangedEvent event.now }
{
    // For the proof: the range of a number is known once it is read.
    match event {
        Event::Tick { moment, .. } => {
            let Moment(number) = moment;
            let _number = *number;
        }
        Event::Frame {
            port,
            index,
            caught,
            verdict,
        } => {
            let _ = port.value();
            let _index = *index;
            let _ = caught.bytes.view();
            known_verdict(verdict);
        }
    }
}
