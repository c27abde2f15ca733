//! The rule of a frame that can't be read.
ghost use Rattle.std.specs.Prelude.{◌≡◌, true, false};
ghost use Rattle.fab_policy.specs.Cause as causes;

use crate::{Dropped, Rule};
use fip_codec::FipFault;
use heard_frames::Unreadable;

// The rule of a frame that can't be read, with its number.
pub(crate) fn cause_of_unreadable(fault: Unreadable) -> Dropped
    ensures { result ≡ causes.cause_of_unreadable fault }
{
    match fault {
        Unreadable::Truncated => plain(Rule::Truncated),
        Unreadable::EthShort => plain(Rule::EthShort),
        Unreadable::Ethertype => plain(Rule::Ethertype),
        Unreadable::Fip(fault) => cause_of(fault),
    }
}

// The rule of a fault of a FIP body, with the place or the type of a descriptor.
fn cause_of(fault: FipFault) -> Dropped
    ensures { result ≡ causes.cause_of fault }
{
    match fault {
        FipFault::Short => plain(Rule::FipShort),
        FipFault::Version => plain(Rule::FipVersion),
        FipFault::Operation => plain(Rule::FipOperation),
        FipFault::ListLength => plain(Rule::FipList),
        FipFault::DescLength { at } => numbered(Rule::FipLength, at),
        FipFault::Critical { at, .. } => numbered(Rule::FipCritical, at),
        FipFault::Double { at } => numbered(Rule::FipDouble, at),
        FipFault::Missing { kind } => numbered(Rule::FipMissing, u32::from(kind)),
    }
}

// A rule without a number.
pub(crate) fn plain(rule: Rule) -> Dropped
    requires { causes.is_numbered rule ≡ false }
    ensures { result ≡ causes.plain rule }
{
    Dropped::new(rule, None).unwrap()
}

// A rule with its number.
fn numbered(rule: Rule, number: u32) -> Dropped
    requires { causes.is_numbered rule ≡ true }
    ensures { result ≡ causes.numbered rule number }
{
    Dropped::new(rule, Some(number)).unwrap()
}
