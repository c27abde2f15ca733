//! The address that a verdict grants.
ghost use Rattle.std.specs.Prelude.{◌≡◌};
ghost use Rattle.forward_core.specs.Fabric.{granted_by};

use fab_base::FcId;
use fab_policy::Verdict;

/// The address that a verdict grants; none where it is no grant.
pub fn granted_address(verdict: &Verdict) -> Option<FcId>
    ensures { result ≡ granted_by verdict.now }
{
    match verdict {
        Verdict::Granted(address) => Some(*address),
        Verdict::Vlans
        | Verdict::Advertised
        | Verdict::Rejected(..)
        | Verdict::Logout(_)
        | Verdict::AliveNode
        | Verdict::AlivePort(_)
        | Verdict::NsLogin
        | Verdict::NsLogout
        | Verdict::Watching(_)
        | Verdict::Registered
        | Verdict::Answered
        | Verdict::Refused(..)
        | Verdict::Noted
        | Verdict::Forwarded(_)
        | Verdict::Dropped(_) => None,
    }
}
