//! Rules of a fabric that several crates follow.
ghost use Rattle.std.specs.Prelude.{◌≡◌};
ghost use Rattle.fab_base.specs.Fabric as spec;

use crate::{FcId, Mac, Moment};

/// The MAC that a fabric provides with an address (FC-BB-5, "Fabric Provided MAC Address (FPMA)"):
/// the FC-MAP in the upper 24 bits, the address in the lower. The FC-MAP is the lower 24 bits of
/// `fc_map`.
pub fn fpma(fc_map: u32, address: FcId) -> Mac
    ensures { result ≡ spec.fpma fc_map address }
{
    let [_, m0, m1, m2] = fc_map.to_be_bytes();
    let [_, a0, a1, a2] = address.value().to_be_bytes();
    Mac([m0, m1, m2, a0, a1, a2])
}

/// The earlier of two moments, either of which may be missing.
pub fn earlier(one: Option<Moment>, other: Option<Moment>) -> Option<Moment>
    ensures { result ≡ spec.earlier one other }
{
    match (one, other) {
        (Some(one), Some(other)) => Some(if other < one { other } else { one }),
        (None, other) => other,
        (one, None) => one,
    }
}
