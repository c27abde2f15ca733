//! A frame that goes on.
ghost use Rattle.std.specs.Prelude.{◌≡◌, ◌++◌, ◌≤◌, drop, length, OnOk, OnErr};
ghost use Rattle.fab_policy.specs.Logins.{granted_mac};

use fab_base::{FcId, NoMemory, append_reserved, fpma};
use fab_config::Config;
use std::alloc::Global;

/// The two MACs of a frame.
const MACS: usize = 12;

// Appends a frame with the MACs of its next way.
pub(crate) fn write_forwarded(
    _alloc: Global,
    config: &Config,
    to: FcId,
    frame: &[u8],
    into: &mut Vec<u8>,
) -> Result<(), NoMemory>
    requires least { 14 ≤ length frame.now }
    requires most { length frame.now ≤ 65535 }
    ensures ok { OnOk result (into.new.items ≡ into.old.items
        ++ granted_mac config.now to ++ config.now.fcf_mac ++ drop 12 frame.now) }
    ensures size { OnOk result (length
        (granted_mac config.now to ++ config.now.fcf_mac ++ drop 12 frame.now) ≤ 65535) }
    ensures err { OnErr result (into.new.items ≡ into.old.items) }
{
    let dst = fpma(config.fc_map, to);
    into.reserve(frame.len())?;
    append_reserved(into, &dst.0);
    append_reserved(into, &config.fcf_mac.0);
    append_reserved(into, &frame[MACS..]);
    Ok(())
}
