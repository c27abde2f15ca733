//! Any frame of the forwarder's own.
ghost use Rattle.std.specs.Prelude.{◌≡◌, ◌≢◌, ◌++◌, ◌≤◌, ◌+◌, length, None, OnOk, OnErr};
ghost use Rattle.fab_policy.specs.Replies as spec;

use eth_frames::{EthFrame, write_eth};
use fab_base::{Mac, NoMemory};
use fab_config::Config;
use std::alloc::Global;

// Appends a frame of the forwarder to a MAC, with a tag or none, of this Ethertype, which without a
// tag isn't that of a tag: at most 60 bytes more than its body.
pub(crate) fn write_own(
    alloc: Global,
    config: &Config,
    tag: Option<u16>,
    dst: Mac,
    kind: u16,
    body: &[u8],
    into: &mut Vec<u8>,
) -> Result<(), NoMemory>
    requires { tag ≡ None → kind ≢ 0x8100 }
    ensures ok { OnOk result (
        into.new.items ≡ into.old.items ++ spec.made config.now tag dst kind body.now) }
    ensures size { OnOk result (
        length (spec.made config.now tag dst kind body.now) ≤ 60 + length body.now) }
    ensures err { OnErr result (into.new.items ≡ into.old.items) }
{
    let frame = EthFrame {
        dst,
        src: config.fcf_mac,
        tag,
        kind,
        body,
    };
    write_eth(alloc, &frame, into)
}
