//! FC frames in FCoE, of the forwarder's making.
ghost use Rattle.std.specs.Prelude.{◌≡◌, ◌++◌, ◌≤◌, IsTrue, length, OnOk, OnErr};
ghost use Rattle.fc_frames.specs.Frame as fc;
ghost use Rattle.fcoe_codec.specs.Fcoe as capsule;
ghost use Rattle.fab_policy.specs.Replies as spec;

use crate::own::write_own;
use crate::parts::own_tag;
use eth_frames::FCOE;
use fab_base::{Mac, NoMemory};
use fab_config::Config;
use fcoe_codec::{FcoeFrame, fcoe_bytes};
use std::alloc::Global;

// Appends a frame to a MAC.
pub(crate) fn write_carried(
    alloc: Global,
    config: &Config,
    dst: Mac,
    frame: &FcoeFrame<'_>,
    into: &mut Vec<u8>,
) -> Result<(), NoMemory>
    requires sof { IsTrue (capsule.is_sof frame.now.sof) }
    requires eof { IsTrue (capsule.is_eof frame.now.eof) }
    requires payload { fc.IsPayload frame.now.frame.payload.now }
    ensures ok { OnOk result (into.new.items ≡ into.old.items
        ++ spec.made_fcoe config.now dst frame.now.sof frame.now.eof (fc.view frame.now.frame)) }
    ensures size { OnOk result (length
        (spec.made_fcoe config.now dst frame.now.sof frame.now.eof (fc.view frame.now.frame))
        ≤ 65535) }
    ensures err { OnErr result (into.new.items ≡ into.old.items) }
{
    let body = fcoe_bytes(alloc, frame)?;
    let tag = Some(own_tag(config));
    write_own(alloc, config, tag, dst, FCOE, &body, into)
}
