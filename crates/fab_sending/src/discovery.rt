//! The frames of FIP VLAN discovery and FIP discovery (FC-BB-5, "FIP operations").
ghost use Rattle.std.specs.Prelude.{◌≡◌, ◌++◌, ◌≤◌, true, length, OnOk, OnErr, IfOk, vec_len};
ghost use Rattle.fab_base.specs.Layout.{padded};
ghost use Rattle.fip_codec.specs.CanWrite.{CanWrite};
ghost use Rattle.fip_codec.specs.Message as fip;
ghost use Rattle.fab_policy.specs.Replies as spec;
ghost use Rattle.heard_frames.specs.Rows.{ALL_ENODES as ALL_NODES};

use crate::fip::write_message;
use crate::own::write_own;
use crate::parts::own_tag;
use eth_frames::{ALL_ENODES, FIP};
use fab_base::{Mac, NoMemory};
use fab_config::Config;
use fcoe_codec::MOST_BODY;
use fip_codec::{FipOut, VxPort, fip_bytes};
use std::alloc::Global;

/// Appends a VLAN notification to a MAC, which has no tag where the request has none: at most
/// 65,535 bytes.
pub fn write_notice_to(
    alloc: Global,
    config: &Config,
    dst: Mac,
    untagged: bool,
    out: &mut Vec<u8>,
) -> Result<(), NoMemory>
    ensures ok { OnOk result (
        out.new.items ≡ out.old.items ++ spec.notice_to config.now dst untagged) }
    ensures size { OnOk result (length (spec.notice_to config.now dst untagged) ≤ 65535) }
    ensures err { OnErr result (out.new.items ≡ out.old.items) }
{
    // For the checker: the lists of a message may hold VxPort.
    let _ports: &[VxPort] = &[];
    let vlans = [config.vlan];
    let message = FipOut::VlanTell {
        mac: config.fcf_mac,
        vlans: &vlans,
    };
    let body = fip_bytes(alloc, &message)?;
    let tag = if untagged {
        None
    } else {
        Some(own_tag(config))
    };
    write_own(alloc, config, tag, dst, FIP, &body, out)
}

/// Appends a solicited advertisement to a MAC, with zeros up to a size of at most 2,158 bytes
/// behind its Ethernet header: at most 65,535 bytes.
pub fn write_advertisement_to(
    alloc: Global,
    config: &Config,
    dst: Mac,
    size: u16,
    out: &mut Vec<u8>,
) -> Result<(), NoMemory>
    ensures ok { OnOk result (
        out.new.items ≡ out.old.items ++ spec.advertised_to config.now dst size) }
    ensures size { OnOk result (length (spec.advertised_to config.now dst size) ≤ 65535) }
    ensures err { OnErr result (out.new.items ≡ out.old.items) }
{
    let size = size.min(MOST_BODY);
    let body = padded_advertisement(alloc, config, size)?;
    let tag = Some(own_tag(config));
    write_own(alloc, config, tag, dst, FIP, &body, out)
}

/// Appends the advertisement to all ENodes: at most 65,535 bytes.
pub fn write_advertisement(
    alloc: Global,
    config: &Config,
    out: &mut Vec<u8>,
) -> Result<(), NoMemory>
    ensures ok { OnOk result (out.new.items ≡ out.old.items ++ spec.advertised_to_all config.now) }
    ensures size { OnOk result (length (spec.advertised_to_all config.now) ≤ 65535) }
    ensures err { OnErr result (out.new.items ≡ out.old.items) }
{
    let message = advertisement(config, false);
    write_message(alloc, config, ALL_ENODES, &message, out)
}

// What an advertisement says.
fn advertisement(config: &Config, solicited: bool) -> FipOut<'static>
    ensures message { fip.view_out result ≡ spec.advertisement config.now solicited }
    ensures fits { CanWrite (spec.advertisement config.now solicited) }
{
    // For the checker: the lists of a message may hold VxPort.
    let _ports: &[VxPort] = &[];
    FipOut::Advertise {
        solicited,
        available: true,
        from_fcf: true,
        fp: true,
        priority: config.priority,
        mac: config.fcf_mac,
        switch: config.switch,
        map: config.fc_map,
        fabric: config.switch,
        quiet: false,
        period: config.period,
    }
}

// The body of a solicited advertisement, with zeros up to this size.
fn padded_advertisement(alloc: Global, config: &Config, size: u16) -> Result<Vec<u8>, NoMemory>
    requires { size ≤ 2158 }
    ensures bytes { IfOk result (λ v.
        v.items ≡ padded size (fip.written (spec.advertisement config.now true))) }
    ensures size { IfOk result (λ v. vec_len v ≤ 2158) }
{
    let mut body = fip_bytes(alloc, &advertisement(config, true))?;
    let size = usize::from(size);
    if body.len() >= size {
        return Ok(body);
    }
    match body.resize(size, 0) {
        Ok(()) => Ok(body),
        Err(_) => Err(NoMemory),
    }
}
