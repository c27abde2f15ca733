//! Frames of FIP from the ENode of a port.
ghost use Rattle.std.specs.Prelude.{◌≡◌, ◌≤◌, ◌++◌, length, IfOk, OnOk, vec_len};
ghost use Rattle.els_messages.specs.Els as els;
ghost use Rattle.fc_frames.specs.Frame as fc;
ghost use Rattle.fip_codec.specs.CanWrite.{CanWrite, IsFrame};
ghost use Rattle.fip_codec.specs.Message as fip;
ghost use Rattle.fab_vectors.specs.Frames as spec;

use crate::names::{FORWARDER, TAG, node_mac, node_name, well_known};
use crate::parts::{header, parms};
use els_messages::{Els, Feature, els_bytes};
use eth_frames::{ALL_FCFS, EthFrame, FIP, write_eth};
use fab_base::{Mac, NoMemory, PortNo};
use fc_frames::{FABRIC_PORT, FcFrame, Kind, write_frame};
use fcoe_codec::MOST_BODY;
use fip_codec::{FipOut, LoginKind, VxPort, fip_bytes};
use std::alloc::Global;

// Appends a VLAN request, which has no tag.
pub(crate) fn write_vlan_request(
    alloc: Global,
    port: PortNo,
    out: &mut Vec<u8>,
) -> Result<(), NoMemory>
    ensures ok { OnOk result (out.new.items ≡ out.old.items ++ spec.vlan_request port) }
    ensures size { OnOk result (length (spec.vlan_request port) ≤ 65535) }
{
    // For the checker: the lists of a message may hold VxPort.
    let _ports: &[VxPort] = &[];
    let message = FipOut::VlanAsk {
        mac: node_mac(port),
        node: None,
    };
    write_message(alloc, None, ALL_FCFS, port, &message, out)
}

// Appends a solicitation.
pub(crate) fn write_solicitation(
    alloc: Global,
    port: PortNo,
    out: &mut Vec<u8>,
) -> Result<(), NoMemory>
    ensures ok { OnOk result (out.new.items ≡ out.old.items ++ spec.solicitation port) }
    ensures size { OnOk result (length (spec.solicitation port) ≤ 65535) }
{
    // For the checker: the lists of a message may hold VxPort.
    let _ports: &[VxPort] = &[];
    let message = FipOut::Solicit {
        from_fcf: false,
        fp: true,
        mac: node_mac(port),
        node: node_name(port),
        size: MOST_BODY,
    };
    write_message(alloc, Some(TAG), ALL_FCFS, port, &message, out)
}

// Appends a keep alive of the ENode.
pub(crate) fn write_keep_alive(
    alloc: Global,
    port: PortNo,
    out: &mut Vec<u8>,
) -> Result<(), NoMemory>
    ensures ok { OnOk result (out.new.items ≡ out.old.items ++ spec.keep_alive port) }
    ensures size { OnOk result (length (spec.keep_alive port) ≤ 65535) }
{
    // For the checker: the lists of a message may hold VxPort.
    let _ports: &[VxPort] = &[];
    let message = FipOut::Keep {
        mac: node_mac(port),
        port: None,
    };
    write_message(alloc, Some(TAG), FORWARDER, port, &message, out)
}

// Appends the fabric login of a login: FLOGI of the first of a port, FDISC of the others.
pub(crate) fn write_fabric_login(
    alloc: Global,
    port: PortNo,
    login: u8,
    out: &mut Vec<u8>,
) -> Result<(), NoMemory>
    ensures ok { OnOk result (out.new.items ≡ out.old.items ++ spec.fabric_login port login) }
    ensures size { OnOk result (length (spec.fabric_login port login) ≤ 65535) }
{
    // For the checker: the lists of a message may hold VxPort.
    let _ports: &[VxPort] = &[];
    let frame = carried(alloc, port, login)?;
    let message = FipOut::Login {
        kind: login_kind(login),
        fp: true,
        frame: &frame,
        mac: Mac([0; 6]),
    };
    write_message(alloc, Some(TAG), FORWARDER, port, &message, out)
}

fn login_kind(login: u8) -> LoginKind
    ensures { result ≡ spec.login_kind login }
{
    if login == 0 {
        LoginKind::Flogi
    } else {
        LoginKind::Fdisc
    }
}

// The frame that a fabric login carries.
fn carried(alloc: Global, port: PortNo, login: u8) -> Result<Vec<u8>, NoMemory>
    ensures bytes { IfOk result (λ v. v.items ≡ spec.carried port login) }
    ensures frame { IfOk result (λ v. IsFrame v.items) }
{
    let payload = login_payload(alloc, port, login)?;
    let mut bytes = Vec::new(alloc);
    let frame = FcFrame {
        head: header(
            Kind::ElsRequest,
            well_known(FABRIC_PORT),
            well_known(0),
            u16::from(login) + 1,
        ),
        payload: &payload,
    };
    write_frame(alloc, &frame, &mut bytes)?;
    Ok(bytes)
}

// The payload of a fabric login.
fn login_payload(alloc: Global, port: PortNo, login: u8) -> Result<Vec<u8>, NoMemory>
    ensures bytes { IfOk result (λ v. v.items ≡ els.written (spec.login_request port login)) }
    ensures payload { IfOk result (λ v. fc.IsPayload v.items) }
    ensures size { IfOk result (λ v. vec_len v ≡ 116) }
{
    let parms = parms(Feature::MultipleNPortIds.bit(), port, login);
    if login == 0 {
        els_bytes(alloc, &Els::Flogi(parms))
    } else {
        els_bytes(alloc, &Els::Fdisc(parms))
    }
}

// Appends a message from the ENode of a port.
fn write_message(
    alloc: Global,
    tag: Option<u16>,
    dst: Mac,
    port: PortNo,
    message: &FipOut<'_>,
    out: &mut Vec<u8>,
) -> Result<(), NoMemory>
    requires { CanWrite (fip.view_out message.now) }
    ensures ok { OnOk result (out.new.items ≡ out.old.items
        ++ spec.fip_frame tag dst port (fip.view_out message.now)) }
    ensures size { OnOk result (length (spec.fip_frame tag dst port (fip.view_out message.now))
        ≤ 65535) }
{
    let body = fip_bytes(alloc, message)?;
    let frame = EthFrame {
        dst,
        src: node_mac(port),
        tag,
        kind: FIP,
        body: &body,
    };
    write_eth(alloc, &frame, out)
}
