//! Frames in FCoE from a granted address.
ghost use Rattle.std.specs.Prelude.{◌≡◌, ◌≤◌, ◌<◌, ◌++◌, length, IfOk, OnOk, vec_len};
ghost use Rattle.ct_messages.specs.CanWrite.{CanWrite};
ghost use Rattle.ct_messages.specs.Ct as ct;
ghost use Rattle.els_messages.specs.Els as els;
ghost use Rattle.fc_frames.specs.Frame.{IsPayload};
ghost use Rattle.fcoe_codec.specs.Fcoe as capsule;
ghost use Rattle.fab_vectors.specs.Frames as spec;

use crate::LOGINS;
use crate::names::{FORWARDER, TAG, address, granted_mac, well_known};
use crate::parts::{header, parms};
use ct_messages::{CtAsk, TypeMap, write_ask};
use els_messages::scr::FULL;
use els_messages::{Els, els_bytes};
use eth_frames::{EthFrame, FCOE, write_eth};
use fab_base::{FcId, NoMemory, PortNo};
use fc_frames::{CONTROLLER, FCP, FcFrame, FcHeader, Kind, NAME_SERVER};
use fcoe_codec::{EOF_T, FcoeFrame, SOF_I3, fcoe_bytes};
use std::alloc::Global;

/// How many bytes count on: payloads are cut out of them.
const COUNTED: usize = 2368;

// Appends the login of a login to the name server.
pub(crate) fn write_server_login(
    alloc: Global,
    port: PortNo,
    login: u8,
    out: &mut Vec<u8>,
) -> Result<(), NoMemory>
    ensures ok { OnOk result (out.new.items ≡ out.old.items ++ spec.server_login port login) }
    ensures size { OnOk result (length (spec.server_login port login) ≤ 65535) }
{
    let head = header(
        Kind::ElsRequest,
        well_known(NAME_SERVER),
        address(port, login),
        1,
    );
    let payload = els_bytes(alloc, &Els::Plogi(parms(0, port, login)))?;
    write_payload(alloc, &head, &payload, out)
}

// Appends its request to be notified of state changes.
pub(crate) fn write_watch(
    alloc: Global,
    port: PortNo,
    login: u8,
    out: &mut Vec<u8>,
) -> Result<(), NoMemory>
    ensures ok { OnOk result (out.new.items ≡ out.old.items ++ spec.watch port login) }
    ensures size { OnOk result (length (spec.watch port login) ≤ 65535) }
{
    let head = header(
        Kind::ElsRequest,
        well_known(CONTROLLER),
        address(port, login),
        2,
    );
    let payload = els_bytes(alloc, &Els::Scr { function: FULL })?;
    write_payload(alloc, &head, &payload, out)
}

// Appends its registration.
pub(crate) fn write_registration(
    alloc: Global,
    port: PortNo,
    login: u8,
    out: &mut Vec<u8>,
) -> Result<(), NoMemory>
    ensures ok { OnOk result (out.new.items ≡ out.old.items ++ spec.registration port login) }
    ensures size { OnOk result (length (spec.registration port login) ≤ 65535) }
{
    let s_id = address(port, login);
    let head = header(Kind::CtRequest, well_known(NAME_SERVER), s_id, 3);
    let types = TypeMap([0x100, 0, 0, 0, 0, 0, 0, 0]);
    let payload = ct_bytes(alloc, &CtAsk::SetTypes(s_id, types))?;
    write_payload(alloc, &head, &payload, out)
}

// Appends its query.
pub(crate) fn write_query(
    alloc: Global,
    port: PortNo,
    login: u8,
    out: &mut Vec<u8>,
) -> Result<(), NoMemory>
    ensures ok { OnOk result (out.new.items ≡ out.old.items ++ spec.query port login) }
    ensures size { OnOk result (length (spec.query port login) ≤ 65535) }
{
    let head = header(
        Kind::CtRequest,
        well_known(NAME_SERVER),
        address(port, login),
        4,
    );
    let payload = ct_bytes(alloc, &CtAsk::AddressesOfType(FCP))?;
    write_payload(alloc, &head, &payload, out)
}

// Appends the data frame of an OX_ID, by what was drawn for it.
pub(crate) fn write_data(
    alloc: Global,
    port: PortNo,
    ox_id: u16,
    drawn: u32,
    counted: &[u8],
    out: &mut Vec<u8>,
) -> Result<(), NoMemory>
    requires { counted.now ≡ spec.counted spec.COUNTED }
    ensures ok { OnOk result (out.new.items ≡ out.old.items ++ spec.data_frame port ox_id drawn) }
    ensures size { OnOk result (length (spec.data_frame port ox_id drawn) ≤ 65535) }
{
    let d_id = address(target_port(drawn), target(drawn));
    let head = header(Kind::FcpData, d_id, address(port, sender(drawn)), ox_id);
    write_payload(alloc, &head, payload_of(drawn, counted), out)
}

// The login that a data frame is from.
fn sender(drawn: u32) -> u8
    ensures value { result ≡ spec.sender drawn }
    ensures range { result < 30 }
{
    (drawn % u32::from(LOGINS)) as u8
}

// The port that it goes to.
fn target_port(drawn: u32) -> PortNo
    ensures { result ≡ spec.target_port drawn }
{
    PortNo::at((drawn / 30 % 8) as usize)
}

// The login that it goes to.
fn target(drawn: u32) -> u8
    ensures { result ≡ spec.target drawn }
{
    if drawn / 240 % 8 == 0 {
        (sender(drawn) + 1) % LOGINS
    } else {
        sender(drawn)
    }
}

// Its payload, as a part of bytes that count on.
fn payload_of(drawn: u32, counted: &[u8]) -> &[u8]
    requires { counted.now ≡ spec.counted spec.COUNTED }
    ensures bytes { result.now ≡ spec.payload drawn }
    ensures payload { IsPayload result.now }
{
    let from = (drawn % 256) as usize;
    let length = 4 * (drawn / 1920 % 529) as usize;
    let (_, rest) = counted.split_at(from);
    let (payload, _) = rest.split_at(length);
    payload
}

/// Bytes that count on from 0, of which each payload is a part.
pub(crate) fn counted_bytes(alloc: Global) -> Result<Vec<u8>, NoMemory>
    ensures { IfOk result (λ v. v.items ≡ spec.counted spec.COUNTED) }
{
    count_to(alloc, COUNTED)
}

#[tactic(auto, unfolding(crate::specs::Frames::counted))]
fn count_to(alloc: Global, count: usize) -> Result<Vec<u8>, NoMemory>
    ensures { IfOk result (λ v. v.items ≡ spec.counted count) }
{
    let mut bytes = Vec::with_capacity(alloc, count)?;
    for place in 0..count {
        bytes.push((place % 256) as u8)?;
    }
    Ok(bytes)
}

// The payload of a request to the name server.
fn ct_bytes(alloc: Global, ask: &CtAsk<'_>) -> Result<Vec<u8>, NoMemory>
    requires { CanWrite (ct.view ask.now) }
    ensures bytes { IfOk result (λ v. v.items ≡ ct.written (ct.view ask.now)) }
    ensures payload { IfOk result (λ v. IsPayload v.items) }
{
    let mut payload = Vec::new(alloc);
    write_ask(alloc, ask, &mut payload)?;
    Ok(payload)
}

// Appends a frame with this header and payload.
fn write_payload(
    alloc: Global,
    head: &FcHeader,
    payload: &[u8],
    out: &mut Vec<u8>,
) -> Result<(), NoMemory>
    requires { IsPayload payload.now }
    ensures ok { OnOk result (out.new.items
        ≡ out.old.items ++ spec.fcoe_frame head.now payload.now) }
    ensures size { OnOk result (length (spec.fcoe_frame head.now payload.now) ≤ 65535) }
{
    let body = body_of(alloc, head, payload)?;
    let frame = EthFrame {
        dst: FORWARDER,
        src: granted_mac(head.s_id),
        tag: Some(TAG),
        kind: FCOE,
        body: &body,
    };
    write_eth(alloc, &frame, out)
}

// A frame between its delimiters.
fn body_of(alloc: Global, head: &FcHeader, payload: &[u8]) -> Result<Vec<u8>, NoMemory>
    requires { IsPayload payload.now }
    ensures bytes { IfOk result (λ v. v.items ≡ capsule.written (record {
      sof = capsule.SOF_I3;
      eof = capsule.EOF_T;
      frame = record { head = head.now; payload = payload.now };
    })) }
    ensures size { IfOk result (λ v. vec_len v ≤ 2158) }
{
    let frame = FcoeFrame {
        sof: SOF_I3,
        eof: EOF_T,
        frame: FcFrame {
            head: *head,
            payload,
        },
    };
    fcoe_bytes(alloc, &frame)
}
