//! Answers to logins, and clear link messages.
ghost use Rattle.std.specs.Prelude.{◌≡◌, ◌++◌, ◌≤◌, ◌+◌, true, length, OnOk, OnErr, IfOk, vec_len};
ghost use Rattle.els_messages.specs.Els as els;
ghost use Rattle.fc_frames.specs.Frame as fc;
ghost use Rattle.fip_codec.specs.Message as fip;
ghost use Rattle.fip_codec.specs.CanWrite.{CanWrite, IsFrame};
ghost use Rattle.fab_policy.specs.Replies as spec;
ghost use Rattle.fab_sending.specs.Message.{els_of};

use crate::Answer;
use crate::own::write_own;
use crate::parts::{answer_bytes, fabric_parms, header, own_tag};
use els_messages::{Els, els_bytes};
use eth_frames::FIP;
use fab_base::{FcId, Mac, NoMemory, PortNo, fpma};
use fab_config::Config;
use fab_policy::Asker;
use fc_frames::{F_CTL_LAST, FcFrame, Kind, write_frame};
use fip_codec::{FipOut, LoginKind, VxPort, fip_bytes};
use std::alloc::Global;

// Appends the accept of a login, with the granted address and its MAC.
pub(crate) fn write_login_accept(
    alloc: Global,
    config: &Config,
    to: Asker,
    kind: LoginKind,
    port: PortNo,
    several: bool,
    address: FcId,
    into: &mut Vec<u8>,
) -> Result<(), NoMemory>
    ensures ok { OnOk result (into.new.items ≡ into.old.items
        ++ spec.accept_to config.now port to kind several address) }
    ensures size { OnOk result (length (spec.accept_to config.now port to kind several address)
        ≤ 65535) }
    ensures err { OnErr result (into.new.items ≡ into.old.items) }
{
    let frame = accept_frame(alloc, config, to, port, several, address)?;
    let mac = Some(fpma(config.fc_map, address));
    write_reply(alloc, config, to.mac, kind, &frame, mac, into)
}

// Appends another answer to a login, which goes to its S_ID.
pub(crate) fn write_login_reply(
    alloc: Global,
    config: &Config,
    to: Asker,
    kind: LoginKind,
    answer: Answer,
    into: &mut Vec<u8>,
) -> Result<(), NoMemory>
    ensures ok { OnOk result (into.new.items ≡ into.old.items
        ++ spec.login_reply_to config.now to kind (els_of config.now answer)) }
    ensures size { OnOk result (length
        (spec.login_reply_to config.now to kind (els_of config.now answer)) ≤ 65535) }
    ensures err { OnErr result (into.new.items ≡ into.old.items) }
{
    let frame = answer_frame(alloc, config, to, answer)?;
    write_reply(alloc, config, to.mac, kind, &frame, None, into)
}

// Appends the answer to a login, with the frame that it encapsulates and the granted MAC.
fn write_reply(
    alloc: Global,
    config: &Config,
    dst: Mac,
    kind: LoginKind,
    frame: &[u8],
    mac: Option<Mac>,
    into: &mut Vec<u8>,
) -> Result<(), NoMemory>
    requires { IsFrame frame.now }
    ensures ok { OnOk result (into.new.items ≡ into.old.items
        ++ spec.made_fip config.now dst (fip.LoginReply kind true frame.now mac)) }
    ensures size { OnOk result (length
        (spec.made_fip config.now dst (fip.LoginReply kind true frame.now mac)) ≤ 65535) }
    ensures err { OnErr result (into.new.items ≡ into.old.items) }
{
    // For the checker: the lists of a message may hold VxPort.
    let _ports: &[VxPort] = &[];
    let message = FipOut::LoginReply {
        kind,
        fp: true,
        frame,
        mac,
    };
    write_message(alloc, config, dst, &message, into)
}

// Appends a clear link message.
pub(crate) fn write_clear(
    alloc: Global,
    config: &Config,
    to: Mac,
    ports: &[VxPort],
    into: &mut Vec<u8>,
) -> Result<(), NoMemory>
    requires { length ports.now ≤ 100 }
    ensures ok { OnOk result (into.new.items ≡ into.old.items
        ++ spec.clear_links config.now to ports.now) }
    ensures size { OnOk result (length (spec.clear_links config.now to ports.now) ≤ 65535) }
    ensures err { OnErr result (into.new.items ≡ into.old.items) }
{
    let message = FipOut::Clear {
        mac: config.fcf_mac,
        switch: config.switch,
        ports,
    };
    write_message(alloc, config, to, &message, into)
}

// The frame that accepts a login.
fn accept_frame(
    alloc: Global,
    config: &Config,
    to: Asker,
    port: PortNo,
    several: bool,
    address: FcId,
) -> Result<Vec<u8>, NoMemory>
    ensures bytes { IfOk result (λ v. v.items ≡ fc.frame_bytes
        (spec.els_reply to address (els.LoginAccept (spec.fabric_parms config.now port several)))) }
    ensures frame { IfOk result (λ v. IsFrame v.items) }
{
    let parms = fabric_parms(config, port, several);
    let payload = els_bytes(alloc, &Els::LoginAccept(parms))?;
    reply_frame(alloc, to, address, &payload)
}

// The frame that answers a login otherwise.
fn answer_frame(
    alloc: Global,
    config: &Config,
    to: Asker,
    answer: Answer,
) -> Result<Vec<u8>, NoMemory>
    ensures bytes { IfOk result (λ v. v.items ≡ fc.frame_bytes
        (spec.els_reply to to.s_id (els_of config.now answer))) }
    ensures frame { IfOk result (λ v. IsFrame v.items) }
{
    let payload = answer_bytes(alloc, config, answer)?;
    reply_frame(alloc, to, to.s_id, &payload)
}

// The frame that answers an asker, to an address, with a payload of a link service.
fn reply_frame(alloc: Global, to: Asker, d_id: FcId, payload: &[u8]) -> Result<Vec<u8>, NoMemory>
    requires payload { fc.IsPayload payload.now }
    requires most { length payload.now ≤ 116 }
    ensures bytes { IfOk result (λ v. v.items ≡ fc.frame_bytes (record {
      head = spec.header 0x23 d_id to.d_id 0x01 spec.F_CTL_LAST 0 to.ox_id;
      payload = payload.now;
    })) }
    ensures frame { IfOk result (λ v. IsFrame v.items) }
{
    let mut bytes = Vec::new(alloc);
    let frame = FcFrame {
        head: header(Kind::ElsReply, d_id, to.d_id, F_CTL_LAST, 0, to.ox_id),
        payload,
    };
    write_frame(alloc, &frame, &mut bytes)?;
    Ok(bytes)
}

// Appends a message to a MAC.
pub(crate) fn write_message(
    alloc: Global,
    config: &Config,
    dst: Mac,
    message: &FipOut<'_>,
    into: &mut Vec<u8>,
) -> Result<(), NoMemory>
    requires { CanWrite (fip.view_out message.now) }
    ensures ok { OnOk result (into.new.items ≡ into.old.items
        ++ spec.made_fip config.now dst (fip.view_out message.now)) }
    ensures size { OnOk result (length
        (spec.made_fip config.now dst (fip.view_out message.now)) ≤ 65535) }
    ensures err { OnErr result (into.new.items ≡ into.old.items) }
{
    let body = fip_bytes(alloc, message)?;
    let tag = Some(own_tag(config));
    write_own(alloc, config, tag, dst, FIP, &body, into)
}
