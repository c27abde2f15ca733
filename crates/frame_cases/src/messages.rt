//! Each kind of message that a forwarder sends, byte by byte (FC-BB-5 "FIP messages", FC-LS-2,
//! FC-GS-6).
ghost use Rattle.case_lines.specs.Printing.{Grows};
ghost use Rattle.std.specs.Prelude.{◌≡◌, ◌<◌, IsTrue, [], IfOk, Some};
ghost use Rattle.fab_sending.specs.Message.{can_send, frame_at};

use crate::frames::caught;
use fab_base::{Caught, Moment, NoMemory, PortNo};
use fab_config::Config;
use fab_policy::{Asker, Event, Verdict};
use fab_sending::{Answer, EventList, Out, OutMessage, VxPorts, write_out};
use fip_codec::{LoginKind, VxPort};
use std::alloc::Global;
use table_cases::say::end_hex;
use table_cases::words::{
    CaseFault, address, code, has_word, hex, hexadecimal, mac, name, name_at, port, short,
};

/// `message KIND ..`: the bytes of a message.
pub(crate) fn message_call(
    alloc: Global,
    config: &Config,
    line: &[u8],
    out: &mut Vec<u8>,
) -> Result<(), CaseFault>
    ensures grows { Grows out.old.items out.new.items }
{
    let kind = name_at(line, 1);
    match kind {
        "ct" => said_ct(alloc, config, line, out),
        "clear" => said_clear(alloc, config, line, out),
        "forwarded" => said_forwarded(alloc, config, line, out),
        _ => {
            let message = plain(kind, line)?;
            said(alloc, config, &EventList::empty(alloc), message, out)
        }
    }
}

// A message that can always be sent.
fn plain(kind: &str, line: &[u8]) -> Result<OutMessage, CaseFault>
    ensures { IfOk result (λ m. IsTrue (can_send [] m)) }
{
    match kind {
        "vlans" => Ok(OutMessage::Vlans {
            to: mac(line, 2)?,
            untagged: name_at(line, 3) == "untagged",
        }),
        "solicited" => Ok(OutMessage::Solicited {
            to: mac(line, 2)?,
            size: short(line, 3)?,
        }),
        "advertisement" => Ok(OutMessage::Advertisement),
        "login-accept" => accept(line),
        "login-reply" => reply(line),
        "service-reply" => Ok(OutMessage::ServiceReply {
            to: asker(line, 2)?,
            answer: answer(line, 6)?,
        }),
        "rscn" => Ok(OutMessage::Rscn {
            watcher: address(line, 2)?,
            affected: address(line, 3)?,
            ox_id: exchange(line, 4)?,
        }),
        _ => Err(CaseFault::Words),
    }
}

// `login-accept ASKER KIND PORT single|several ADDRESS`.
fn accept(line: &[u8]) -> Result<OutMessage, CaseFault>
    ensures { IfOk result (λ m. IsTrue (can_send [] m)) }
{
    Ok(OutMessage::LoginAccept {
        to: asker(line, 2)?,
        kind: kind(line, 6)?,
        port: port(line, 7)?,
        several: name_at(line, 8) == "several",
        address: address(line, 9)?,
    })
}

// `login-reply ASKER KIND ANSWER`.
fn reply(line: &[u8]) -> Result<OutMessage, CaseFault>
    ensures { IfOk result (λ m. IsTrue (can_send [] m)) }
{
    Ok(OutMessage::LoginReply {
        to: asker(line, 2)?,
        kind: kind(line, 6)?,
        answer: answer(line, 7)?,
    })
}

// A MAC, D_ID, S_ID and OX_ID.
fn asker(line: &[u8], place: usize) -> Result<Asker, CaseFault>
    requires { place < 1000 }
{
    let mac = mac(line, place)?;
    let d_id = address(line, place + 1)?;
    let s_id = address(line, place + 2)?;
    let ox_id = exchange(line, place + 3)?;
    Ok(Asker {
        mac,
        d_id,
        s_id,
        ox_id,
    })
}

// The four digits of an OX_ID.
fn exchange(line: &[u8], place: usize) -> Result<u16, CaseFault> {
    match u16::try_from(hexadecimal(line, place)?) {
        Ok(number) => Ok(number),
        Err(_) => Err(CaseFault::Words),
    }
}

fn kind(line: &[u8], place: usize) -> Result<LoginKind, CaseFault> {
    match name_at(line, place) {
        "flogi" => Ok(LoginKind::Flogi),
        "fdisc" => Ok(LoginKind::Fdisc),
        "logo" => Ok(LoginKind::Logo),
        _ => Err(CaseFault::Words),
    }
}

// `accept`, `server-login` or `reject REASON EXPLANATION`.
fn answer(line: &[u8], place: usize) -> Result<Answer, CaseFault>
    requires { place < 1000 }
{
    match name_at(line, place) {
        "accept" => Ok(Answer::Accept),
        "server-login" => Ok(Answer::ServerLogin),
        "reject" => Ok(Answer::Reject(code(line, place + 1)?, code(line, place + 2)?)),
        _ => Err(CaseFault::Words),
    }
}

// `ct ASKER COUNT last|more PAYLOAD`.
fn said_ct(alloc: Global, config: &Config, line: &[u8], out: &mut Vec<u8>) -> Result<(), CaseFault>
    ensures grows { Grows out.old.items out.new.items }
{
    let to = asker(line, 2)?;
    let count = short(line, 6)?;
    let last = name_at(line, 7) == "last";
    let payload = hex(alloc, line, 8)?;
    let size = payload.view().len();
    if size > 2112 || size % 4 != 0 {
        return Err(CaseFault::Refused);
    }
    let message = OutMessage::Ct {
        to,
        count,
        last,
        payload,
    };
    said(alloc, config, &EventList::empty(alloc), message, out)
}

// `clear MAC`, and then a MAC, an address and a name for each N_Port.
fn said_clear(
    alloc: Global,
    config: &Config,
    line: &[u8],
    out: &mut Vec<u8>,
) -> Result<(), CaseFault>
    ensures grows { Grows out.old.items out.new.items }
{
    let to = mac(line, 2)?;
    let mut ports = Vec::new(alloc);
    ports_at(line, &mut ports)?;
    if ports.len() > 100 {
        return Err(CaseFault::Refused);
    }
    let ports = VxPorts::from_vec(ports);
    let message = OutMessage::Clear { to, ports };
    said(alloc, config, &EventList::empty(alloc), message, out)
}

fn ports_at(line: &[u8], ports: &mut Vec<VxPort>) -> Result<(), CaseFault> {
    for index in 0..101 {
        let place = 3 + 3 * index;
        if !has_word(line, place) {
            break;
        }
        let mac = mac(line, place)?;
        let address = address(line, place + 1)?;
        let name = name(line, place + 2)?;
        ports.push(VxPort { mac, address, name })?;
    }
    Ok(())
}

// `forwarded ADDRESS whole|cut FRAME`.
fn said_forwarded(
    alloc: Global,
    config: &Config,
    line: &[u8],
    out: &mut Vec<u8>,
) -> Result<(), CaseFault>
    ensures grows { Grows out.old.items out.new.items }
{
    let to = address(line, 2)?;
    let caught = caught(alloc, line, 3)?;
    let size = caught.bytes.view().len();
    if size < 14 || size > 65535 {
        return Err(CaseFault::Refused);
    }
    let events = only_entry(alloc, caught)?;
    said(
        alloc,
        config,
        &events,
        OutMessage::Forwarded { entry: 0, to },
        out,
    )
}

// The entry of a frame, alone.
fn only_entry(alloc: Global, caught: Caught) -> Result<EventList, NoMemory>
    ensures { IfOk result (λ events. frame_at 0 events ≡ Some caught) }
{
    let mut events = EventList::empty(alloc);
    let frame = Event::Frame {
        port: PortNo::at(0),
        index: 0,
        caught,
        verdict: Verdict::Forwarded(PortNo::at(1)),
    };
    events.push(alloc, frame)?;
    Ok(events)
}

// The bytes of a message, behind a byte 07.
fn said(
    alloc: Global,
    config: &Config,
    events: &EventList,
    message: OutMessage,
    out: &mut Vec<u8>,
) -> Result<(), CaseFault>
    requires { IsTrue (can_send events.now message) }
    ensures grows { Grows out.old.items out.new.items }
{
    let sent = Out {
        port: PortNo::at(0),
        moment: Moment(0),
        message,
    };
    let mut bytes = Vec::new(alloc);
    bytes.push(7)?;
    write_out(alloc, config, events, &sent, &mut bytes)?;
    end_hex(out, &bytes)
}
