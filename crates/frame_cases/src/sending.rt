//! What is sent where no roster is needed: replies, pieces of an answer, advertisements, clear link
//! messages.
ghost use Rattle.case_lines.specs.Printing.{Grows};
ghost use Rattle.std.specs.Prelude.{◌≤◌, ◌^◌};
ghost use Rattle.ct_messages.specs.CanWrite.{CanTell};
ghost use Rattle.ct_messages.specs.Answer.{size_of};

use crate::frames::caught;
use crate::sent::said_outs;
use ct_messages::{CtTell, NextPort, TypeMap};
use fab_base::{Bytes, FcId, Mac, Moment, NoMemory, PortNo, Wwn};
use fab_config::Config;
use fab_policy::{Asker, Replied, Settled};
use fab_sending::replies::{frames_of, reply};
use fab_sending::{OutList, advertise, clear, frames_of_answer};
use fip_codec::VxPort;
use heard_frames::{Heard, What, hear};
use std::alloc::Global;
use table_cases::words::{
    CaseFault, address, code, enode, moment, name, name_at, port, short, small, some_moment,
};

/// `sends CALL ..`: the messages that are sent.
pub(crate) fn send_call(
    alloc: Global,
    config: &Config,
    line: &[u8],
    out: &mut Vec<u8>,
) -> Result<(), CaseFault>
    ensures grows { Grows out.old.items out.new.items }
{
    match name_at(line, 1) {
        "advertisements" => {
            let ports = small(line, 2)?;
            if ports > 64 {
                return Err(CaseFault::Refused);
            }
            let last = some_moment(line, 3)?;
            said_outs(
                &advertise(alloc, config, ports, last, moment(line, 4)?)?,
                out,
            )
        }
        "next" => pieces(alloc, line, out),
        "clear" => cleared(alloc, line, out),
        "reply" => replied(alloc, line, out),
        _ => Err(CaseFault::Words),
    }
}

// `next ADDRESS PORT-NAME NODE-NAME FABRIC-PORT-NAME SIZE`: an answer to GA_NXT, in frames of a
// receive size.
fn pieces(alloc: Global, line: &[u8], out: &mut Vec<u8>) -> Result<(), CaseFault>
    ensures grows { Grows out.old.items out.new.items }
{
    let size = short(line, 6)?;
    if size < 256 || size > 2112 || size % 4 != 0 {
        return Err(CaseFault::Refused);
    }
    let address = address(line, 2)?;
    let to = Asker {
        mac: Mac([0; 6]),
        d_id: address,
        s_id: address,
        ox_id: 9,
    };
    let next = next_port(
        alloc,
        address,
        name(line, 3)?,
        name(line, 4)?,
        name(line, 5)?,
    );
    said_outs(
        &frames_of_answer(alloc, Moment(5), PortNo::at(0), to, &next, size)?,
        out,
    )
}

fn next_port(
    alloc: Global,
    address: FcId,
    port_name: Wwn,
    node_name: Wwn,
    fabric_port: Wwn,
) -> CtTell
    ensures writable { CanTell result }
    ensures short { size_of result ≤ 2 ^ 20 }
{
    CtTell::Next(NextPort {
        address,
        port_name,
        symbol: Bytes::from_vec(Vec::new(alloc)),
        node_name,
        node_symbol: Bytes::from_vec(Vec::new(alloc)),
        types: TypeMap([0; 8]),
        fabric_port,
    })
}

// `clear PORT MAC COUNT AT`: so many N_Ports of an ENode, from 010100 on.
fn cleared(alloc: Global, line: &[u8], out: &mut Vec<u8>) -> Result<(), CaseFault>
    ensures grows { Grows out.old.items out.new.items }
{
    let enode = enode(line, 2)?;
    let now = moment(line, 5)?;
    let mut ports = Vec::new(alloc);
    append_ports(small(line, 4)?, &mut ports)?;
    let mut outs = OutList::empty(alloc);
    clear(alloc, now, &enode, ports.as_slice(), &mut outs)?;
    said_outs(&outs, out)
}

fn append_ports(count: u32, ports: &mut Vec<VxPort>) -> Result<(), CaseFault> {
    for number in 0..count {
        let low = number % 256;
        let Some(address) = FcId::new(0x010100 + low) else {
            return Err(CaseFault::Refused);
        };
        let mac = Mac([0x0e, 0xfc, 0x00, 0x01, 0x01, low as u8]);
        let name = Wwn(1);
        ports.push(VxPort { mac, address, name })?;
    }
    Ok(())
}

// `reply PORT ENTRY AT VERDICT.. whole FRAME`: what a frame's verdict sends back or on.
fn replied(alloc: Global, line: &[u8], out: &mut Vec<u8>) -> Result<(), CaseFault>
    ensures grows { Grows out.old.items out.new.items }
{
    let caught = caught(alloc, line, 7)?;
    let heard = hear(&caught);
    let outs = made(alloc, line, &heard)?;
    said_outs(&outs, out)
}

fn made(alloc: Global, line: &[u8], heard: &Heard<'_>) -> Result<OutList, CaseFault> {
    let port = port(line, 2)?;
    let now = moment(line, 3)?;
    match name_at(line, 4) {
        "vlans" => in_fip(alloc, now, port, heard),
        "forwarded" => {
            let to = table_cases::words::port(line, 5)?;
            sent_on(alloc, now, port, heard, to)
        }
        "ns-logout" => to_body(alloc, now, port, heard, Replied::NsLogout),
        "refused" => {
            let verdict = Replied::Refused(code(line, 5)?, code(line, 6)?);
            to_body(alloc, now, port, heard, verdict)
        }
        _ => Err(CaseFault::Words),
    }
}

// What a VLAN request sends.
fn in_fip(
    alloc: Global,
    now: Moment,
    port: PortNo,
    heard: &Heard<'_>,
) -> Result<OutList, CaseFault> {
    match &heard.what {
        What::Fip { eth, .. } => {
            let verdict = Settled::Vlans {
                to: eth.src,
                untagged: eth.vlan() == 0,
            };
            Ok(frames_of(alloc, now, port, 3, verdict)?)
        }
        _ => Err(CaseFault::Refused),
    }
}

// A body of FCoE goes on to a port, in the entry at place 3.
fn sent_on(
    alloc: Global,
    now: Moment,
    port: PortNo,
    heard: &Heard<'_>,
    to: PortNo,
) -> Result<OutList, CaseFault> {
    match &heard.what {
        What::Fcoe { read: Ok(body), .. } => {
            let verdict = Settled::Forwarded {
                port: to,
                to: body.frame.head.d_id,
            };
            Ok(frames_of(alloc, now, port, 3, verdict)?)
        }
        _ => Err(CaseFault::Refused),
    }
}

// The reply to a body of FCoE.
fn to_body(
    alloc: Global,
    now: Moment,
    port: PortNo,
    heard: &Heard<'_>,
    verdict: Replied,
) -> Result<OutList, CaseFault> {
    match &heard.what {
        What::Fcoe {
            eth,
            read: Ok(body),
        } => {
            let head = &body.frame.head;
            let to = Asker {
                mac: eth.src,
                d_id: head.d_id,
                s_id: head.s_id,
                ox_id: head.ox_id,
            };
            Ok(reply(alloc, now, port, verdict, to)?)
        }
        _ => Err(CaseFault::Refused),
    }
}
