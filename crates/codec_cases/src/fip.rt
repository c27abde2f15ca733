//! FIP messages (FC-BB-5): read, and written as they were read.
ghost use Rattle.std.specs.Prelude.{◌≡◌, ◌%◌, ◌≤◌, length, true};

use crate::keys;
use case_lines::put;
use fab_base::{Mac, NoMemory, Wwn};
use fip_codec::{
    FipMessage, FipOut, LoginKind, Message, VlanList, VxList, VxPort, read_fip, write_fip,
};
use std::alloc::{AllocError, Global};

pub(crate) fn fip(alloc: Global, body: &[u8], out: &mut Vec<u8>) -> Result<(), AllocError> {
    match read_fip(body) {
        Ok(message) => {
            say(&message, out)?;
            let mut made = Vec::new(alloc);
            let _ = write(alloc, &message, &mut made);
            keys::written(out, body, &made)
        }
        Err(why) => keys::fault(alloc, out, why),
    }
}

fn say(message: &FipMessage<'_>, out: &mut Vec<u8>) -> Result<(), AllocError> {
    match message {
        Message::Solicit { .. } => say_solicit(message, out),
        Message::Advertise { .. } => say_advertise(message, out),
        Message::Login { mac, .. } => {
            say_login(b" request", message, out)?;
            keys::mac(out, b" mac=", mac)
        }
        Message::LoginReply { mac, .. } => {
            say_login(b" reply", message, out)?;
            say_granted(mac, out)
        }
        Message::Keep { mac, port } => {
            put(out, b"keep-alive")?;
            keys::mac(out, b" mac=", mac)?;
            say_some_port(port, out)
        }
        Message::Clear { mac, switch, ports } => {
            put(out, b"clear")?;
            keys::mac(out, b" mac=", mac)?;
            keys::name(out, b" switch=", switch)?;
            say_ports(ports, out)
        }
        Message::VlanAsk { mac, node } => say_vlan_ask(mac, node, out),
        Message::VlanTell { mac, vlans } => {
            put(out, b"vlan-notification")?;
            keys::mac(out, b" mac=", mac)?;
            say_vlans(vlans, out)
        }
    }
}

fn say_solicit(message: &FipMessage<'_>, out: &mut Vec<u8>) -> Result<(), AllocError> {
    put(out, b"solicit")?;
    if let Message::Solicit {
        from_fcf,
        fp,
        mac,
        node,
        size,
    } = message
    {
        keys::flag(out, b" from-fcf=", *from_fcf)?;
        keys::flag(out, b" fp=", *fp)?;
        keys::mac(out, b" mac=", mac)?;
        keys::name(out, b" node=", node)?;
        keys::number(out, b" size=", u64::from(*size))?;
    }
    Ok(())
}

fn say_vlan_ask(mac: &Mac, node: &Option<Wwn>, out: &mut Vec<u8>) -> Result<(), AllocError> {
    put(out, b"vlan-request")?;
    keys::mac(out, b" mac=", mac)?;
    match node {
        Some(node) => keys::name(out, b" node=", node),
        None => Ok(()),
    }
}

fn say_advertise(message: &FipMessage<'_>, out: &mut Vec<u8>) -> Result<(), AllocError> {
    put(out, b"advertise")?;
    if let Message::Advertise {
        solicited,
        available,
        from_fcf,
        fp,
        ..
    } = message
    {
        keys::flag(out, b" solicited=", *solicited)?;
        keys::flag(out, b" available=", *available)?;
        keys::flag(out, b" from-fcf=", *from_fcf)?;
        keys::flag(out, b" fp=", *fp)?;
    }
    say_fcf(message, out)
}

// The descriptors of an advertisement.
fn say_fcf(message: &FipMessage<'_>, out: &mut Vec<u8>) -> Result<(), AllocError> {
    match message {
        Message::Advertise {
            mac,
            switch,
            map,
            fabric,
            priority,
            quiet,
            period,
            ..
        } => {
            keys::number(out, b" priority=", u64::from(*priority))?;
            keys::mac(out, b" mac=", mac)?;
            keys::name(out, b" switch=", switch)?;
            keys::bytes(out, b" fc-map=", &map.to_be_bytes()[1..])?;
            keys::name(out, b" fabric=", fabric)?;
            keys::flag(out, b" quiet=", *quiet)?;
            keys::number(out, b" period=", u64::from(*period))
        }
        _ => Ok(()),
    }
}

// The kind of a login, its flag FP and its frame, of a request and of a reply.
fn login_in<'a>(message: &FipMessage<'a>) -> Option<(LoginKind, bool, &'a [u8])> {
    match message {
        Message::Login {
            kind,
            fp,
            frame,
            ..
        }
        | Message::LoginReply {
            kind,
            fp,
            frame,
            ..
        } => { Some((*kind, *fp, *frame)) }
        _ => None,
    }
}

fn say_login(
    direction: &[u8],
    message: &FipMessage<'_>,
    out: &mut Vec<u8>,
) -> Result<(), AllocError> {
    let Some((kind, fp, frame)) = login_in(message) else {
        return Ok(());
    };
    put(out, kind_text(kind))?;
    put(out, direction)?;
    keys::flag(out, b" fp=", fp)?;
    keys::bytes(out, b" frame=", frame)
}

fn kind_text(kind: LoginKind) -> &'static [u8] {
    match kind {
        LoginKind::Flogi => b"FLOGI",
        LoginKind::Fdisc => b"FDISC",
        LoginKind::Logo => b"LOGO",
    }
}

fn say_granted(mac: &Option<Mac>, out: &mut Vec<u8>) -> Result<(), AllocError> {
    match mac {
        Some(mac) => keys::mac(out, b" granted=", mac),
        None => put(out, b" granted=none"),
    }
}

fn say_some_port(port: &Option<VxPort>, out: &mut Vec<u8>) -> Result<(), AllocError> {
    match port {
        Some(port) => say_port(port, out),
        None => Ok(()),
    }
}

fn say_port(port: &VxPort, out: &mut Vec<u8>) -> Result<(), AllocError> {
    keys::mac(out, b" port=", &port.mac)?;
    keys::address(out, b",", &port.address)?;
    keys::name(out, b",", &port.name)
}

fn say_ports(ports: &VxList<'_>, out: &mut Vec<u8>) -> Result<(), AllocError> {
    for index in 0..ports.len() {
        say_some_port(&ports.at(index), out)?;
    }
    Ok(())
}

fn say_vlans(vlans: &VlanList<'_>, out: &mut Vec<u8>) -> Result<(), AllocError> {
    for index in 0..vlans.len() {
        if let Some(vlan) = vlans.at(index) {
            keys::number(out, b" vlan=", u64::from(vlan))?;
        }
    }
    Ok(())
}

// Writes a message as it was read. What no writer takes is left out.
fn write(alloc: Global, message: &FipMessage<'_>, made: &mut Vec<u8>) -> Result<(), NoMemory> {
    match message {
        Message::Solicit { .. } => write_solicit(alloc, message, made),
        Message::Advertise { .. } => write_advertise(alloc, message, made),
        Message::Login { .. } | Message::LoginReply { .. } => write_login(alloc, message, made),
        Message::Keep { mac, port } => {
            let (mac, port) = (*mac, *port);
            write_fip(alloc, &FipOut::Keep { mac, port }, made)
        }
        Message::Clear { mac, switch, ports } => write_clear(alloc, mac, switch, ports, made),
        Message::VlanAsk { mac, node } => {
            let (mac, node) = (*mac, *node);
            write_fip(alloc, &FipOut::VlanAsk { mac, node }, made)
        }
        Message::VlanTell { mac, vlans } => write_vlan(alloc, mac, vlans, made),
    }
}

fn write_solicit(
    alloc: Global,
    message: &FipMessage<'_>,
    made: &mut Vec<u8>,
) -> Result<(), NoMemory> {
    let Message::Solicit {
        from_fcf,
        fp,
        size,
        mac,
        node,
    } = message
    else {
        return Ok(());
    };
    let again = FipOut::Solicit {
        from_fcf: *from_fcf,
        fp: *fp,
        mac: *mac,
        node: *node,
        size: *size,
    };
    write_fip(alloc, &again, made)
}

fn write_login(
    alloc: Global,
    message: &FipMessage<'_>,
    made: &mut Vec<u8>,
) -> Result<(), NoMemory> {
    let Some((kind, fp, frame)) = login_in(message) else {
        return Ok(());
    };
    if !is_frame(frame) {
        return Ok(());
    }
    match message {
        Message::Login { mac, .. } => {
            let mac = *mac;
            write_fip(
                alloc,
                &FipOut::Login {
                    kind,
                    fp,
                    frame,
                    mac,
                },
                made,
            )
        }
        Message::LoginReply { mac, .. } => {
            let mac = *mac;
            write_fip(
                alloc,
                &FipOut::LoginReply {
                    kind,
                    fp,
                    frame,
                    mac,
                },
                made,
            )
        }
        _ => Ok(()),
    }
}

fn is_frame(frame: &[u8]) -> bool
    ensures { result ≡ true → (length frame.now % 4 ≡ 0) × (24 ≤ length frame.now)
        × (length frame.now ≤ 1016) }
{
    frame.len() % 4 == 0 && frame.len() >= 24 && frame.len() <= 1016
}

fn write_advertise(
    alloc: Global,
    message: &FipMessage<'_>,
    made: &mut Vec<u8>,
) -> Result<(), NoMemory> {
    match message {
        Message::Advertise {
            solicited,
            available,
            from_fcf,
            fp,
            quiet,
            priority,
            period,
            mac,
            switch,
            map,
            fabric,
        } => {
            if *map > 0xff_ffff {
                return Ok(());
            }
            let again = FipOut::Advertise {
                solicited: *solicited,
                available: *available,
                from_fcf: *from_fcf,
                fp: *fp,
                priority: *priority,
                mac: *mac,
                switch: *switch,
                map: *map,
                fabric: *fabric,
                quiet: *quiet,
                period: *period,
            };
            write_fip(alloc, &again, made)
        }
        _ => Ok(()),
    }
}

// At most a hundred ports are written.
fn write_clear(
    alloc: Global,
    mac: &Mac,
    switch: &Wwn,
    ports: &VxList<'_>,
    made: &mut Vec<u8>,
) -> Result<(), NoMemory> {
    let mut list = Vec::new(alloc);
    for index in 0..ports.len() {
        if let Some(port) = ports.at(index) {
            list.push(port)?;
        }
    }
    write_ports(alloc, mac, switch, &list, made)
}

fn write_ports(
    alloc: Global,
    mac: &Mac,
    switch: &Wwn,
    ports: &[VxPort],
    made: &mut Vec<u8>,
) -> Result<(), NoMemory> {
    if ports.len() > 100 {
        return Ok(());
    }
    write_fip(
        alloc,
        &FipOut::Clear {
            mac: *mac,
            switch: *switch,
            ports,
        },
        made,
    )
}

// One VLAN is written, or none.
fn write_vlan(
    alloc: Global,
    mac: &Mac,
    vlans: &VlanList<'_>,
    made: &mut Vec<u8>,
) -> Result<(), NoMemory> {
    let vlan = vlans.at(0).unwrap_or(0);
    if vlans.len() != 1 || vlan >= 4096 {
        return Ok(());
    }
    // For the checker: the lists of a message may hold VxPort.
    let _ports: &[VxPort] = &[];
    write_fip(
        alloc,
        &FipOut::VlanTell {
            mac: *mac,
            vlans: &[vlan],
        },
        made,
    )
}
