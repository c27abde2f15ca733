//! Writing a message, in the one way in which the forwarder writes it: reserved bytes are 0, and
//! the descriptors stand in the order of the table of messages.
ghost use Rattle.std.specs.Prelude.{◌≡◌, ◌≤◌, ◌+◌, ◌*◌, ◌/◌, ◌++◌};
ghost use Rattle.std.specs.Prelude.{length, flat_map, vec_len, IfOk, OnOk, OnErr};
ghost use Rattle.arrayvec.specs.ArrayVec.{array_vec_len};
ghost use Rattle.fip_codec.specs.Message.{view_out, written, head_bytes, flag, priority_bytes};
ghost use Rattle.fip_codec.specs.Message.{mac_bytes, name_bytes, fabric_bytes, size_bytes};
ghost use Rattle.fip_codec.specs.Message.{frame_bytes, vx_port_bytes, advertising_bytes};
ghost use Rattle.fip_codec.specs.Message.{vlan_bytes, if_there, kind_code};
ghost use Rattle.fip_codec.specs.Written.{code_out, flags_out, list_out};
ghost use Rattle.fip_codec.specs.CanWrite.{CanWrite};

use crate::descriptor::{
    ADVERTISING, FABRIC, FDISC, FLOGI, LOGO, MAC, NAME, PRIORITY, SIZE, VLAN, VX_PORT,
};
use crate::message::{FipOut, LoginKind, VxPort};
use crate::reading::{A, F, FP, HEADER_LEN, S};
use arrayvec::ArrayVec;
use fab_base::{Mac, NoMemory, Wwn, append_reserved, put};
use std::alloc::Global;

/// The bytes of the longest list: a MAC, a name and a hundred Vx_Ports.
const MOST_LIST: usize = 2020;

/// The descriptors of a message.
type Descriptors = ArrayVec<u8, MOST_LIST>;

fn put_priority(list: &mut Descriptors, value: u8)
    requires { array_vec_len list.old + 4 ≤ MOST_LIST }
    ensures bytes { list.new.items ≡ list.old.items ++ priority_bytes value }
    ensures size { array_vec_len list.new ≡ array_vec_len list.old + 4 }
{
    put(list, &[PRIORITY, 1, 0, value]);
}

fn put_mac(list: &mut Descriptors, mac: Mac)
    requires { array_vec_len list.old + 8 ≤ MOST_LIST }
    ensures bytes { list.new.items ≡ list.old.items ++ mac_bytes mac }
    ensures size { array_vec_len list.new ≡ array_vec_len list.old + 8 }
{
    put(list, &[MAC, 2]);
    put(list, &mac.0);
}

fn put_name(list: &mut Descriptors, name: Wwn)
    requires { array_vec_len list.old + 12 ≤ MOST_LIST }
    ensures bytes { list.new.items ≡ list.old.items ++ name_bytes name }
    ensures size { array_vec_len list.new ≡ array_vec_len list.old + 12 }
{
    put(list, &[NAME, 3, 0, 0]);
    put(list, &name.0.to_be_bytes());
}

fn put_fabric(list: &mut Descriptors, map: u32, fabric: Wwn)
    requires { array_vec_len list.old + 16 ≤ MOST_LIST }
    ensures bytes { list.new.items ≡ list.old.items ++ fabric_bytes map fabric }
    ensures size { array_vec_len list.new ≡ array_vec_len list.old + 16 }
{
    let [_, high, mid, low] = map.to_be_bytes();
    put(list, &[FABRIC, 4, 0, 0]);
    put(list, &[0, high, mid, low]);
    put(list, &fabric.0.to_be_bytes());
}

fn put_size(list: &mut Descriptors, size: u16)
    requires { array_vec_len list.old + 4 ≤ MOST_LIST }
    ensures bytes { list.new.items ≡ list.old.items ++ size_bytes size }
    ensures size { array_vec_len list.new ≡ array_vec_len list.old + 4 }
{
    put(list, &[SIZE, 1]);
    put(list, &size.to_be_bytes());
}

fn kind_code(kind: LoginKind) -> u8
    ensures { result ≡ kind_code kind }
{
    match kind {
        LoginKind::Flogi => FLOGI,
        LoginKind::Fdisc => FDISC,
        LoginKind::Logo => LOGO,
    }
}

fn put_frame(list: &mut Descriptors, kind: LoginKind, frame: &[u8])
    requires frame { length frame.now ≤ 1016 }
    requires room { array_vec_len list.old + (length frame.now + 4) ≤ MOST_LIST }
    ensures bytes { list.new.items ≡ list.old.items ++ frame_bytes kind frame.now }
    ensures size { array_vec_len list.new ≡ array_vec_len list.old + (length frame.now + 4) }
{
    put(list, &[kind_code(kind), (frame.len() / 4 + 1) as u8, 0, 0]);
    put(list, frame);
}

fn put_vx_port(list: &mut Descriptors, port: &VxPort)
    requires { array_vec_len list.old + 20 ≤ MOST_LIST }
    ensures bytes { list.new.items ≡ list.old.items ++ vx_port_bytes port.now }
    ensures size { array_vec_len list.new ≡ array_vec_len list.old + 20 }
{
    let [_, high, mid, low] = port.address.value().to_be_bytes();
    put(list, &[VX_PORT, 5]);
    put(list, &port.mac.0);
    put(list, &[0, high, mid, low]);
    put(list, &port.name.0.to_be_bytes());
}

fn put_advertising(list: &mut Descriptors, quiet: bool, period: u32)
    requires { array_vec_len list.old + 8 ≤ MOST_LIST }
    ensures bytes { list.new.items ≡ list.old.items ++ advertising_bytes quiet period }
    ensures size { array_vec_len list.new ≡ array_vec_len list.old + 8 }
{
    put(list, &[ADVERTISING, 2, 0, if quiet { 1 } else { 0 }]);
    put(list, &period.to_be_bytes());
}

fn put_vlan(list: &mut Descriptors, vlan: u16)
    requires { array_vec_len list.old + 4 ≤ MOST_LIST }
    ensures bytes { list.new.items ≡ list.old.items ++ vlan_bytes vlan }
    ensures size { array_vec_len list.new ≡ array_vec_len list.old + 4 }
{
    put(list, &[VLAN, 1]);
    put(list, &vlan.to_be_bytes());
}

fn put_vx_ports(list: &mut Descriptors, ports: &[VxPort])
    requires { array_vec_len list.old + 20 * length ports.now ≤ MOST_LIST }
    ensures bytes { list.new.items ≡ list.old.items ++ flat_map vx_port_bytes ports.now }
    ensures size { array_vec_len list.new ≡ array_vec_len list.old + 20 * length ports.now }
{
    for port in ports {
        put_vx_port(list, port);
    }
}

fn put_vlans(list: &mut Descriptors, vlans: &[u16])
    requires { array_vec_len list.old + 4 * length vlans.now ≤ MOST_LIST }
    ensures bytes { list.new.items ≡ list.old.items ++ flat_map vlan_bytes vlans.now }
    ensures size { array_vec_len list.new ≡ array_vec_len list.old + 4 * length vlans.now }
{
    for vlan in vlans {
        put_vlan(list, *vlan);
    }
}

fn put_solicit(list: &mut Descriptors, mac: Mac, node: Wwn, size: u16)
    requires { array_vec_len list.old + 24 ≤ MOST_LIST }
    ensures bytes { list.new.items ≡ list.old.items
        ++ (mac_bytes mac ++ name_bytes node ++ size_bytes size) }
    ensures size { array_vec_len list.new ≡ array_vec_len list.old + 24 }
{
    put_mac(list, mac);
    put_name(list, node);
    put_size(list, size);
}

/// Who advertises: its MAC, its switch and its fabric.
fn put_forwarder(list: &mut Descriptors, mac: Mac, switch: Wwn, map: u32, fabric: Wwn)
    requires { array_vec_len list.old + 36 ≤ MOST_LIST }
    ensures bytes { list.new.items ≡ list.old.items
        ++ (mac_bytes mac ++ name_bytes switch ++ fabric_bytes map fabric) }
    ensures size { array_vec_len list.new ≡ array_vec_len list.old + 36 }
{
    put_mac(list, mac);
    put_name(list, switch);
    put_fabric(list, map, fabric);
}

fn put_login(list: &mut Descriptors, kind: LoginKind, frame: &[u8], mac: Option<Mac>)
    requires frame { length frame.now ≤ 1016 }
    requires room { array_vec_len list.old + 1028 ≤ MOST_LIST }
    ensures bytes { list.new.items ≡ list.old.items
        ++ (frame_bytes kind frame.now ++ if_there mac_bytes mac) }
    ensures size { array_vec_len list.new ≤ array_vec_len list.old + 1028 }
{
    put_frame(list, kind, frame);
    match mac {
        Some(mac) => put_mac(list, mac),
        None => {}
    }
}

fn put_keep(list: &mut Descriptors, mac: Mac, port: Option<VxPort>)
    requires { array_vec_len list.old + 28 ≤ MOST_LIST }
    ensures bytes { list.new.items ≡ list.old.items
        ++ (mac_bytes mac ++ if_there vx_port_bytes port) }
    ensures size { array_vec_len list.new ≤ array_vec_len list.old + 28 }
{
    put_mac(list, mac);
    match port {
        Some(port) => put_vx_port(list, &port),
        None => {}
    }
}

fn put_clear(list: &mut Descriptors, mac: Mac, switch: Wwn, ports: &[VxPort])
    requires { array_vec_len list.old + (20 + 20 * length ports.now) ≤ MOST_LIST }
    ensures bytes { list.new.items ≡ list.old.items
        ++ (mac_bytes mac ++ name_bytes switch ++ flat_map vx_port_bytes ports.now) }
    ensures size { array_vec_len list.new ≡ array_vec_len list.old + (20 + 20 * length ports.now) }
{
    put_mac(list, mac);
    put_name(list, switch);
    put_vx_ports(list, ports);
}

fn put_vlan_ask(list: &mut Descriptors, mac: Mac, node: Option<Wwn>)
    requires { array_vec_len list.old + 20 ≤ MOST_LIST }
    ensures bytes { list.new.items ≡ list.old.items ++ (mac_bytes mac ++ if_there name_bytes node) }
    ensures size { array_vec_len list.new ≤ array_vec_len list.old + 20 }
{
    put_mac(list, mac);
    match node {
        Some(node) => put_name(list, node),
        None => {}
    }
}

fn put_vlan_tell(list: &mut Descriptors, mac: Mac, vlans: &[u16])
    requires { array_vec_len list.old + (8 + 4 * length vlans.now) ≤ MOST_LIST }
    ensures bytes { list.new.items ≡ list.old.items
        ++ (mac_bytes mac ++ flat_map vlan_bytes vlans.now) }
    ensures size { array_vec_len list.new ≡ array_vec_len list.old + (8 + 4 * length vlans.now) }
{
    put_mac(list, mac);
    put_vlans(list, vlans);
}

/// The descriptors in the order of the table.
fn put_list(list: &mut Descriptors, message: &FipOut<'_>)
    requires can { CanWrite (view_out message.now) }
    requires empty { array_vec_len list.old ≡ 0 }
    ensures bytes { list.new.items ≡ list.old.items ++ list_out (view_out message.now) }
    ensures size { array_vec_len list.new ≤ array_vec_len list.old + 2020 }
{
    match *message {
        FipOut::Solicit {
            mac,
            node,
            size,
            ..
        } => put_solicit(list, mac, node, size),
        FipOut::Advertise {
            priority,
            mac,
            switch,
            map,
            fabric,
            quiet,
            period,
            ..
        } => {
            put_priority(list, priority);
            put_forwarder(list, mac, switch, map, fabric);
            put_advertising(list, quiet, period)
        }
        FipOut::Login {
            kind,
            frame,
            mac,
            ..
        } => put_login(list, kind, frame, Some(mac)),
        FipOut::LoginReply {
            kind,
            frame,
            mac,
            ..
        } => put_login(list, kind, frame, mac),
        FipOut::Keep { mac, port } => put_keep(list, mac, port),
        FipOut::Clear { mac, switch, ports } => put_clear(list, mac, switch, ports),
        FipOut::VlanAsk { mac, node } => put_vlan_ask(list, mac, node),
        FipOut::VlanTell { mac, vlans } => put_vlan_tell(list, mac, vlans),
    }
}

/// Operation and subcode.
fn code_of(message: &FipOut<'_>) -> (u16, u8)
    ensures { (result.0, result.1) ≡ code_out (view_out message.now) }
{
    match message {
        FipOut::Solicit { .. } => (1, 1),
        FipOut::Advertise { .. } => (1, 2),
        FipOut::Login { .. } => (2, 1),
        FipOut::LoginReply { .. } => (2, 2),
        FipOut::Keep { .. } => (3, 1),
        FipOut::Clear { .. } => (3, 2),
        FipOut::VlanAsk { .. } => (4, 1),
        FipOut::VlanTell { .. } => (4, 2),
    }
}

fn flag(value: u16, set: bool) -> u16
    ensures value { result ≡ flag value set }
    ensures small { result ≤ value }
{
    if set { value } else { 0 }
}

fn flags_of(message: &FipOut<'_>) -> u16
    ensures { result ≡ flags_out (view_out message.now) }
{
    match *message {
        FipOut::Solicit { from_fcf, fp, .. } => flag(FP, fp) + flag(F, from_fcf),
        FipOut::Advertise {
            solicited,
            available,
            from_fcf,
            fp,
            ..
        } => flag(FP, fp) + flag(A, available) + flag(S, solicited) + flag(F, from_fcf),
        FipOut::Login { fp, .. } | FipOut::LoginReply { fp, .. } => flag(FP, fp),
        FipOut::Keep { .. }
        | FipOut::Clear { .. }
        | FipOut::VlanAsk { .. }
        | FipOut::VlanTell { .. } => 0,
    }
}

/// The header of a message with this list.
fn head_of(message: &FipOut<'_>, list: &Descriptors) -> [u8; HEADER_LEN]
    requires { array_vec_len list.now ≤ MOST_LIST }
    ensures { let code = code_out (view_out message.now) in result ≡ head_bytes code.0 code.1
        (flags_out (view_out message.now)) (array_vec_len list.now / 4) }
{
    let (operation, subcode) = code_of(message);
    let [operation0, operation1] = operation.to_be_bytes();
    let [words0, words1] = ((list.len() / 4) as u16).to_be_bytes();
    let [flags0, flags1] = flags_of(message).to_be_bytes();
    [
        0x10, // version 1
        0, operation0, operation1, 0, subcode, words0, words1, flags0, flags1,
    ]
}

/// Appends a message. Where memory is refused nothing is appended.
pub fn write_fip(_alloc: Global, message: &FipOut<'_>, out: &mut Vec<u8>) -> Result<(), NoMemory>
    requires { CanWrite (view_out message.now) }
    ensures ok { OnOk result (out.new.items ≡ out.old.items ++ written (view_out message.now)) }
    ensures size { OnOk result (vec_len out.new ≤ vec_len out.old + 2030) }
    ensures err { OnErr result (out.new.items ≡ out.old.items) }
{
    let mut list = Descriptors::new();
    put_list(&mut list, message);
    out.reserve(HEADER_LEN + list.len())?;
    append_reserved(out, &head_of(message, &list));
    append_reserved(out, &list);
    Ok(())
}

/// The bytes of a message alone, the body of its frame.
pub fn fip_bytes(alloc: Global, message: &FipOut<'_>) -> Result<Vec<u8>, NoMemory>
    requires { CanWrite (view_out message.now) }
    ensures bytes { IfOk result (λ v. v.items ≡ written (view_out message.now)) }
    ensures size { IfOk result (λ v. vec_len v ≤ 2030) }
{
    let mut bytes = Vec::new(alloc);
    write_fip(alloc, message, &mut bytes)?;
    Ok(bytes)
}
