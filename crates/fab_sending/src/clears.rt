//! Clear link messages (FC-BB-5, "FIP Clear Virtual Links").
ghost use Rattle.std.specs.Prelude.{◌≡◌, ◌++◌, ◌≤◌, List, IfOk, OnErr, OnOk, length};
ghost use Rattle.fab_policy.specs.Outputs as spec;
ghost use Rattle.fab_policy.specs.declared.event.Event.{Event as Entry};
ghost use Rattle.fab_sending.specs.Message.{AreSendable};
ghost use Rattle.fab_sending.specs.Clearing.{clears, enodes_of, in_hundreds, place_of};
ghost use Rattle.fab_sending.specs.Clearing.{vx_port_of, vx_ports_of};
ghost use Rattle.fab_sending.specs.Messages.{at_moment};

use crate::{Out, OutList, OutMessage, VxPorts};
use fab_base::{Enode, Moment, NoMemory, fpma};
use fab_config::Config;
use fab_roster::{Login, LoginList};
use fip_codec::VxPort;
use std::alloc::Global;

/// The most N_Ports of one message.
const HUNDRED: usize = 100;

/// The clear link messages of a tick that ends these logins: to each ENode, by port and MAC, one
/// for each hundred of its N_Ports.
pub(crate) fn clears(
    alloc: Global,
    config: &Config,
    moment: Moment,
    ended: &LoginList,
) -> Result<OutList, NoMemory>
    ensures made { IfOk result (λ outs. outs
        ≡ at_moment moment (clears config.now ended.now)) }
    ensures sendable { IfOk result (λ outs. (events : List Entry) → AreSendable events outs) }
{
    let enodes = enodes_of(alloc, ended)?;
    let mut outs = OutList::empty(alloc);
    for enode in enodes.iter() {
        let ports = vx_ports(alloc, config, ended, enode)?;
        clear(alloc, moment, enode, ports.as_slice(), &mut outs)?;
    }
    Ok(outs)
}

/// Appends the clear link messages to an ENode that list these N_Ports, a hundred in each. Where
/// memory is refused none is appended.
pub fn clear(
    alloc: Global,
    moment: Moment,
    enode: &Enode,
    ports: &[VxPort],
    outs: &mut OutList,
) -> Result<(), NoMemory>
    ensures ok { OnOk result (
        outs.new ≡ outs.old ++ at_moment moment (in_hundreds enode.now ports.now)) }
    ensures err { OnErr result (outs.new ≡ outs.old) }
{
    let messages = by_hundreds(alloc, moment, enode, ports)?;
    outs.append(alloc, messages)
}

// The clear link messages to an ENode that list these N_Ports, a hundred in each.
fn by_hundreds(
    alloc: Global,
    moment: Moment,
    enode: &Enode,
    ports: &[VxPort],
) -> Result<OutList, NoMemory>
    ensures { IfOk result (λ outs. outs ≡ at_moment moment (in_hundreds enode.now ports.now)) }
{
    let mut outs = OutList::empty(alloc);
    let mut done = 0;
    while done < ports.len() {
        let end = done + HUNDRED.min(ports.len() - done);
        let group = ports[done..end].to_vec(alloc)?;
        let message = OutMessage::Clear {
            to: enode.mac,
            ports: VxPorts::from_vec(group),
        };
        let out = Out {
            port: enode.port,
            moment,
            message,
        };
        outs.push(alloc, out)?;
        done = end;
    }
    Ok(outs)
}

// The N_Ports of an ENode among these logins.
fn vx_ports(
    alloc: Global,
    config: &Config,
    logins: &LoginList,
    enode: &Enode,
) -> Result<Vec<VxPort>, NoMemory>
    ensures { IfOk result (λ v. v.items ≡ vx_ports_of config.now enode.now logins.now) }
{
    let mut ports = Vec::new(alloc);
    for login in logins.items() {
        if login.enode == *enode {
            ports.push(vx_port(config, login))?;
        }
    }
    Ok(ports)
}

fn vx_port(config: &Config, login: &Login) -> VxPort
    ensures { result ≡ vx_port_of config.now login.now }
{
    VxPort {
        mac: fpma(config.fc_map, login.address),
        address: login.address,
        name: login.name,
    }
}

// The ENodes of these logins by port and MAC, each once.
fn enodes_of(alloc: Global, logins: &LoginList) -> Result<Vec<Enode>, NoMemory>
    ensures { IfOk result (λ v. v.items ≡ enodes_of logins.now) }
{
    let mut enodes = Vec::new(alloc);
    for done in 0..logins.len() {
        let login = logins.at(logins.len() - 1 - done).unwrap();
        add(&mut enodes, login.enode)?;
    }
    Ok(enodes)
}

// Puts an ENode at its place among ascending ones, where it isn't there.
fn add(enodes: &mut Vec<Enode>, enode: Enode) -> Result<(), NoMemory>
    ensures { OnOk result (enodes.new.items ≡ spec.with_enode enode enodes.old.items) }
{
    let place = place_of(enodes.as_slice(), &enode);
    if place < enodes.len() && enode == enodes[place] {
        return Ok(());
    }
    enodes.insert(place, enode)?;
    Ok(())
}

fn place_of(enodes: &[Enode], enode: &Enode) -> usize
    ensures place { result ≡ place_of enode.now enodes.now }
    ensures inside { result ≤ length enodes.now }
{
    for (place, other) in enodes.iter().enumerate() {
        if *enode == *other || is_before(enode, other) {
            return place;
        }
    }
    enodes.len()
}

// Whether an ENode comes before another, by port and then by MAC.
fn is_before(one: &Enode, other: &Enode) -> bool
    ensures { result ≡ spec.enode_before one.now other.now }
{
    one.port.value() < other.port.value()
        || (one.port.value() == other.port.value() && are_before(&one.mac.0, &other.mac.0))
}

// Whether bytes come before others, compared as numbers are.
#[tactic(auto, using(crate::proofs::ClearMade::not_before))]
fn are_before(one: &[u8], other: &[u8]) -> bool
    ensures { result ≡ spec.bytes_before one.now other.now }
{
    for (i, byte) in one.iter().enumerate() {
        if i >= other.len() {
            return false;
        }
        if *byte != other[i] {
            return *byte < other[i];
        }
    }
    false
}
