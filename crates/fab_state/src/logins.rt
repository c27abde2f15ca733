//! The logins of a seam, each beside those behind it.
ghost use Rattle.std.specs.Prelude.{◌≡◌, ◌<◌, ◌+◌, ◌^◌, length};
ghost use Rattle.fab_base.specs.Fabric as fabric;
ghost use Rattle.fab_state.specs.Fitting as fitting;

use crate::fit::{FitFault, FitWhy, at_line, now_of};
use crate::pasts::first_of;
use crate::{LivePort, Past, PastList, Tables, Values};
use fab_base::{Enode, Moment, Wwn};
use fab_config::Config;

// The first fault of logins, of which the first stands in this line.
pub(crate) fn logins_fault(
    config: &Config,
    ports: u32,
    tables: &Tables,
    line: u64,
) -> Option<FitFault>
    requires { line + length tables.now.ports < 2 ^ 64 }
    ensures { result ≡ fitting.logins_fault config.now ports tables.now (fitting.first_of config.now)
        line tables.now.ports }
{
    let mut at = line;
    let mut least = first_of(config);
    let mut rest = tables.ports.items();
    'logins: while let Some((port, behind)) = rest.split_first() {
        if let Some(why) = login_why(config, ports, tables, least, port, behind) {
            return at_line(at, why);
        }
        at += 1;
        least = port.address.value() + 1;
        rest = behind;
    }
    None
}

fn login_why(
    config: &Config,
    ports: u32,
    tables: &Tables,
    least: u32,
    port: &LivePort,
    behind: &[LivePort],
) -> Option<FitWhy>
    ensures { result ≡ fitting.login_why config.now ports tables.now least port.now behind.now }
{
    if let Some(why) = place_why(first_of(config), &tables.past, least, port, behind) {
        return Some(why);
    }
    if let Some(why) = heard_why(config.period, ports, now_of(tables), port) {
        return Some(why);
    }
    served_why(port)
}

// ---- address and name

fn place_why(
    first: u32,
    pasts: &PastList,
    least: u32,
    port: &LivePort,
    behind: &[LivePort],
) -> Option<FitWhy>
    ensures { result ≡ fitting.place_why first pasts.now least port.now behind.now }
{
    if port.address.value() < least {
        return Some(FitWhy::Order);
    }
    if !is_holder(first, pasts, port) {
        return Some(FitWhy::Holder);
    }
    if is_named(&port.name, behind) {
        return Some(FitWhy::Name);
    }
    if has_other_voice(port, behind) {
        return Some(FitWhy::Voice);
    }
    None
}

// Whether the address of an N_Port is held by its name.
fn is_holder(first: u32, pasts: &PastList, port: &LivePort) -> bool
    ensures { result ≡ fitting.is_holder first pasts.now port.now }
{
    let address = port.address.value();
    if address < first {
        return false;
    }
    match pasts.at((address - first) as usize) {
        Some(past) => is_held(&port.name, past),
        None => false,
    }
}

fn is_held(name: &Wwn, past: &Past) -> bool
    ensures { result ≡ fitting.is_held name.now past.now }
{
    is_name(name, past.name) && past.ended.is_none()
}

fn is_name(name: &Wwn, last: Option<Wwn>) -> bool
    ensures { result ≡ fitting.is_name name.now last }
{
    match last {
        Some(last) => last.0 == name.0,
        None => false,
    }
}

// Whether an N_Port among these has this port name.
fn is_named(name: &Wwn, ports: &[LivePort]) -> bool
    ensures { result ≡ fitting.is_named name.now ports.now }
{
    for port in ports {
        if port.name.0 == name.0 {
            return true;
        }
    }
    false
}

// Whether an N_Port among these, of the same ENode, says that it was heard at another moment.
fn has_other_voice(port: &LivePort, ports: &[LivePort]) -> bool
    ensures { result ≡ fitting.has_other_voice port.now ports.now }
{
    for other in ports {
        if is_other_voice(port, other) {
            return true;
        }
    }
    false
}

fn is_other_voice(port: &LivePort, other: &LivePort) -> bool
    ensures { result ≡ fitting.is_other_voice port.now other.now }
{
    is_same(&port.enode, &other.enode) && port.node_heard.0 != other.node_heard.0
}

fn is_same(enode: &Enode, other: &Enode) -> bool
    ensures { result ≡ fabric.same_enode enode.now other.now }
{
    enode == other
}

// ---- moments

fn heard_why(period: u32, ports: u32, now: Moment, port: &LivePort) -> Option<FitWhy>
    ensures { result ≡ fitting.heard_why period ports now port.now }
{
    if is_elsewhere(ports, &port.enode) {
        return Some(FitWhy::Port);
    }
    if now.0 < port.node_heard.0 || now.0 < port.port_heard.0 {
        return Some(FitWhy::Heard);
    }
    if is_overdue(period, now, port) {
        return Some(FitWhy::Overdue);
    }
    None
}

// Whether an ENode is behind none of so many ports.
fn is_elsewhere(ports: u32, enode: &Enode) -> bool
    ensures { result ≡ fitting.is_elsewhere ports enode.now }
{
    let port = enode.port.value();
    port < 1 || port > ports
}

fn is_overdue(period: u32, now: Moment, port: &LivePort) -> bool
    ensures { result ≡ fitting.is_overdue period now port.now }
{
    is_silent(period, port.node_heard, now)
        || is_silent(fab_policy::PORT_PERIOD, port.port_heard, now)
}

// Whether more than two and a half periods passed since a moment.
fn is_silent(period: u32, heard: Moment, now: Moment) -> bool
    ensures { result ≡ fabric.is_silent period heard now }
{
    5 * u128::from(period) < 2 * u128::from(now.0.saturating_sub(heard.0))
}

// ---- what was registered

fn served_why(port: &LivePort) -> Option<FitWhy>
    ensures { result ≡ fitting.served_why port.now }
{
    if !is_size(port.server) {
        return Some(FitWhy::Size);
    }
    if port.watch > 3 {
        return Some(FitWhy::Watch);
    }
    values_why(&port.values)
}

fn is_size(size: Option<u16>) -> bool
    ensures { result ≡ fitting.is_size size }
{
    match size {
        Some(size) => size >= 256 && size <= 2112 && size % 4 == 0,
        None => true,
    }
}

fn values_why(values: &Values) -> Option<FitWhy>
    ensures { result ≡ fitting.values_why values.now }
{
    if !are_features(values.features.view()) {
        return Some(FitWhy::Features);
    }
    if values.symbol.view().len() > 255 || values.node_symbol.view().len() > 255 {
        return Some(FitWhy::Symbol);
    }
    None
}

// Whether these are the features of 256 types, four bits each.
fn are_features(features: &[u8]) -> bool
    ensures { result ≡ fitting.are_features features.now }
{
    features.len() == 256 && are_low(features)
}

fn are_low(features: &[u8]) -> bool
    ensures { result ≡ fitting.are_low features.now }
{
    for byte in features {
        if *byte >= 16 {
            return false;
        }
    }
    true
}
