//! The answers to queries, one function a kind.
ghost use Rattle.std.specs.Prelude.{◌≡◌, ◌<◌, length, IfOk, false};
ghost use Rattle.ct_messages.specs.Ask as asks;
ghost use Rattle.ct_messages.specs.CanWrite.{CanTell};
ghost use Rattle.ct_messages.specs.Server as server;
ghost use Rattle.ct_messages.specs.declared.CtTell.TheVariants as tell;
ghost use Rattle.name_server.specs.Registry.{known};
ghost use Rattle.name_server.specs.Views.{AreSeen, as_known, by_name_of};

use crate::lists::{NameOf, addresses_of_type, all_addresses, names_of_type};
use crate::ports::{Known, by_address, by_name, next_to};
use crate::refusals::reject;
use crate::{Registry, SeenPort};
use ct_messages::ports::{N_PORT, NX_PORT};
use ct_messages::reject::{
    COMMAND_NOT_SUPPORTED, NO_EXPLANATION, PORT_ID_NOT_REGISTERED, PORT_NAME_NOT_REGISTERED,
    TYPES_NOT_REGISTERED, UNABLE_TO_PERFORM,
};
use ct_messages::{CtAsk, CtTell, NextPort};
use fab_base::{Bytes, FcId, NoMemory, Wwn};
use std::alloc::Global;

fn next(alloc: Global, known: &Known<'_>) -> Result<CtTell, NoMemory>
    ensures answer { IfOk result (λ t. t ≡ tell.Next (server.next_answer (as_known known.now))) }
    ensures writable { IfOk result CanTell }
{
    Ok(CtTell::Next(NextPort {
        address: known.port.address,
        port_name: known.port.name,
        symbol: Bytes::copy(alloc, known.entry.symbol())?,
        node_name: known.entry.node_name(),
        node_symbol: Bytes::copy(alloc, known.entry.node_symbol())?,
        types: known.entry.types(),
        fabric_port: known.port.fabric_port,
    }))
}

#[tactic(auto, unfolding(ct_messages::specs::Server::query))]
fn next_of(
    alloc: Global,
    registry: &Registry,
    seen: &[SeenPort],
    address: FcId,
) -> Result<CtTell, NoMemory>
    requires { AreSeen registry.now.entries seen.now }
    ensures answer { IfOk result (λ t. t ≡ server.answer (known registry.now.entries seen.now)
        (asks.NextOf address)) }
    ensures writable { IfOk result CanTell }
{
    match next_to(registry, seen, address) {
        Some(known) => next(alloc, &known),
        None => Ok(CtTell::Done), // no N_Port is seen
    }
}

#[tactic(auto, unfolding(ct_messages::specs::Server::query))]
fn port_name_of(registry: &Registry, seen: &[SeenPort], address: FcId) -> CtTell
    requires { AreSeen registry.now.entries seen.now }
    ensures answer { result
        ≡ server.answer (known registry.now.entries seen.now) (asks.PortNameOf address) }
    ensures writable { CanTell result }
{
    match by_address(registry, seen, address) {
        Some(known) => CtTell::Name(known.port.name),
        None => reject(UNABLE_TO_PERFORM, PORT_ID_NOT_REGISTERED),
    }
}

#[tactic(auto, unfolding(ct_messages::specs::Server::query))]
fn node_name_of(registry: &Registry, seen: &[SeenPort], address: FcId) -> CtTell
    requires { AreSeen registry.now.entries seen.now }
    ensures answer { result
        ≡ server.answer (known registry.now.entries seen.now) (asks.NodeNameOf address) }
    ensures writable { CanTell result }
{
    match by_address(registry, seen, address) {
        Some(known) => CtTell::Name(known.entry.node_name()),
        None => reject(UNABLE_TO_PERFORM, PORT_ID_NOT_REGISTERED),
    }
}

#[tactic(auto, unfolding(ct_messages::specs::Server::query))]
fn types_of(registry: &Registry, seen: &[SeenPort], address: FcId) -> CtTell
    requires { AreSeen registry.now.entries seen.now }
    ensures answer { result
        ≡ server.answer (known registry.now.entries seen.now) (asks.TypesOf address) }
    ensures writable { CanTell result }
{
    match by_address(registry, seen, address) {
        Some(known) if known.entry.types().is_zero() => reject(
            UNABLE_TO_PERFORM,
            TYPES_NOT_REGISTERED,
        ),
        Some(known) => CtTell::Types(known.entry.types()),
        None => reject(UNABLE_TO_PERFORM, PORT_ID_NOT_REGISTERED),
    }
}

#[tactic(auto, unfolding(ct_messages::specs::Server::query))]
fn features_of(registry: &Registry, seen: &[SeenPort], address: FcId) -> CtTell
    requires { AreSeen registry.now.entries seen.now }
    ensures answer { result
        ≡ server.answer (known registry.now.entries seen.now) (asks.FeaturesOf address) }
    ensures writable { CanTell result }
{
    match by_address(registry, seen, address) {
        Some(known) => CtTell::Features(known.entry.features()),
        None => reject(UNABLE_TO_PERFORM, PORT_ID_NOT_REGISTERED),
    }
}

#[tactic(auto, unfolding(ct_messages::specs::Server::query))]
fn address_of(registry: &Registry, seen: &[SeenPort], name: Wwn) -> CtTell
    requires { AreSeen registry.now.entries seen.now }
    ensures answer { result
        ≡ server.answer (known registry.now.entries seen.now) (asks.ByPortName name) }
    ensures writable { CanTell result }
{
    match by_name(registry, seen, name) {
        Some(known) => CtTell::Port(known.port.address),
        None => reject(UNABLE_TO_PERFORM, PORT_NAME_NOT_REGISTERED),
    }
}

#[tactic(auto, unfolding(ct_messages::specs::Server::query))]
fn of_type(
    alloc: Global,
    registry: &Registry,
    seen: &[SeenPort],
    kind: u8,
) -> Result<CtTell, NoMemory>
    requires { AreSeen registry.now.entries seen.now }
    ensures answer { IfOk result (λ t. t ≡ server.answer (known registry.now.entries seen.now)
        (asks.AddressesOfType kind)) }
    ensures writable { IfOk result CanTell }
{
    let list = addresses_of_type(alloc, registry, seen, kind)?;
    if list.len() == 0 {
        return Ok(reject(UNABLE_TO_PERFORM, TYPES_NOT_REGISTERED));
    }
    Ok(CtTell::Addresses(list))
}

#[tactic(auto, unfolding(ct_messages::specs::Server::query))]
fn named_of_type(
    alloc: Global,
    registry: &Registry,
    seen: &[SeenPort],
    kind: u8,
    name: NameOf,
) -> Result<CtTell, NoMemory>
    requires { AreSeen registry.now.entries seen.now }
    ensures answer { IfOk result (λ t. t ≡ server.answer (known registry.now.entries seen.now)
        (by_name_of name kind)) }
    ensures writable { IfOk result CanTell }
{
    let list = names_of_type(alloc, registry, seen, kind, name)?;
    if list.len() == 0 {
        return Ok(reject(UNABLE_TO_PERFORM, TYPES_NOT_REGISTERED));
    }
    Ok(CtTell::Names(list))
}

#[tactic(auto, unfolding(ct_messages::specs::Server::query))]
fn of_port_type(
    alloc: Global,
    registry: &Registry,
    seen: &[SeenPort],
    kind: u8,
) -> Result<CtTell, NoMemory>
    requires some { 0 < length (known registry.now.entries seen.now) }
    ensures answer { IfOk result (λ t. t ≡ server.answer (known registry.now.entries seen.now)
        (asks.AddressesOfPortType kind)) }
    ensures writable { IfOk result CanTell }
{
    if kind != N_PORT && kind != NX_PORT {
        return Ok(reject(UNABLE_TO_PERFORM, NO_EXPLANATION));
    }
    Ok(CtTell::Addresses(all_addresses(alloc, registry, seen)?))
}

pub(crate) fn answer_of(
    alloc: Global,
    registry: &Registry,
    seen: &[SeenPort],
    ask: &CtAsk<'_>,
) -> Result<CtTell, NoMemory>
    requires query { server.is_registration (asks.view ask.now) ≡ false }
    requires seen { AreSeen registry.now.entries seen.now }
    requires some { 0 < length (known registry.now.entries seen.now) }
    ensures answer { IfOk result (λ t. t ≡ server.answer (known registry.now.entries seen.now)
        (asks.view ask.now)) }
    ensures writable { IfOk result CanTell }
{
    match *ask {
        CtAsk::NextOf(address) => next_of(alloc, registry, seen, address),
        CtAsk::PortNameOf(address) => Ok(port_name_of(registry, seen, address)),
        CtAsk::NodeNameOf(address) => Ok(node_name_of(registry, seen, address)),
        CtAsk::TypesOf(address) => Ok(types_of(registry, seen, address)),
        CtAsk::FeaturesOf(address) => Ok(features_of(registry, seen, address)),
        CtAsk::ByPortName(name) => Ok(address_of(registry, seen, name)),
        CtAsk::AddressesOfType(kind) => of_type(alloc, registry, seen, kind),
        CtAsk::PortNamesOfType(kind) => named_of_type(alloc, registry, seen, kind, NameOf::Port),
        CtAsk::NodeNamesOfType(kind) => named_of_type(alloc, registry, seen, kind, NameOf::Node),
        CtAsk::AddressesOfPortType(kind) => of_port_type(alloc, registry, seen, kind),
        CtAsk::Unknown(_) => Ok(reject(COMMAND_NOT_SUPPORTED, NO_EXPLANATION)),
        _ => unreachable!(),
    }
}
