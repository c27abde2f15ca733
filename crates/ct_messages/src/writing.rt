//! From a request to bytes.
ghost use Rattle.std.specs.Prelude.{◌≡◌, ◌+◌, ◌%◌, ◌≤◌, ◌++◌, length, vec_len, IfOk, OnOk, OnErr};
ghost use Rattle.ct_messages.specs.CanWrite.{CanWrite, IsSymbol};
ghost use Rattle.ct_messages.specs.Ct as spec;

use crate::bytes::{preamble, put_address, put_name, put_text, put_words, put_zeros};
use crate::command::Command;
use crate::{CtAsk, TypeMap};
use fab_base::{FcId, NoMemory, Wwn};
use std::alloc::{AllocError, Global};

/// The bytes of the longest request.
const MOST_ASK: usize = 280;

/// Appends the request; reserved bytes are 0, and zeros fill its last word. Where memory is
/// refused, `out` is as it was.
pub fn write_ask(alloc: Global, ask: &CtAsk<'_>, out: &mut Vec<u8>) -> Result<(), NoMemory>
    requires { CanWrite (spec.view ask.now) }
    ensures ok { OnOk result (out.new.items ≡ out.old.items ++ spec.written (spec.view ask.now)) }
    ensures size { OnOk result (vec_len out.new ≤ vec_len out.old + 280) }
    ensures words { OnOk result (length (spec.written (spec.view ask.now)) % 4 ≡ 0) }
    ensures err { OnErr result (out.new.items ≡ out.old.items) }
{
    let bytes = request(alloc, ask)?;
    out.extend_from_slice(&bytes)?;
    Ok(())
}

/// The bytes of a request.
#[tactic(auto, unfolding(crate::specs::Ct::written))]
fn request(alloc: Global, ask: &CtAsk<'_>) -> Result<Vec<u8>, AllocError>
    requires { CanWrite (spec.view ask.now) }
    ensures bytes { IfOk result (λ v. v.items ≡ spec.written (spec.view ask.now)) }
    ensures size { IfOk result (λ v. vec_len v ≤ 280) }
{
    let mut bytes = Vec::with_capacity(alloc, MOST_ASK)?;
    bytes.extend_from_slice(&preamble(code_of(ask), 0, 0))?;
    put_body(&mut bytes, ask)?;
    let odd = bytes.len() % 4;
    put_zeros(&mut bytes, (4 - odd) % 4)?;
    Ok(bytes)
}

fn code_of(ask: &CtAsk<'_>) -> u16
    ensures { result ≡ spec.code_of (spec.view ask.now) }
{
    let command = match *ask {
        CtAsk::NextOf(_) => Command::GaNxt,
        CtAsk::PortNameOf(_) => Command::GpnId,
        CtAsk::NodeNameOf(_) => Command::GnnId,
        CtAsk::TypesOf(_) => Command::GftId,
        CtAsk::FeaturesOf(_) => Command::GffId,
        CtAsk::ByPortName(_) => Command::GidPn,
        CtAsk::AddressesOfType(_) => Command::GidFt,
        CtAsk::PortNamesOfType(_) => Command::GpnFt,
        CtAsk::NodeNamesOfType(_) => Command::GnnFt,
        CtAsk::AddressesOfPortType(_) => Command::GidPt,
        CtAsk::SetNode(..) => Command::RnnId,
        CtAsk::SetTypes(..) => Command::RftId,
        CtAsk::SetSymbol(..) => Command::RspnId,
        CtAsk::SetFeature { .. } => Command::RffId,
        CtAsk::SetNodeSymbol(..) => Command::RsnnNn,
        CtAsk::Erase(_) => Command::DaId,
        CtAsk::Unknown(code) => return code,
    };
    command.code()
}

/// Appends what follows the preamble.
fn put_body(bytes: &mut Vec<u8>, ask: &CtAsk<'_>) -> Result<(), AllocError>
    requires { CanWrite (spec.view ask.now) }
    ensures bytes { OnOk result (bytes.new.items ≡ bytes.old.items ++ spec.body_bytes
        (spec.view ask.now)) }
    ensures size { OnOk result (vec_len bytes.new ≤ vec_len bytes.old + 264) }
{
    match *ask {
        CtAsk::NextOf(address)
        | CtAsk::PortNameOf(address)
        | CtAsk::NodeNameOf(address)
        | CtAsk::TypesOf(address)
        | CtAsk::FeaturesOf(address)
        | CtAsk::Erase(address) => put_address(bytes, address),
        CtAsk::ByPortName(name) => put_name(bytes, name),
        CtAsk::AddressesOfType(kind)
        | CtAsk::PortNamesOfType(kind)
        | CtAsk::NodeNamesOfType(kind) => bytes.extend_from_slice(&[0, 0, 0, kind]),
        CtAsk::AddressesOfPortType(kind) => bytes.extend_from_slice(&[kind, 0, 0, 0]),
        CtAsk::SetNode(address, name) => put_node(bytes, address, name),
        CtAsk::SetTypes(address, types) => put_types(bytes, address, &types),
        CtAsk::SetSymbol(address, symbol) => put_symbol(bytes, address, symbol),
        CtAsk::SetFeature {
            address,
            feature,
            kind,
        } => put_feature(bytes, address, feature, kind),
        CtAsk::SetNodeSymbol(name, symbol) => put_node_symbol(bytes, name, symbol),
        CtAsk::Unknown(_) => Ok(()),
    }
}

fn put_node(bytes: &mut Vec<u8>, address: FcId, name: Wwn) -> Result<(), AllocError>
    ensures bytes { OnOk result (bytes.new.items ≡ bytes.old.items ++ spec.body_bytes
        (spec.SetNode address name)) }
    ensures size { OnOk result (vec_len bytes.new ≡ vec_len bytes.old + 12) }
{
    put_address(bytes, address)?;
    put_name(bytes, name)
}

fn put_types(bytes: &mut Vec<u8>, address: FcId, types: &TypeMap) -> Result<(), AllocError>
    ensures bytes { OnOk result (bytes.new.items ≡ bytes.old.items ++ spec.body_bytes
        (spec.SetTypes address types.now)) }
    ensures size { OnOk result (vec_len bytes.new ≡ vec_len bytes.old + 36) }
{
    put_address(bytes, address)?;
    put_words(bytes, &types.0)
}

fn put_symbol(bytes: &mut Vec<u8>, address: FcId, symbol: &[u8]) -> Result<(), AllocError>
    requires { IsSymbol symbol.now }
    ensures bytes { OnOk result (bytes.new.items ≡ bytes.old.items ++ spec.body_bytes
        (spec.SetSymbol address symbol.now)) }
    ensures size { OnOk result (vec_len bytes.new ≤ vec_len bytes.old + 260) }
{
    put_address(bytes, address)?;
    put_text(bytes, symbol)
}

fn put_feature(bytes: &mut Vec<u8>, address: FcId, feature: u8, kind: u8) -> Result<(), AllocError>
    ensures bytes { OnOk result (bytes.new.items ≡ bytes.old.items ++ spec.body_bytes
        (spec.SetFeature address feature kind)) }
    ensures size { OnOk result (vec_len bytes.new ≡ vec_len bytes.old + 8) }
{
    put_address(bytes, address)?;
    bytes.extend_from_slice(&[0, 0, feature, kind])
}

fn put_node_symbol(bytes: &mut Vec<u8>, name: Wwn, symbol: &[u8]) -> Result<(), AllocError>
    requires { IsSymbol symbol.now }
    ensures bytes { OnOk result (bytes.new.items ≡ bytes.old.items ++ spec.body_bytes
        (spec.SetNodeSymbol name symbol.now)) }
    ensures size { OnOk result (vec_len bytes.new ≤ vec_len bytes.old + 264) }
{
    put_name(bytes, name)?;
    put_text(bytes, symbol)
}
