//! Requests to the name server (FC-GS-6): read, and written as they were read.
use crate::keys;
use case_lines::put;
use ct_messages::{CtAsk, TypeMap, read_ask, write_ask};
use fab_base::{FcId, NoMemory, Wwn};
use std::alloc::{AllocError, Global};

pub(crate) fn ct(alloc: Global, payload: &[u8], out: &mut Vec<u8>) -> Result<(), AllocError> {
    match read_ask(payload) {
        Ok(ask) => {
            say(&ask, out)?;
            let mut made = Vec::new(alloc);
            let _ = write(alloc, &ask, &mut made);
            keys::written(out, payload, &made)
        }
        Err(why) => keys::fault(alloc, out, why),
    }
}

fn say(ask: &CtAsk<'_>, out: &mut Vec<u8>) -> Result<(), AllocError> {
    match ask {
        CtAsk::NextOf(address) => keys::address(out, b"GA_NXT address=", address),
        CtAsk::PortNameOf(address) => keys::address(out, b"GPN_ID address=", address),
        CtAsk::NodeNameOf(address) => keys::address(out, b"GNN_ID address=", address),
        CtAsk::TypesOf(address) => keys::address(out, b"GFT_ID address=", address),
        CtAsk::FeaturesOf(address) => keys::address(out, b"GFF_ID address=", address),
        CtAsk::ByPortName(name) => keys::name(out, b"GID_PN port=", name),
        CtAsk::AddressesOfType(kind) => keys::number(out, b"GID_FT type=", u64::from(*kind)),
        CtAsk::PortNamesOfType(kind) => keys::number(out, b"GPN_FT type=", u64::from(*kind)),
        CtAsk::NodeNamesOfType(kind) => keys::number(out, b"GNN_FT type=", u64::from(*kind)),
        CtAsk::AddressesOfPortType(kind) => {
            keys::number(out, b"GID_PT port-type=", u64::from(*kind))
        }
        _ => say_registration(ask, out),
    }
}

fn say_registration(ask: &CtAsk<'_>, out: &mut Vec<u8>) -> Result<(), AllocError> {
    match ask {
        CtAsk::SetNode(address, name) => {
            keys::address(out, b"RNN_ID address=", address)?;
            keys::name(out, b" node=", name)
        }
        CtAsk::SetTypes(address, types) => {
            keys::address(out, b"RFT_ID address=", address)?;
            say_types(types, out)
        }
        CtAsk::SetSymbol(address, symbol) => {
            keys::address(out, b"RSPN_ID address=", address)?;
            keys::bytes(out, b" symbol=", symbol)
        }
        CtAsk::SetFeature {
            address,
            feature,
            kind,
        } => { say_feature(address, *feature, *kind, out) }
        CtAsk::SetNodeSymbol(name, symbol) => {
            keys::name(out, b"RSNN_NN node=", name)?;
            keys::bytes(out, b" symbol=", symbol)
        }
        CtAsk::Erase(address) => keys::address(out, b"DA_ID address=", address),
        CtAsk::Unknown(code) => keys::bytes(out, b"unknown code=", &code.to_be_bytes()),
        _ => Ok(()),
    }
}

fn say_feature(address: &FcId, feature: u8, kind: u8, out: &mut Vec<u8>) -> Result<(), AllocError> {
    keys::address(out, b"RFF_ID address=", address)?;
    keys::number(out, b" feature=", u64::from(feature))?;
    keys::number(out, b" type=", u64::from(kind))
}

/// The types of a map, and whether it has none.
pub(crate) fn say_types(types: &TypeMap, out: &mut Vec<u8>) -> Result<(), AllocError> {
    put(out, b" types=")?;
    for kind in 0..=255 {
        if types.has_type(kind) {
            keys::number(out, b",", u64::from(kind))?;
        }
    }
    keys::flag(out, b" zero=", types.is_zero())
}

// Writes a request as it was read. What no writer takes is left out.
fn write(alloc: Global, ask: &CtAsk<'_>, made: &mut Vec<u8>) -> Result<(), NoMemory> {
    match *ask {
        CtAsk::SetSymbol(address, symbol) => write_symbol(alloc, address, symbol, made),
        CtAsk::SetNodeSymbol(name, symbol) => write_node_symbol(alloc, name, symbol, made),
        CtAsk::SetFeature {
            address,
            feature,
            kind,
        } => { write_feature(alloc, address, feature, kind, made) }
        CtAsk::Unknown(_) => Ok(()),
        _ => write_ask(alloc, ask, made),
    }
}

fn write_symbol(
    alloc: Global,
    address: FcId,
    symbol: &[u8],
    made: &mut Vec<u8>,
) -> Result<(), NoMemory> {
    if symbol.len() > 255 {
        return Ok(());
    }
    write_ask(alloc, &CtAsk::SetSymbol(address, symbol), made)
}

fn write_node_symbol(
    alloc: Global,
    name: Wwn,
    symbol: &[u8],
    made: &mut Vec<u8>,
) -> Result<(), NoMemory> {
    if symbol.len() > 255 {
        return Ok(());
    }
    write_ask(alloc, &CtAsk::SetNodeSymbol(name, symbol), made)
}

fn write_feature(
    alloc: Global,
    address: FcId,
    feature: u8,
    kind: u8,
    made: &mut Vec<u8>,
) -> Result<(), NoMemory> {
    if feature > 15 {
        return Ok(());
    }
    write_ask(
        alloc,
        &CtAsk::SetFeature {
            address,
            feature,
            kind,
        },
        made,
    )
}
