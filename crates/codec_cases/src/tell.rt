//! Answers of the name server (FC-GS-6), written of words.
ghost use Rattle.ct_messages.specs.CanWrite.{CanTell};
ghost use Rattle.std.specs.Prelude.{◌≤◌, length, IfOk};

use crate::keys;
use case_lines::{bytes_of, number_of, put, word_at};
use ct_messages::{CtTell, FeatureMap, Named, NamedList, NextPort, TypeMap, write_tell};
use fab_base::fields::{address_at, name_at, u32_at};
use fab_base::{Bytes, FcId, IdList, NoMemory, Wwn};
use std::alloc::{AllocError, Global};

pub(crate) fn tell(alloc: Global, line: &[u8], out: &mut Vec<u8>) -> Result<(), AllocError> {
    match tell_of(alloc, line, out) {
        Ok(()) => Ok(()),
        Err(NoMemory) => Err(AllocError),
    }
}

fn tell_of(alloc: Global, line: &[u8], out: &mut Vec<u8>) -> Result<(), NoMemory> {
    match word_at(line, 1) {
        b"done" => say(alloc, &CtTell::Done, out),
        b"port" => say_address(alloc, line, out),
        b"name" => say_name(alloc, line, out),
        b"types" => say_types(alloc, line, out),
        b"features" => say_features(alloc, line, out),
        b"addresses" => say_addresses(alloc, line, out),
        b"names" => say_names(alloc, line, out),
        b"next" => say_next(alloc, line, out),
        _ => say_reject(alloc, line, out),
    }
}

// The bytes of a word, or none where it says none.
fn bytes(alloc: Global, line: &[u8], index: usize) -> Vec<u8> {
    match bytes_of(alloc, word_at(line, index)) {
        Ok(bytes) => bytes,
        Err(_) => Vec::new(alloc),
    }
}

fn address(alloc: Global, line: &[u8], index: usize) -> Result<FcId, NoMemory> {
    let mut bytes = bytes(alloc, line, index);
    bytes.resize(3, 0)?;
    Ok(address_at(&bytes, 0))
}

fn name(alloc: Global, line: &[u8], index: usize) -> Result<Wwn, NoMemory> {
    let mut bytes = bytes(alloc, line, index);
    bytes.resize(8, 0)?;
    Ok(name_at(&bytes, 0))
}

// The word at a place of a map, and 0 behind its end.
fn word_of(bytes: &[u8], place: usize) -> u32 {
    match bytes.get(place.saturating_mul(4)..) {
        Some(rest) if rest.len() >= 4 => u32_at(rest, 0),
        _ => 0,
    }
}

fn types(alloc: Global, line: &[u8], index: usize) -> Result<TypeMap, NoMemory> {
    let bytes = bytes(alloc, line, index);
    let mut words = [0; 8];
    for (place, word) in words.iter_mut().enumerate() {
        *word = word_of(&bytes, place);
    }
    Ok(TypeMap(words))
}

fn features(alloc: Global, line: &[u8], index: usize) -> FeatureMap {
    let bytes = bytes(alloc, line, index);
    let mut words = [0; 32];
    for (place, word) in words.iter_mut().enumerate() {
        *word = word_of(&bytes, place);
    }
    FeatureMap(words)
}

fn say(alloc: Global, tell: &CtTell, out: &mut Vec<u8>) -> Result<(), NoMemory>
    requires { CanTell tell.now }
{
    let mut made = Vec::new(alloc);
    write_tell(alloc, tell, &mut made)?;
    keys::bytes(out, b"answer ", &made)?;
    put(out, b"\n")?;
    Ok(())
}

fn say_address(alloc: Global, line: &[u8], out: &mut Vec<u8>) -> Result<(), NoMemory> {
    let address = address(alloc, line, 2)?;
    say(alloc, &CtTell::Port(address), out)
}

fn say_name(alloc: Global, line: &[u8], out: &mut Vec<u8>) -> Result<(), NoMemory> {
    let name = name(alloc, line, 2)?;
    say(alloc, &CtTell::Name(name), out)
}

fn say_types(alloc: Global, line: &[u8], out: &mut Vec<u8>) -> Result<(), NoMemory> {
    let types = types(alloc, line, 2)?;
    say(alloc, &CtTell::Types(types), out)
}

// The map in an answer, and the features that it says.
fn say_features(alloc: Global, line: &[u8], out: &mut Vec<u8>) -> Result<(), NoMemory> {
    let map = features(alloc, line, 2);
    put(out, b"features=")?;
    for kind in 0..=255 {
        let feature = map.feature_of(kind);
        if feature > 0 {
            keys::number(out, b" ", u64::from(kind))?;
            keys::number(out, b"=", u64::from(feature))?;
        }
    }
    put(out, b"\n")?;
    say(alloc, &CtTell::Features(map), out)
}

// So many addresses from 010000 on.
fn say_addresses(alloc: Global, line: &[u8], out: &mut Vec<u8>) -> Result<(), NoMemory> {
    let mut list = IdList::new(alloc)?;
    let count = number_of(word_at(line, 2)).unwrap_or(0).min(65535);
    for index in 0..count as u32 {
        if let Some(address) = FcId::new(0x010000 + index) {
            list.push(alloc, address)?;
        }
    }
    if list.len() == 0 {
        put(out, b"refused: no address\n")?;
        return Ok(());
    }
    say(alloc, &CtTell::Addresses(list), out)
}

// Two addresses with their names.
fn say_names(alloc: Global, line: &[u8], out: &mut Vec<u8>) -> Result<(), NoMemory> {
    let mut list = NamedList::new(alloc)?;
    push_named(alloc, line, 2, &mut list)?;
    push_named(alloc, line, 4, &mut list)?;
    if list.len() == 0 {
        return Ok(());
    }
    say(alloc, &CtTell::Names(list), out)
}

// The address in a word, with the name in the word behind it.
fn push_named(
    alloc: Global,
    line: &[u8],
    index: usize,
    list: &mut NamedList,
) -> Result<(), NoMemory>
    requires { index ≤ 4 }
{
    let address = address(alloc, line, index)?;
    let name = name(alloc, line, index + 1)?;
    list.push(alloc, Named { address, name })
}

// A symbol: at most 255 bytes.
fn symbol(alloc: Global, line: &[u8], index: usize) -> Result<Bytes, NoMemory>
    ensures { IfOk result (λ symbol. length symbol ≤ 255) }
{
    let mut bytes = bytes(alloc, line, index);
    bytes.truncate(255);
    Ok(Bytes::from_vec(bytes))
}

// All that is known of a port: address, port name, symbol, node name, its symbol, types and the
// name of the fabric's port.
fn say_next(alloc: Global, line: &[u8], out: &mut Vec<u8>) -> Result<(), NoMemory> {
    let port = NextPort {
        address: address(alloc, line, 2)?,
        port_name: name(alloc, line, 3)?,
        symbol: symbol(alloc, line, 4)?,
        node_name: name(alloc, line, 5)?,
        node_symbol: symbol(alloc, line, 6)?,
        types: types(alloc, line, 7)?,
        fabric_port: name(alloc, line, 8)?,
    };
    say(alloc, &CtTell::Next(port), out)
}

fn say_reject(alloc: Global, line: &[u8], out: &mut Vec<u8>) -> Result<(), NoMemory> {
    let reason = number_of(word_at(line, 2)).unwrap_or(0).min(255) as u8;
    let explanation = number_of(word_at(line, 3)).unwrap_or(0).min(255) as u8;
    say(
        alloc,
        &CtTell::Reject {
            reason,
            explanation,
        },
        out,
    )
}
