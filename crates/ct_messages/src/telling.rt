//! From an answer to bytes.
ghost use Rattle.std.specs.Prelude.{◌≡◌, ◌+◌, ◌*◌, ◌%◌, ◌^◌, ◌<◌, ◌++◌, ◌==◌, if◌then◌else◌};
ghost use Rattle.std.specs.Prelude.{length, vec_len, IfOk, OnOk, OnErr};
ghost use Rattle.fab_base.specs.Layout.{zeros};
ghost use Rattle.ct_messages.specs.CanWrite.{CanTell, IsSymbol};
ghost use Rattle.ct_messages.specs.Answer as answer;

use crate::bytes::{preamble, put_address, put_marked, put_name, put_text, put_words, put_zeros};
use crate::ports::N_PORT;
use crate::{CtTell, Named, NamedList, NextPort, PREAMBLE};
use fab_base::{Bytes, IdList, NoMemory};
use std::alloc::{AllocError, Global};

/// The command of an accept, and of a reject.
const ACCEPT: u16 = 0x8002;

const REJECT: u16 = 0x8001;

/// The control byte of the last entry of a list.
const LAST: u8 = 0x80;

/// The class of service word of class 3, in its last byte.
const CLASS_3: u8 = 8;

/// Appends the answer; reserved bytes are 0. Where memory is refused, `out` is as it was.
pub fn write_tell(alloc: Global, tell: &CtTell, out: &mut Vec<u8>) -> Result<(), NoMemory>
    requires { CanTell tell.now }
    ensures ok { OnOk result (out.new.items ≡ out.old.items ++ answer.written tell.now) }
    ensures size { OnOk result (vec_len out.new ≡ vec_len out.old + answer.size_of tell.now) }
    ensures words { OnOk result (answer.size_of tell.now % 4 ≡ 0) }
    ensures err { OnErr result (out.new.items ≡ out.old.items) }
{
    let bytes = bytes_of(alloc, tell)?;
    out.extend_from_slice(&bytes)?;
    Ok(())
}

/// The bytes of an answer.
#[tactic(auto, unfolding(crate::specs::Answer::written))]
fn bytes_of(alloc: Global, tell: &CtTell) -> Result<Vec<u8>, AllocError>
    requires { CanTell tell.now }
    ensures bytes { IfOk result (λ v. v.items ≡ answer.written tell.now) }
    ensures size { IfOk result (λ v. vec_len v ≡ answer.size_of tell.now) }
{
    let mut bytes = Vec::with_capacity(alloc, size_of(tell))?;
    bytes.extend_from_slice(&head(tell))?;
    put_answer(&mut bytes, tell)?;
    Ok(bytes)
}

/// How many bytes an answer has, so that memory is asked for once.
fn size_of(tell: &CtTell) -> usize
    ensures { answer.size_of tell.now < 2 ^ 64 → result ≡ answer.size_of tell.now }
{
    match tell {
        CtTell::Done | CtTell::Reject { .. } => PREAMBLE,
        CtTell::Port(_) => PREAMBLE + 4,
        CtTell::Name(_) => PREAMBLE + 8,
        CtTell::Types(_) => PREAMBLE + 32,
        CtTell::Features(_) => PREAMBLE + 128,
        CtTell::Addresses(list) => list.len().saturating_mul(4).saturating_add(PREAMBLE),
        CtTell::Names(list) => list.len().saturating_mul(16).saturating_add(PREAMBLE),
        CtTell::Next(_) => PREAMBLE + 620,
    }
}

fn head(tell: &CtTell) -> [u8; 16]
    ensures { result ≡ answer.head_bytes tell.now }
{
    match tell {
        CtTell::Reject {
            reason,
            explanation,
        } => preamble(REJECT, *reason, *explanation),
        CtTell::Done
        | CtTell::Port(_)
        | CtTell::Name(_)
        | CtTell::Types(_)
        | CtTell::Features(_)
        | CtTell::Addresses(_)
        | CtTell::Names(_)
        | CtTell::Next(_) => preamble(ACCEPT, 0, 0),
    }
}

/// Appends what follows the preamble.
fn put_answer(bytes: &mut Vec<u8>, tell: &CtTell) -> Result<(), AllocError>
    requires { CanTell tell.now }
    ensures bytes { OnOk result (bytes.new.items ≡ bytes.old.items
        ++ answer.answer_bytes tell.now) }
    ensures size { OnOk result (vec_len bytes.new + 16
        ≡ vec_len bytes.old + answer.size_of tell.now) }
{
    match tell {
        CtTell::Done | CtTell::Reject { .. } => Ok(()),
        CtTell::Port(address) => put_address(bytes, *address),
        CtTell::Name(name) => put_name(bytes, *name),
        CtTell::Types(types) => put_words(bytes, &types.0),
        CtTell::Features(features) => put_words(bytes, &features.0),
        CtTell::Addresses(list) => put_addresses(bytes, list),
        CtTell::Names(list) => put_named(bytes, list),
        CtTell::Next(port) => put_next(bytes, port),
    }
}

/// The control byte of the entry at a place, in a list of that length.
fn control(index: usize, len: usize) -> u8
    requires { index < len }
    ensures { result ≡ (if index + 1 == len then 0x80 else 0) }
{
    if index + 1 == len { LAST } else { 0 }
}

fn put_addresses(bytes: &mut Vec<u8>, list: &IdList) -> Result<(), AllocError>
    ensures bytes { OnOk result (bytes.new.items ≡ bytes.old.items
        ++ answer.addresses_bytes list.now) }
    ensures size { OnOk result (vec_len bytes.new ≡ vec_len bytes.old + 4 * length list.now) }
{
    for index in 0..list.len() {
        let Some(address) = list.at(index) else {
            unreachable!();
        };
        put_marked(bytes, control(index, list.len()), *address)?;
    }
    Ok(())
}

/// An entry with its name.
fn put_entry(bytes: &mut Vec<u8>, mark: u8, entry: &Named) -> Result<(), AllocError>
    ensures bytes { OnOk result (bytes.new.items ≡ bytes.old.items
        ++ answer.named_entry mark entry.now) }
    ensures size { OnOk result (vec_len bytes.new ≡ vec_len bytes.old + 16) }
{
    put_marked(bytes, mark, entry.address)?;
    put_zeros(bytes, 4)?; // reserved
    put_name(bytes, entry.name)
}

fn put_named(bytes: &mut Vec<u8>, list: &NamedList) -> Result<(), AllocError>
    ensures bytes { OnOk result (bytes.new.items ≡ bytes.old.items ++ answer.named_bytes list.now) }
    ensures size { OnOk result (vec_len bytes.new ≡ vec_len bytes.old + 16 * length list.now) }
{
    for index in 0..list.len() {
        let Some(entry) = list.at(index) else {
            unreachable!();
        };
        put_entry(bytes, control(index, list.len()), entry)?;
    }
    Ok(())
}

/// A symbol behind its length, filled up with zeros.
fn put_symbol(bytes: &mut Vec<u8>, symbol: &Bytes) -> Result<(), AllocError>
    requires { IsSymbol symbol.now }
    ensures bytes { OnOk result (bytes.new.items ≡ bytes.old.items
        ++ answer.symbol_bytes symbol.now) }
    ensures size { OnOk result (vec_len bytes.new ≡ vec_len bytes.old + 256) }
{
    let symbol = symbol.view();
    put_text(bytes, symbol)?;
    put_zeros(bytes, 255 - symbol.len())
}

/// Address and names of the next port.
fn put_port(bytes: &mut Vec<u8>, port: &NextPort) -> Result<(), AllocError>
    requires symbol { IsSymbol port.now.symbol }
    requires node_symbol { IsSymbol port.now.node_symbol }
    ensures bytes { OnOk result (bytes.new.items ≡ bytes.old.items ++ answer.port_bytes port.now) }
    ensures size { OnOk result (vec_len bytes.new ≡ vec_len bytes.old + 532) }
{
    put_marked(bytes, N_PORT, port.address)?;
    put_name(bytes, port.port_name)?;
    put_symbol(bytes, &port.symbol)?;
    put_name(bytes, port.node_name)?;
    put_symbol(bytes, &port.node_symbol)
}

/// The other fields of the next port.
fn put_services(bytes: &mut Vec<u8>, port: &NextPort) -> Result<(), AllocError>
    ensures bytes { OnOk result (bytes.new.items ≡ bytes.old.items
        ++ answer.service_bytes port.now) }
    ensures size { OnOk result (vec_len bytes.new ≡ vec_len bytes.old + 88) }
{
    put_zeros(bytes, 24)?; // process associator, node IP
    bytes.extend_from_slice(&[0, 0, 0, CLASS_3])?;
    put_words(bytes, &port.types.0)?;
    put_zeros(bytes, 16)?; // port IP
    put_name(bytes, port.fabric_port)?;
    put_zeros(bytes, 4) // reserved, hard address
}

fn put_next(bytes: &mut Vec<u8>, port: &NextPort) -> Result<(), AllocError>
    requires symbol { IsSymbol port.now.symbol }
    requires node_symbol { IsSymbol port.now.node_symbol }
    ensures bytes { OnOk result (bytes.new.items ≡ bytes.old.items ++ answer.next_bytes port.now) }
    ensures size { OnOk result (vec_len bytes.new ≡ vec_len bytes.old + 620) }
{
    put_port(bytes, port)?;
    put_services(bytes, port)
}
