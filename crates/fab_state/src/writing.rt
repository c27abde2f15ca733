//! Writing the text of a seam.
ghost use Rattle.std.specs.Prelude.{◌≡◌, ◌++◌, ◌∷◌, [], IfOk, OnOk, OnErr, flat_map, map, codes, decimal, Some};
ghost use Rattle.std.specs.Str.{bytes_eq};
ghost use Rattle.fab_base.specs.Texts.{hex, hex_bytes};
ghost use Rattle.ct_messages.specs.Server.{NO_FEATURES};
ghost use Rattle.fab_policy.specs.Text.{address_word, then_word};
ghost use Rattle.fab_pieces.specs.Seam as spec;
ghost use Rattle.fab_state.specs.Rows.{then_words, enode_words, values_words, person_words, heard_words};

use crate::{LivePort, NextList, Past, PastList, PortList, Seam, Values};
use ct_messages::TypeMap;
use fab_base::{Enode, FcId, Mac, Moment, NoMemory, Wwn, address_text, append_made, wwn_text};
use fab_config::octet_text;
use itoa::Buffer;
use std::alloc::{AllocError, Global};

/// Appends the text of a seam.
pub fn write_seam(alloc: Global, seam: &Seam, out: &mut Vec<u8>) -> Result<(), NoMemory>
    ensures ok { OnOk result (out.new.items ≡ out.old.items ++ spec.seam_text seam.now) }
    ensures err { OnErr result (out.new.items ≡ out.old.items) }
{
    append_made(alloc, text_of(alloc, seam), out)
}

fn text_of(alloc: Global, seam: &Seam) -> Result<Vec<u8>, AllocError>
    ensures { IfOk result (λ v. v.items ≡ spec.seam_text seam.now) }
{
    let mut text = Vec::new(alloc);
    write_head(seam, &mut text)?;
    write_counts(seam, &mut text)?;
    write_addresses(seam, &mut text)?;
    write_logins(seam, &mut text)?;
    Ok(text)
}

// The first five lines.
fn write_head(seam: &Seam, out: &mut Vec<u8>) -> Result<(), AllocError>
    ensures { OnOk result (
        out.new.items ≡ out.old.items ++ flat_map spec.row_text (spec.head_rows seam.now)) }
{
    write_format(out)?;
    write_clock(seam, out)?;
    write_advertised(seam, out)?;
    write_changes(seam, out)?;
    write_greatest(seam, out)
}

// ---- lines

fn write_format(out: &mut Vec<u8>) -> Result<(), AllocError>
    ensures { OnOk result (
        out.new.items ≡ out.old.items ++ spec.row_text (codes "state" ∷ codes "1" ∷ [])) }
{
    out.extend_from_slice(b"state 1\n")
}

fn write_clock(seam: &Seam, out: &mut Vec<u8>) -> Result<(), AllocError>
    ensures { OnOk result (out.new.items ≡ out.old.items
        ++ spec.row_text (codes "clock" ∷ spec.may_word seam.now.state.tables.clock)) }
{
    out.extend_from_slice(b"clock")?;
    end_with(seam.state.tables.clock, out)
}

fn write_advertised(seam: &Seam, out: &mut Vec<u8>) -> Result<(), AllocError>
    ensures { OnOk result (out.new.items ≡ out.old.items
        ++ spec.row_text (codes "advertised" ∷ spec.may_word seam.now.state.advertised)) }
{
    out.extend_from_slice(b"advertised")?;
    end_with(seam.state.advertised, out)
}

fn write_changes(seam: &Seam, out: &mut Vec<u8>) -> Result<(), AllocError>
    ensures { OnOk result (out.new.items ≡ out.old.items
        ++ spec.row_text (codes "changes" ∷ decimal seam.now.state.rscns ∷ [])) }
{
    out.extend_from_slice(b"changes")?;
    put_number(seam.state.rscns, out)?;
    out.extend_from_slice(b"\n")
}

fn write_greatest(seam: &Seam, out: &mut Vec<u8>) -> Result<(), AllocError>
    ensures { OnOk result (out.new.items ≡ out.old.items
        ++ spec.row_text (codes "greatest" ∷ decimal seam.now.greatest ∷ [])) }
{
    out.extend_from_slice(b"greatest")?;
    put_number(seam.greatest.0, out)?;
    out.extend_from_slice(b"\n")
}

fn write_next(port: u64, next: u64, out: &mut Vec<u8>) -> Result<(), AllocError>
    ensures { OnOk result (out.new.items
        ≡ out.old.items ++ spec.row_text (codes "port" ∷ decimal port ∷ decimal next ∷ [])) }
{
    out.extend_from_slice(b"port")?;
    put_number(port, out)?;
    put_number(next, out)?;
    out.extend_from_slice(b"\n")
}

// An address that this name had or has.
fn write_past(past: &Past, name: &Wwn, out: &mut Vec<u8>) -> Result<(), AllocError>
    ensures { OnOk result (
        out.new.items ≡ out.old.items ++ spec.row_text (spec.past_row past.now name.now)) }
{
    out.extend_from_slice(b"address")?;
    put_past(past, out)?;
    put_name(name, out)?;
    end_past(past, out)
}

fn put_past(past: &Past, out: &mut Vec<u8>) -> Result<(), AllocError>
    ensures { OnOk result (
        out.new.items ≡ out.old.items ++ then_word (address_word past.now.address)) }
{
    put_address(&past.address, out)
}

fn end_past(past: &Past, out: &mut Vec<u8>) -> Result<(), AllocError>
    ensures { OnOk result (
        out.new.items ≡ out.old.items ++ spec.rest_text (spec.may_word past.now.ended)) }
{
    end_with(past.ended, out)
}

fn write_login(port: &LivePort, out: &mut Vec<u8>) -> Result<(), AllocError>
    ensures { OnOk result (
        out.new.items ≡ out.old.items ++ spec.row_text (spec.login_row port.now)) }
{
    out.extend_from_slice(b"login")?;
    put_person(port, out)?;
    put_enode(port, out)?;
    put_heard(port, out)?;
    put_registered(port, out)?;
    end_login(port, out)
}

// ---- lists of lines

fn write_counts(seam: &Seam, out: &mut Vec<u8>) -> Result<(), AllocError>
    ensures { OnOk result (out.new.items
        ≡ out.old.items ++ flat_map spec.row_text (spec.port_rows 1 seam.now.nexts)) }
{
    write_nexts(&seam.nexts, out)
}

fn write_addresses(seam: &Seam, out: &mut Vec<u8>) -> Result<(), AllocError>
    ensures { OnOk result (out.new.items
        ≡ out.old.items ++ flat_map spec.row_text (spec.past_rows seam.now.state.tables.past)) }
{
    write_pasts(&seam.state.tables.past, out)
}

fn write_logins(seam: &Seam, out: &mut Vec<u8>) -> Result<(), AllocError>
    ensures { OnOk result (out.new.items ≡ out.old.items
        ++ flat_map spec.row_text (map spec.login_row seam.now.state.tables.ports)) }
{
    write_ports(&seam.state.tables.ports, out)
}

// Each port, from 1 on.
fn write_nexts(nexts: &NextList, out: &mut Vec<u8>) -> Result<(), AllocError>
    ensures { OnOk result (out.new.items
        ≡ out.old.items ++ flat_map spec.row_text (spec.port_rows 1 nexts.now)) }
{
    for (index, next) in nexts.items().iter().enumerate() {
        write_next(index as u64 + 1, *next, out)?;
    }
    Ok(())
}

// Each address that anybody had.
fn write_pasts(past: &PastList, out: &mut Vec<u8>) -> Result<(), AllocError>
    ensures { OnOk result (
        out.new.items ≡ out.old.items ++ flat_map spec.row_text (spec.past_rows past.now)) }
{
    for past in past.items() {
        write_had(past, out)?;
    }
    Ok(())
}

// The line of an address, if anybody had it.
fn write_had(past: &Past, out: &mut Vec<u8>) -> Result<(), AllocError>
    ensures { OnOk result (
        out.new.items ≡ out.old.items ++ flat_map spec.row_text (spec.past_rows (past.now ∷ []))) }
{
    match &past.name {
        Some(name) => write_past(past, name, out),
        None => Ok(()),
    }
}

fn write_ports(ports: &PortList, out: &mut Vec<u8>) -> Result<(), AllocError>
    ensures { OnOk result (
        out.new.items ≡ out.old.items ++ flat_map spec.row_text (map spec.login_row ports.now)) }
{
    for port in ports.items() {
        write_login(port, out)?;
    }
    Ok(())
}

// ---- the words of a login

// Address and names.
fn put_person(port: &LivePort, out: &mut Vec<u8>) -> Result<(), AllocError>
    ensures { OnOk result (out.new.items ≡ out.old.items ++ then_words (person_words port.now)) }
{
    put_own_address(port, out)?;
    put_own_name(port, out)?;
    put_node(port, out)
}

fn put_own_address(port: &LivePort, out: &mut Vec<u8>) -> Result<(), AllocError>
    ensures { OnOk result (
        out.new.items ≡ out.old.items ++ then_word (address_word port.now.address)) }
{
    put_address(&port.address, out)
}

fn put_own_name(port: &LivePort, out: &mut Vec<u8>) -> Result<(), AllocError>
    ensures { OnOk result (
        out.new.items ≡ out.old.items ++ then_word (spec.name_word port.now.name)) }
{
    put_name(&port.name, out)
}

fn put_node(port: &LivePort, out: &mut Vec<u8>) -> Result<(), AllocError>
    ensures { OnOk result (
        out.new.items ≡ out.old.items ++ then_word (spec.name_word port.now.node)) }
{
    put_name(&port.node, out)
}

// Port and MAC of the ENode.
fn put_enode(port: &LivePort, out: &mut Vec<u8>) -> Result<(), AllocError>
    ensures { OnOk result (
        out.new.items ≡ out.old.items ++ then_words (enode_words port.now.enode)) }
{
    put_words_of(&port.enode, out)
}

fn put_words_of(enode: &Enode, out: &mut Vec<u8>) -> Result<(), AllocError>
    ensures { OnOk result (out.new.items ≡ out.old.items ++ then_words (enode_words enode.now)) }
{
    put_number(u64::from(enode.port.value()), out)?;
    put_mac(&enode.mac, out)
}

fn put_mac(mac: &Mac, out: &mut Vec<u8>) -> Result<(), AllocError>
    ensures { OnOk result (
        out.new.items ≡ out.old.items ++ then_word (spec.bytes_word mac.now)) }
{
    put_bytes(&mac.0, out)
}

// When ENode and N_Port were last heard, and the function that is watched.
fn put_heard(port: &LivePort, out: &mut Vec<u8>) -> Result<(), AllocError>
    ensures { OnOk result (out.new.items ≡ out.old.items ++ then_words (heard_words port.now)) }
{
    put_number(port.node_heard.0, out)?;
    put_number(port.port_heard.0, out)?;
    put_number(u64::from(port.watch), out)
}

// What was registered.
fn put_registered(port: &LivePort, out: &mut Vec<u8>) -> Result<(), AllocError>
    ensures { OnOk result (
        out.new.items ≡ out.old.items ++ then_words (values_words port.now.values)) }
{
    put_values(&port.values, out)
}

fn end_login(port: &LivePort, out: &mut Vec<u8>) -> Result<(), AllocError>
    ensures { OnOk result (
        out.new.items ≡ out.old.items ++ spec.rest_text (spec.may_word port.now.server)) }
{
    end_with_size(port.server, out)
}

fn put_values(values: &Values, out: &mut Vec<u8>) -> Result<(), AllocError>
    ensures { OnOk result (out.new.items ≡ out.old.items ++ then_words (values_words values.now)) }
{
    put_registered_node(values, out)?;
    put_map(values, out)?;
    put_kinds(values, out)?;
    put_symbol(values, out)?;
    put_node_symbol(values, out)
}

fn put_registered_node(values: &Values, out: &mut Vec<u8>) -> Result<(), AllocError>
    ensures { OnOk result (
        out.new.items ≡ out.old.items ++ then_word (spec.name_word values.now.node_name)) }
{
    put_name(&values.node_name, out)
}

fn put_map(values: &Values, out: &mut Vec<u8>) -> Result<(), AllocError>
    ensures { OnOk result (
        out.new.items ≡ out.old.items ++ then_word (spec.types_word values.now.types)) }
{
    put_types(&values.types, out)
}

fn put_kinds(values: &Values, out: &mut Vec<u8>) -> Result<(), AllocError>
    ensures { OnOk result (
        out.new.items ≡ out.old.items ++ then_word (spec.features_word values.now.features)) }
{
    put_features(values.features.view(), out)
}

fn put_symbol(values: &Values, out: &mut Vec<u8>) -> Result<(), AllocError>
    ensures { OnOk result (
        out.new.items ≡ out.old.items ++ then_word (spec.bytes_word values.now.symbol)) }
{
    put_bytes(values.symbol.view(), out)
}

fn put_node_symbol(values: &Values, out: &mut Vec<u8>) -> Result<(), AllocError>
    ensures { OnOk result (
        out.new.items ≡ out.old.items ++ then_word (spec.bytes_word values.now.node_symbol)) }
{
    put_bytes(values.node_symbol.view(), out)
}

// ---- words

// The rest of a line that ends with a moment or without one.
fn end_with(moment: Option<Moment>, out: &mut Vec<u8>) -> Result<(), AllocError>
    ensures { OnOk result (
        out.new.items ≡ out.old.items ++ spec.rest_text (spec.may_word moment)) }
{
    if let Some(moment) = moment {
        put_number(moment.0, out)?;
    }
    out.extend_from_slice(b"\n")
}

// The same of a receive size.
fn end_with_size(size: Option<u16>, out: &mut Vec<u8>) -> Result<(), AllocError>
    ensures { OnOk result (out.new.items ≡ out.old.items ++ spec.rest_text (spec.may_word size)) }
{
    if let Some(size) = size {
        put_number(u64::from(size), out)?;
    }
    out.extend_from_slice(b"\n")
}

fn put_word(word: &[u8], out: &mut Vec<u8>) -> Result<(), AllocError>
    ensures { OnOk result (out.new.items ≡ out.old.items ++ then_word word.now) }
{
    out.extend_from_slice(b" ")?;
    out.extend_from_slice(word)
}

fn put_number(number: u64, out: &mut Vec<u8>) -> Result<(), AllocError>
    ensures { OnOk result (out.new.items ≡ out.old.items ++ then_word (decimal number)) }
{
    put_word(Buffer::new().format(number).as_bytes(), out)
}

fn put_address(address: &FcId, out: &mut Vec<u8>) -> Result<(), AllocError>
    ensures { OnOk result (
        out.new.items ≡ out.old.items ++ then_word (address_word address.now)) }
{
    put_word(&address_text(address), out)
}

fn put_name(name: &Wwn, out: &mut Vec<u8>) -> Result<(), AllocError>
    ensures { OnOk result (
        out.new.items ≡ out.old.items ++ then_word (spec.name_word name.now)) }
{
    put_word(&wwn_text(name), out)
}

// Bytes, and a dash for none.
fn put_bytes(bytes: &[u8], out: &mut Vec<u8>) -> Result<(), AllocError>
    ensures { OnOk result (
        out.new.items ≡ out.old.items ++ then_word (spec.bytes_word bytes.now)) }
{
    if bytes.is_empty() {
        return out.extend_from_slice(b" -");
    }
    out.extend_from_slice(b" ")?;
    put_digits(bytes, out)
}

// Two digits for each byte.
fn put_digits(bytes: &[u8], out: &mut Vec<u8>) -> Result<(), AllocError>
    ensures { OnOk result (out.new.items ≡ out.old.items ++ hex_bytes bytes.now) }
{
    for byte in bytes {
        out.extend_from_slice(&octet_text(*byte))?;
    }
    Ok(())
}

fn put_types(types: &TypeMap, out: &mut Vec<u8>) -> Result<(), AllocError>
    ensures { OnOk result (
        out.new.items ≡ out.old.items ++ then_word (spec.types_word types.now)) }
{
    out.extend_from_slice(b" ")?;
    put_types_words(types, out)
}

fn put_types_words(types: &TypeMap, out: &mut Vec<u8>) -> Result<(), AllocError>
    ensures { OnOk result (out.new.items ≡ out.old.items ++ spec.types_word types.now) }
{
    for word in &types.0 {
        put_digits_of(*word, out)?;
    }
    Ok(())
}

// The eight digits of a word.
fn put_digits_of(word: u32, out: &mut Vec<u8>) -> Result<(), AllocError>
    ensures { OnOk result (out.new.items ≡ out.old.items ++ hex 8 word) }
{
    put_digits(&word.to_be_bytes(), out)
}

// The features of all types, and a dash where there are none.
fn put_features(features: &[u8], out: &mut Vec<u8>) -> Result<(), AllocError>
    ensures { OnOk result (
        out.new.items ≡ out.old.items ++ then_word (spec.features_word features.now)) }
{
    if are_none(features) {
        put_bytes(&[], out)
    } else {
        put_bytes(features, out)
    }
}

#[tactic(auto, unfolding(ct_messages::specs::Server::NO_FEATURES))]
fn are_none(features: &[u8]) -> bool
    ensures { result ≡ bytes_eq features.now NO_FEATURES }
{
    let none = [0u8; 256];
    features == none.as_slice()
}
