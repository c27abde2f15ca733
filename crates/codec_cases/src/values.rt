//! Values, and what their readers and their texts say.
use crate::keys;
use case_lines::{number_of, put, put_line, word_at};
use fab_base::fields::{address_at, mac_at, name_at, u16_at, u24_at, u32_at};
use fab_base::{FcId, PortNo, address_text, mac_text, wwn_text};
use fab_config::{read_mac, read_name};
use fc_check::{crc_bytes, crc32};
use std::alloc::AllocError;

pub(crate) fn value(line: &[u8], held: &[u8], out: &mut Vec<u8>) -> Result<(), AllocError> {
    match word_at(line, 0) {
        b"bytes" => {
            keys::number(out, b"length=", held.len() as u64)?;
            keys::bytes(out, b" bytes=", held)?;
            put(out, b"\n")
        }
        b"crc" => {
            keys::bytes(out, b"crc=", &crc32(held).to_be_bytes())?;
            keys::bytes(out, b" in a frame=", &crc_bytes(crc32(held)))?;
            put(out, b"\n")
        }
        b"fields" => fields(held, number_of(word_at(line, 2)).unwrap_or(0), out),
        b"mac" => mac(word_at(line, 1), out),
        b"name" => name(word_at(line, 1), out),
        _ => value_of_number(line, out),
    }
}

fn mac(word: &[u8], out: &mut Vec<u8>) -> Result<(), AllocError> {
    match read_mac(word) {
        Some(mac) => put_line(out, &mac_text(&mac)),
        None => put(out, b"no MAC\n"),
    }
}

fn name(word: &[u8], out: &mut Vec<u8>) -> Result<(), AllocError> {
    match read_name(word) {
        Some(name) => put_line(out, &wwn_text(&name)),
        None => put(out, b"no name\n"),
    }
}

fn value_of_number(line: &[u8], out: &mut Vec<u8>) -> Result<(), AllocError> {
    let number = number_of(word_at(line, 1)).unwrap_or(0);
    match word_at(line, 0) {
        b"address" => address(number, out),
        b"port" => port(number, out),
        b"place" => place(number, out),
        _ => put(out, b"no such case\n"),
    }
}

fn address(number: u64, out: &mut Vec<u8>) -> Result<(), AllocError> {
    match FcId::new(number.min(0xffff_ffff) as u32) {
        Some(address) => {
            keys::number(out, b"value=", u64::from(address.value()))?;
            put(out, b" text=")?;
            put_line(out, &address_text(&address))
        }
        None => put(out, b"no address\n"),
    }
}

fn port(number: u64, out: &mut Vec<u8>) -> Result<(), AllocError> {
    match PortNo::new(number.min(0xffff_ffff) as u32) {
        Some(port) => {
            keys::number(out, b"port=", u64::from(port.value()))?;
            keys::number(out, b" place=", port.index() as u64)?;
            put(out, b"\n")
        }
        None => put(out, b"no port\n"),
    }
}

fn place(number: u64, out: &mut Vec<u8>) -> Result<(), AllocError> {
    if number > 63 {
        return put(out, b"no port\n");
    }
    let port = PortNo::at(number as usize);
    keys::number(out, b"port=", u64::from(port.value()))?;
    keys::number(out, b" place=", port.index() as u64)?;
    put(out, b"\n")
}

// What stands at a place of bytes, as each kind of field.
fn fields(bytes: &[u8], at: u64, out: &mut Vec<u8>) -> Result<(), AllocError> {
    if bytes.len() < 8 || at > bytes.len() as u64 - 8 {
        return put(out, b"refused: fewer than 8 bytes\n");
    }
    let at = at as usize;
    keys::number(out, b"u16=", u64::from(u16_at(bytes, at)))?;
    keys::number(out, b" u24=", u64::from(u24_at(bytes, at)))?;
    keys::number(out, b" u32=", u64::from(u32_at(bytes, at)))?;
    keys::address(out, b" address=", &address_at(bytes, at))?;
    keys::mac(out, b" mac=", &mac_at(bytes, at))?;
    keys::name(out, b" name=", &name_at(bytes, at))?;
    put(out, b"\n")
}
