//! What is printed of a live N_Port, a line or two.
ghost use Rattle.std.specs.Prelude.{◌≡◌, ◌++◌, decimal, IfOk, OnOk, OnErr};
ghost use Rattle.fab_replay.specs.Rows.{after_space, login_line, types_line, row_lines};
ghost use Rattle.fab_replay.specs.Rows.{name_words, enode_words, number_words, map_digits};
ghost use Rattle.fab_replay.specs.Rows.{address_digits, name_digits, mac_digits, word_digits};

use ct_messages::TypeMap;
use fab_base::{
    Enode, FcId, Mac, Moment, NoMemory, Wwn, address_text, append_made, mac_text, wwn_text,
};
use itoa::Buffer;
use std::alloc::{AllocError, Global};

/// Room for both lines, so that their memory is asked for once.
const ROOM: usize = 256;

/// What is printed of a live N_Port.
#[derive(Clone, Copy, Debug, PartialEq, Eq)]
pub struct Row {
    pub address: FcId,
    pub name: Wwn,
    /// The registered node name.
    pub node_name: Wwn,
    pub enode: Enode,
    /// When its ENode was last heard.
    pub node_heard: Moment,
    /// When itself was last heard.
    pub port_heard: Moment,
    /// The receive size at the name server in bytes, 0 without a login to it.
    pub size: u16,
    /// The function with which it asked for state changes, 0 where it didn't.
    pub watch: u8,
    /// The registered FC-4 types.
    pub types: TypeMap,
}

/// Appends the lines of a row.
pub fn write_row(alloc: Global, row: &Row, out: &mut Vec<u8>) -> Result<(), NoMemory>
    ensures ok { OnOk result (out.new.items ≡ out.old.items ++ row_lines row.now) }
    ensures err { OnErr result (out.new.items ≡ out.old.items) }
{
    append_made(alloc, lines_of(alloc, row), out)
}

fn lines_of(alloc: Global, row: &Row) -> Result<Vec<u8>, AllocError>
    ensures { IfOk result (λ v. v.items ≡ row_lines row.now) }
{
    let mut lines = Vec::with_capacity(alloc, ROOM)?;
    write_login(row, &mut lines)?;
    write_types(row, &mut lines)?;
    Ok(lines)
}

fn write_login(row: &Row, line: &mut Vec<u8>) -> Result<(), AllocError>
    ensures { OnOk result (line.new.items ≡ line.old.items ++ login_line row.now) }
{
    line.extend_from_slice(b"login")?;
    write_names(row, line)?;
    write_enode(&row.enode, line)?;
    write_numbers(row, line)?;
    line.extend_from_slice(b"\n")
}

fn write_names(row: &Row, line: &mut Vec<u8>) -> Result<(), AllocError>
    ensures { OnOk result (line.new.items ≡ line.old.items ++ name_words row.now) }
{
    write_address(&row.address, line)?;
    write_name(&row.name, line)?;
    write_name(&row.node_name, line)
}

fn write_enode(enode: &Enode, line: &mut Vec<u8>) -> Result<(), AllocError>
    ensures { OnOk result (line.new.items ≡ line.old.items ++ enode_words enode.now) }
{
    write_number(u64::from(enode.port.value()), line)?;
    write_mac(&enode.mac, line)
}

fn write_numbers(row: &Row, line: &mut Vec<u8>) -> Result<(), AllocError>
    ensures { OnOk result (line.new.items ≡ line.old.items ++ number_words row.now) }
{
    write_number(row.node_heard.0, line)?;
    write_number(row.port_heard.0, line)?;
    write_number(u64::from(row.size), line)?;
    write_number(u64::from(row.watch), line)
}

// The line of the types, if there are any.
fn write_types(row: &Row, line: &mut Vec<u8>) -> Result<(), AllocError>
    ensures { OnOk result (line.new.items ≡ line.old.items ++ types_line row.now) }
{
    if row.types.is_zero() {
        return Ok(());
    }
    line.extend_from_slice(b"types")?;
    write_address(&row.address, line)?;
    line.extend_from_slice(b" ")?;
    write_map(&row.types, line)?;
    line.extend_from_slice(b"\n")
}

// The digits of a map, word by word.
fn write_map(types: &TypeMap, line: &mut Vec<u8>) -> Result<(), AllocError>
    ensures { OnOk result (line.new.items ≡ line.old.items ++ map_digits types.now) }
{
    for word in &types.0 {
        line.extend_from_slice(&word_text(*word))?;
    }
    Ok(())
}

#[tactic(auto, unfolding(crate::specs::Rows::address_digits))]
fn write_address(address: &FcId, line: &mut Vec<u8>) -> Result<(), AllocError>
    ensures { OnOk result (
        line.new.items ≡ line.old.items ++ after_space (address_digits address.now)) }
{
    write_word(&address_text(address), line)
}

#[tactic(auto, unfolding(crate::specs::Rows::name_digits))]
fn write_name(name: &Wwn, line: &mut Vec<u8>) -> Result<(), AllocError>
    ensures { OnOk result (line.new.items ≡ line.old.items ++ after_space (name_digits name.now)) }
{
    write_word(&wwn_text(name), line)
}

#[tactic(auto, unfolding(crate::specs::Rows::mac_digits))]
fn write_mac(mac: &Mac, line: &mut Vec<u8>) -> Result<(), AllocError>
    ensures { OnOk result (line.new.items ≡ line.old.items ++ after_space (mac_digits mac.now)) }
{
    write_word(&mac_text(mac), line)
}

// The eight digits of a word.
fn word_text(word: u32) -> [u8; 8]
    ensures { result ≡ word_digits word }
{
    let mut text = [0; 8];
    hex::encode_to_slice(&word.to_be_bytes(), &mut text).unwrap();
    text
}

fn write_number(number: u64, line: &mut Vec<u8>) -> Result<(), AllocError>
    ensures { OnOk result (line.new.items ≡ line.old.items ++ after_space (decimal number)) }
{
    write_word(Buffer::new().format(number).as_bytes(), line)
}

// A word after a space.
fn write_word(word: &[u8], line: &mut Vec<u8>) -> Result<(), AllocError>
    ensures { OnOk result (line.new.items ≡ line.old.items ++ after_space word.now) }
{
    line.extend_from_slice(b" ")?;
    line.extend_from_slice(word)
}
