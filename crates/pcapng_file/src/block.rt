//! The head of a block, and what blocks other than packets say.
ghost use Rattle.std.specs.Prelude.{◌≡◌, ◌≤◌, ◌<◌, ◌+◌, ◌%◌, ◌^◌, length, IfOk};
ghost use Rattle.pcapng_file.specs.Block.{kind_of, order_of, magic_of, named, least, head_read};
ghost use Rattle.pcapng_file.specs.Block.{is_header, interface_read, version_read};

use crate::fault::NgWhy;
use crate::options::read_options;
use pcap_file::{half_at, number_at};

pub(crate) const HEAD: usize = 12;

const SECTION: u32 = 0x0a0d_0d0a;

const MAGIC: u32 = 0x1a2b_3c4d;

#[derive(Clone, Copy, Debug, PartialEq, Eq)]
pub(crate) enum Kind {
    Section,
    Interface,
    Packet,
    Simple,
    Other,
}

// What the first 12 bytes of a block say.
#[derive(Clone, Copy, Debug)]
pub(crate) struct Head {
    pub(crate) kind: Kind,
    pub(crate) big: bool,
    pub(crate) size: u32,
}

// An interface of a section: its link type, the unit of its times as a power of 10 or with the top
// bit set of 2, and whether its times are offset.
#[derive(Clone, Copy, Debug, PartialEq, Eq)]
pub(crate) struct Interface {
    pub(crate) link: u16,
    pub(crate) resolution: u8,
    pub(crate) offset: bool,
}

// The head of a block, or the first fault in it.
#[tactic(auto, unfolding(crate::specs::Block::head_read))]
pub(crate) fn read_head(order: Option<bool>, bytes: &[u8]) -> Result<Head, NgWhy>
    requires { 12 ≤ length bytes.now }
    ensures exact { result ≡ head_read order bytes.now }
    ensures least { IfOk result (λ h. (12 ≤ least h.kind) × (least h.kind ≤ h.size)) }
    ensures fourths { IfOk result (λ h. h.size % 4 ≡ 0) }
{
    let header = is_header(bytes);
    if order.is_none() && !header {
        return Err(NgWhy::Section);
    }
    if header && magic_of(bytes).is_none() {
        return Err(NgWhy::Order);
    }
    let big = order_of(order, bytes);
    let kind = kind_of(order, bytes);
    let size = number_at(big, bytes, 4);
    if size % 4 != 0 || size < least(kind) {
        return Err(NgWhy::Length);
    }
    Ok(Head { kind, big, size })
}

fn is_header(bytes: &[u8]) -> bool
    requires { 12 ≤ length bytes.now }
    ensures { result ≡ is_header bytes.now }
{
    number_at(false, bytes, 0) == SECTION
}

// The byte order that the magic of a section header gives.
fn magic_of(bytes: &[u8]) -> Option<bool>
    requires { 12 ≤ length bytes.now }
    ensures { result ≡ magic_of bytes.now }
{
    if number_at(false, bytes, 8) == MAGIC {
        return Some(false);
    }
    if number_at(true, bytes, 8) == MAGIC {
        return Some(true);
    }
    None
}

// Whether the numbers of a block are big-endian.
fn order_of(order: Option<bool>, bytes: &[u8]) -> bool
    requires { 12 ≤ length bytes.now }
    ensures { result ≡ order_of order bytes.now }
{
    if is_header(bytes) {
        return magic_of(bytes).unwrap_or(false);
    }
    order.unwrap_or(false)
}

fn kind_of(order: Option<bool>, bytes: &[u8]) -> Kind
    requires { 12 ≤ length bytes.now }
    ensures { result ≡ kind_of order bytes.now }
{
    if is_header(bytes) {
        return Kind::Section;
    }
    named(number_at(order_of(order, bytes), bytes, 0))
}

fn named(code: u32) -> Kind
    ensures { result ≡ named code }
{
    match code {
        1 => Kind::Interface,
        6 => Kind::Packet,
        3 => Kind::Simple,
        _ => Kind::Other,
    }
}

fn least(kind: Kind) -> u32
    ensures value { result ≡ least kind }
    ensures bound { 12 ≤ result }
{
    match kind {
        Kind::Section => 28,
        Kind::Interface => 20,
        Kind::Packet => 32,
        Kind::Simple | Kind::Other => 12,
    }
}

// Whether a section has the version that is read.
pub(crate) fn is_version(big: bool, block: &[u8]) -> bool
    requires { 28 ≤ length block.now }
    ensures { result ≡ version_read big block.now }
{
    half_at(big, block, 12) == 1
}

// The interface that a block describes, or none where an option passes the block.
pub(crate) fn read_interface(big: bool, block: &[u8]) -> Option<Interface>
    requires { 20 ≤ length block.now }
    ensures { result ≡ interface_read big block.now }
{
    let told = read_options(big, &block[16..block.len() - 4])?;
    Some(Interface {
        link: half_at(big, block, 8),
        resolution: told.resolution.unwrap_or(6),
        offset: told.offset,
    })
}
