//! Reading a body: the header, one walk over the descriptors for all messages, then the message's
//! fields.
ghost use Rattle.std.specs.Prelude.{◌≡◌, ◌<◌, ◌≤◌, ◌+◌, ◌*◌};
ghost use Rattle.std.specs.Prelude.{true, Some, None, Ok, Err, length, take, drop, MatchResult};
ghost use Rattle.std.specs.Prelude.{IfOk, IfErr, OnOk};
ghost use Rattle.fab_base.specs.Layout.{field, number};
ghost use Rattle.fip_codec.specs.Fip.{HEADER, Solicitation, Advertisement, Request, Reply};
ghost use Rattle.fip_codec.specs.Fip.{KeepAlive, ClearLinks, VlanRequest, VlanNotification};
ghost use Rattle.fip_codec.specs.Fip.{list_of, flags_of, has_flag};
ghost use Rattle.fip_codec.specs.Message.{view};
ghost use Rattle.fip_codec.specs.Reading.{decoded, decoded_list, fault_of, kind_of, IsFip};
ghost use Rattle.fip_codec.specs.Walk.{listed, are_sound, fault_at, lacks, told, has_type, said};
ghost use Rattle.fip_codec.specs.Table.{named, seen};

use crate::descriptor::{
    ADVERTISING, Descriptor, FABRIC, FDISC, FIRST_SKIPPED, FLOGI, LOGO, MAC, NAME, PRIORITY, SIZE,
    VX_PORT, content_of, cut, family, find, has, in_table, nth_of, vx_port, words_fit,
};
use crate::fault::FipFault;
use crate::kind::MessageKind;
use crate::lists::{VlanList, VxList};
use crate::message::{FipMessage, LoginKind};
use fab_base::fields::{mac_at, name_at, u16_at, u24_at, u32_at};
use fab_base::{Mac, Wwn};

/// The bytes before the list of descriptors.
pub(crate) const HEADER_LEN: usize = 10;

pub(crate) const FP: u16 = 0x8000;

pub(crate) const A: u16 = 4;

pub(crate) const S: u16 = 2;

pub(crate) const F: u16 = 1;

#[derive(Clone, Copy, Debug)]
struct Header<'a> {
    kind: MessageKind,
    flags: u16,
    list: &'a [u8],
}

#[tactic(auto, unfolding(crate::specs::Reading::decoded))]
fn read_header(body: &[u8]) -> Result<Header<'_>, FipFault>
    ensures cases { MatchResult result (λ h. decoded body.now ≡ decoded_list
        (named h.kind) body.now) (λ e. decoded body.now ≡ Err e) }
    ensures list { IfOk result (λ h. h.list.now ≡ list_of body.now) }
    ensures flags { IfOk result (λ h. h.flags ≡ flags_of body.now) }
    ensures small { IfOk result (λ h. length h.list.now ≤ 262140) }
{
    if body.len() < HEADER_LEN {
        return Err(FipFault::Short);
    }
    if body[0] / 16 != 1 {
        return Err(FipFault::Version);
    }
    let Some(kind) = MessageKind::of(u16_at(body, 2), body[5]) else {
        return Err(FipFault::Operation);
    };
    let len = 4 * u16_at(body, 6) as usize;
    if body.len() < HEADER_LEN + len {
        return Err(FipFault::ListLength);
    }
    Ok(Header {
        kind,
        flags: u16_at(body, 8),
        list: &body[HEADER_LEN..HEADER_LEN + len],
    })
}

/// The fault of a whole descriptor at a place of the body, these standing before it.
#[tactic(auto, unfolding(crate::specs::Walk::has_type))]
fn fault_of(kind: MessageKind, before: &[u8], at: u32, found: &Descriptor<'_>) -> Option<FipFault>
    requires { are_sound before.now ≡ true }
    ensures { result ≡ fault_of (named kind) (listed HEADER before.now) (seen at found.now) }
{
    if found.kind >= FIRST_SKIPPED {
        return None;
    }
    if !in_table(found.kind) {
        return Some(FipFault::Critical {
            at,
            kind: found.kind,
        });
    }
    if !words_fit(found.kind, found.words) {
        return Some(FipFault::DescLength { at });
    }
    if kind.stands_once(found.kind) && has(before, family(found.kind)) {
        return Some(FipFault::Double { at });
    }
    None
}

/// The descriptor at a place of the list, where nothing is wrong with it.
fn next(kind: MessageKind, list: &[u8], done: usize) -> Result<Descriptor<'_>, FipFault>
    requires small { length list.now ≤ 262140 }
    requires more { done < length list.now }
    requires sound { are_sound (take done list.now) ≡ true }
    ensures on { IfOk result (λ d. fault_at (named kind) list.now done ≡ fault_at
        (named kind) list.now (done + 4 * d.words)) }
    ensures sound { IfOk result (λ d. are_sound (take (done + 4 * d.words) list.now) ≡ true) }
    ensures size { IfOk result (λ d. (0 < d.words) × (done + 4 * d.words ≤ length list.now)) }
    ensures fault { IfErr result (λ e. fault_at (named kind) list.now done ≡ Some e) }
{
    let at = (HEADER_LEN + done) as u32;
    let (before, rest) = list.split_at(done);
    let Some((found, _)) = cut(rest) else {
        return Err(FipFault::DescLength { at });
    };
    match fault_of(kind, before, at, &found) {
        Some(fault) => Err(fault),
        None => Ok(found),
    }
}

/// The walk over a list, to the first fault.
fn walk(kind: MessageKind, list: &[u8]) -> Result<(), FipFault>
    requires { length list.now ≤ 262140 }
    ensures cases { MatchResult result (λ _. fault_at (named kind) list.now 0 ≡ None)
        (λ e. fault_at (named kind) list.now 0 ≡ Some e) }
    ensures sound { OnOk result (are_sound list.now ≡ true) }
{
    let mut done = 0;
    while done < list.len() {
        done += 4 * next(kind, list, done)?.words as usize;
    }
    Ok(())
}

/// The first required type that is absent.
fn missing(kind: MessageKind, list: &[u8]) -> Option<FipFault>
    requires { are_sound list.now ≡ true }
    ensures { result ≡ lacks (named kind) list.now }
{
    for wanted in kind.required() {
        if !has(list, *wanted) {
            return Some(FipFault::Missing { kind: *wanted });
        }
    }
    None
}

fn is_set(flags: u16, flag: u16) -> bool
    requires { 0 < flag }
    ensures { result ≡ has_flag flag flags }
{
    flags / flag % 2 == 1
}

fn mac_of(list: &[u8]) -> Mac
    requires sound { are_sound list.now ≡ true }
    requires there { has_type 2 list.now ≡ true }
    ensures { result ≡ field (said 2 list.now) 0 6 }
{
    mac_at(content_of(list, MAC), 0)
}

fn name_of(list: &[u8]) -> Wwn
    requires sound { are_sound list.now ≡ true }
    requires there { has_type 4 list.now ≡ true }
    ensures { result ≡ number (said 4 list.now) 2 8 }
{
    name_at(content_of(list, NAME), 2)
}

#[tactic(auto, unfolding(crate::specs::Walk::told, crate::specs::Walk::has_type, crate::specs::Walk::said))]
fn solicit(flags: u16, list: &[u8]) -> FipMessage<'_>
    requires sound { are_sound list.now ≡ true }
    requires whole { lacks Solicitation list.now ≡ None }
    ensures { view result ≡ told Solicitation flags list.now }
{
    FipMessage::Solicit {
        from_fcf: is_set(flags, F),
        fp: is_set(flags, FP),
        mac: mac_of(list),
        node: name_of(list),
        size: u16_at(content_of(list, SIZE), 0),
    }
}

#[tactic(auto, unfolding(crate::specs::Walk::told, crate::specs::Walk::has_type, crate::specs::Walk::said))]
fn advertise(flags: u16, list: &[u8]) -> FipMessage<'_>
    requires sound { are_sound list.now ≡ true }
    requires whole { lacks Advertisement list.now ≡ None }
    ensures { view result ≡ told Advertisement flags list.now }
{
    let fabric = content_of(list, FABRIC);
    let advertising = content_of(list, ADVERTISING);
    FipMessage::Advertise {
        solicited: is_set(flags, S),
        available: is_set(flags, A),
        from_fcf: is_set(flags, F),
        fp: is_set(flags, FP),
        priority: content_of(list, PRIORITY)[1],
        mac: mac_of(list),
        switch: name_of(list),
        map: u24_at(fabric, 3),
        fabric: name_at(fabric, 6),
        quiet: advertising[1] % 2 == 1,
        period: u32_at(advertising, 2),
    }
}

/// The kind of the encapsulated frame, and the frame without the two reserved bytes before it.
#[tactic(auto, unfolding(crate::specs::Walk::of_type, crate::specs::Walk::said))]
fn frame_of(list: &[u8]) -> (LoginKind, &[u8])
    requires sound { are_sound list.now ≡ true }
    requires there { has_type 7 list.now ≡ true }
    ensures kind { result.0 ≡ kind_of (listed HEADER list.now) }
    ensures frame { result.1.now ≡ drop 2 (said 7 list.now) }
{
    match nth_of(list, FLOGI, 0) {
        Some(found) => {
            let kind = match found.kind {
                FDISC => LoginKind::Fdisc,
                LOGO => LoginKind::Logo,
                _ => LoginKind::Flogi,
            };
            (kind, &found.content[2..])
        }
        None => unreachable!(),
    }
}

#[tactic(auto, unfolding(crate::specs::Walk::told, crate::specs::Walk::has_type, crate::specs::Walk::said))]
fn login(flags: u16, list: &[u8]) -> FipMessage<'_>
    requires sound { are_sound list.now ≡ true }
    requires whole { lacks Request list.now ≡ None }
    ensures { view result ≡ told Request flags list.now }
{
    let (kind, frame) = frame_of(list);
    FipMessage::Login {
        kind,
        fp: is_set(flags, FP),
        frame,
        mac: mac_of(list),
    }
}

#[tactic(auto, unfolding(crate::specs::Walk::told, crate::specs::Walk::has_type, crate::specs::Walk::said))]
fn login_reply(flags: u16, list: &[u8]) -> FipMessage<'_>
    requires sound { are_sound list.now ≡ true }
    requires whole { lacks Reply list.now ≡ None }
    ensures { view result ≡ told Reply flags list.now }
{
    let (kind, frame) = frame_of(list);
    let mac = match find(list, MAC) {
        Some(content) => Some(mac_at(content, 0)),
        None => None,
    };
    FipMessage::LoginReply {
        kind,
        fp: is_set(flags, FP),
        frame,
        mac,
    }
}

#[tactic(auto, unfolding(crate::specs::Walk::told, crate::specs::Walk::has_type, crate::specs::Walk::said))]
fn keep(list: &[u8]) -> FipMessage<'_>
    requires sound { are_sound list.now ≡ true }
    requires whole { lacks KeepAlive list.now ≡ None }
    ensures { view result ≡ told KeepAlive 0 list.now }
{
    let port = match find(list, VX_PORT) {
        Some(content) => Some(vx_port(content)),
        None => None,
    };
    FipMessage::Keep {
        mac: mac_of(list),
        port,
    }
}

#[tactic(auto, unfolding(crate::specs::Walk::told, crate::specs::Walk::has_type, crate::specs::Walk::said, crate::specs::Walk::listed))]
fn clear(list: &[u8]) -> FipMessage<'_>
    requires sound { are_sound list.now ≡ true }
    requires whole { lacks ClearLinks list.now ≡ None }
    ensures { view result ≡ told ClearLinks 0 list.now }
{
    FipMessage::Clear {
        mac: mac_of(list),
        switch: name_of(list),
        ports: VxList::of(list),
    }
}

#[tactic(auto, unfolding(crate::specs::Walk::told, crate::specs::Walk::has_type, crate::specs::Walk::said))]
fn vlan_ask(list: &[u8]) -> FipMessage<'_>
    requires sound { are_sound list.now ≡ true }
    requires whole { lacks VlanRequest list.now ≡ None }
    ensures { view result ≡ told VlanRequest 0 list.now }
{
    let node = match find(list, NAME) {
        Some(content) => Some(name_at(content, 2)),
        None => None,
    };
    FipMessage::VlanAsk {
        mac: mac_of(list),
        node,
    }
}

#[tactic(auto, unfolding(crate::specs::Walk::told, crate::specs::Walk::has_type, crate::specs::Walk::said, crate::specs::Walk::listed))]
fn vlan_tell(list: &[u8]) -> FipMessage<'_>
    requires sound { are_sound list.now ≡ true }
    requires whole { lacks VlanNotification list.now ≡ None }
    ensures { view result ≡ told VlanNotification 0 list.now }
{
    FipMessage::VlanTell {
        mac: mac_of(list),
        vlans: VlanList::of(list),
    }
}

/// The message of a list in which nothing is wrong.
#[tactic(auto, unfolding(crate::specs::Walk::told))]
fn message(kind: MessageKind, flags: u16, list: &[u8]) -> FipMessage<'_>
    requires sound { are_sound list.now ≡ true }
    requires whole { lacks (named kind) list.now ≡ None }
    ensures { view result ≡ told (named kind) flags list.now }
{
    match kind {
        MessageKind::Solicit => solicit(flags, list),
        MessageKind::Advertise => advertise(flags, list),
        MessageKind::Login => login(flags, list),
        MessageKind::LoginReply => login_reply(flags, list),
        MessageKind::Keep => keep(list),
        MessageKind::Clear => clear(list),
        MessageKind::VlanAsk => vlan_ask(list),
        MessageKind::VlanTell => vlan_tell(list),
    }
}

/// The message of a body, what stands after the Ethertype. Bytes behind the list are padding.
pub fn read_fip(body: &[u8]) -> Result<FipMessage<'_>, FipFault>
    ensures exact { MatchResult result (λ m. decoded body.now ≡ Ok (view m))
        (λ e. decoded body.now ≡ Err e) }
    ensures grammar { IfOk result (λ m. IsFip (view m) body.now) }
{
    let header = read_header(body)?;
    walk(header.kind, header.list)?;
    match missing(header.kind, header.list) {
        Some(fault) => Err(fault),
        None => Ok(message(header.kind, header.flags, header.list)),
    }
}
