//! The bytes of what is sent.
ghost use Rattle.std.specs.Prelude.{◌≡◌, ◌++◌, ◌≤◌, length, IsTrue, OnOk, OnErr};
ghost use Rattle.fab_sending.specs.Message.{bytes_of, can_go_on, can_send, frame_at, sent_on};

use crate::discovery::{write_advertisement, write_advertisement_to, write_notice_to};
use crate::fcoe::{write_ct, write_service_reply, write_state_change};
use crate::fip::{write_clear, write_login_accept, write_login_reply};
use crate::forwarding::write_forwarded;
use crate::{EventList, Out, OutMessage};
use fab_base::{FcId, NoMemory};
use fab_config::Config;
use fab_policy::Event;
use std::alloc::Global;

/// Appends the bytes of a frame that is sent, by the entries since the last drain.
pub fn write_out(
    alloc: Global,
    config: &Config,
    events: &EventList,
    out: &Out,
    into: &mut Vec<u8>,
) -> Result<(), NoMemory>
    requires { IsTrue (can_send events.now out.now.message) }
    ensures ok { OnOk result (
        into.new.items ≡ into.old.items ++ bytes_of config.now events.now out.now.message) }
    ensures size { OnOk result (
        length (bytes_of config.now events.now out.now.message) ≤ 65535) }
    ensures err { OnErr result (into.new.items ≡ into.old.items) }
{
    write_message(alloc, config, events, &out.message, into)
}

#[tactic(auto, unfolding(crate::specs::Message::bytes_of))]
fn write_message(
    alloc: Global,
    config: &Config,
    events: &EventList,
    message: &OutMessage,
    into: &mut Vec<u8>,
) -> Result<(), NoMemory>
    requires { IsTrue (can_send events.now message.now) }
    ensures ok { OnOk result (
        into.new.items ≡ into.old.items ++ bytes_of config.now events.now message.now) }
    ensures size { OnOk result (
        length (bytes_of config.now events.now message.now) ≤ 65535) }
    ensures err { OnErr result (into.new.items ≡ into.old.items) }
{
    match message {
        OutMessage::Vlans { to, untagged } => {
            write_notice_to(alloc, config, *to, *untagged, into)
        }
        OutMessage::Solicited { to, size } => {
            write_advertisement_to(alloc, config, *to, *size, into)
        }
        OutMessage::Advertisement => write_advertisement(alloc, config, into),
        OutMessage::LoginAccept {
            to,
            kind,
            port,
            several,
            address,
        } => write_login_accept(alloc, config, *to, *kind, *port, *several, *address, into),
        OutMessage::LoginReply { to, kind, answer } => {
            write_login_reply(alloc, config, *to, *kind, *answer, into)
        }
        OutMessage::ServiceReply { to, answer } => {
            write_service_reply(alloc, config, *to, *answer, into)
        }
        OutMessage::Ct {
            to,
            count,
            last,
            payload,
        } => write_ct(alloc, config, *to, *count, *last, payload.view(), into),
        OutMessage::Clear { to, ports } => write_clear(alloc, config, *to, ports.view(), into),
        OutMessage::Rscn {
            watcher,
            affected,
            ox_id,
        } => write_state_change(alloc, config, *watcher, *affected, *ox_id, into),
        OutMessage::Forwarded { entry, to } => {
            write_entry(alloc, config, events, *entry, *to, into)
        }
    }
}

// Appends the frame of an entry, which goes on.
fn write_entry(
    alloc: Global,
    config: &Config,
    events: &EventList,
    entry: usize,
    to: FcId,
    into: &mut Vec<u8>,
) -> Result<(), NoMemory>
    requires { IsTrue (can_go_on (frame_at entry events.now)) }
    ensures ok { OnOk result (
        into.new.items ≡ into.old.items ++ sent_on config.now to (frame_at entry events.now)) }
    ensures size { OnOk result (
        length (sent_on config.now to (frame_at entry events.now)) ≤ 65535) }
    ensures err { OnErr result (into.new.items ≡ into.old.items) }
{
    match events.at(entry) {
        Some(Event::Frame { caught, .. }) => {
            write_forwarded(alloc, config, to, caught.bytes.view(), into)
        }
        _ => unreachable!(),
    }
}
