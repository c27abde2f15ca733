//! The frames of a node and of its forwarder, as texts of hexadecimal digits.
use enode_core::Identity;
use fab_base::{Mac, Wwn};
use std::alloc::Global;
use std::test::Fail;

/// The node of these tests.
pub(crate) fn node() -> Identity {
    Identity {
        mac: Mac([0x00, 0x1b, 0x21, 0x00, 0x00, 0x0a]),
        name: Wwn(0x2000_001b_2100_000a),
        node: Wwn(0x1000_001b_2100_000a),
    }
}

/// An untagged VLAN request of the node to all forwarders.
pub(crate) const REQUEST: &str = "011018010002001b2100000a8914\
1000000400010002000002 02001b2100000a";

/// Its answer: VLAN 100.
pub(crate) const NOTIFICATION: &str = "001b2100000a00051e0000028914\
10000004000200030000 020200051e000002 0e010064";

/// A solicitation on that VLAN, for answers of 2,158 bytes.
pub(crate) const SOLICITATION: &str = "011018010002001b2100000a81000064 8914\
10000001000100068000 0202001b2100000a 040300001000001b2100000a 0601086e";

/// The advertisement that answers it: available, solicited, of a forwarder that grants MACs.
pub(crate) const ADVERTISEMENT: &str = "001b2100000a00051e00000281006064 8914\
100000010002000c8007 01010080 020200051e000002 04030000100000051e000002\
05040000000efc00100000051e000002 0c02000000001f40";

/// A FLOGI with exchange 1.
pub(crate) const FLOGI: &str = "00051e000002001b2100000a81000064 8914\
10000002000100268000 07240000\
22fffffe00000000012900000000000000 01ffff00000000\
0400000020200000800008400000000000000000 2000001b2100000a 1000001b2100000a\
0000000000000000000000000000000000000000000000000000000000000000\
80000000000000000000000000000000 00000000000000000000000000000000\
00000000000000000000000000000000 0202000000000000";

/// Its accept, with address 010100.
pub(crate) const ACCEPT: &str = "001b2100000a00051e00000281006064 8914\
10000002000200268000 07240000\
2301010000fffffe0198000000000000 0001ffff00000000\
0200000020200000300008400000271000000 7d0 200100051e000002 100000051e000002\
0000000000000000000000000000000000000000000000000000000000000000\
88000000000000000000000000000000 00000000000000000000000000000000\
00000000000000000000000000000000 02020efc00010100";

/// The node's keep alive.
const KEEP: &str = "00051e000002001b2100000a81000064 8914\
10000003000100020000 0202001b2100000a";

/// The keep alive of its N_Port.
const PORT_KEEP: &str = "00051e0000020efc00010100 81000064 8914\
10000003000100070000 0202001b2100000a 0b050efc00010100000101002000001b2100000a";

/// A clear link message that lists the node's grant, and one that lists nothing.
const CLEAR: &str = "001b2100000a00051e00000281006064 8914\
100000030002000a0000 020200051e000002 04030000100000051e000002\
0b050efc00010100000101002000001b2100000a";

const CLEAR_ALL: &str = "001b2100000a00051e00000281006064 8914\
10000003000200050000 020200051e000002 04030000100000051e000002";

/// Frames that differ from others in some bytes: the name, the frame that it differs from, and up
/// to six places, each with what stands there.
const CHANGED: &str = "\
notification_b notification 5 11
notification_all notification 0 1 1 16 2 24 3 1 5 1
notification_without notification 35 0
advertise_all advertisement 0 1 1 16 2 24 3 1 5 1 27 5
advertisement_vlan advertisement 15 101
advertisement_quiet advertisement 71 1
advertisement_short advertisement 74 0 75 249
advertisement_long advertisement 73 1 74 95 75 145
advertisement_slow advertisement 73 1 74 95 75 144
advertisement_named advertisement 39 3
advertisement_a advertisement 27 3
advertisement_s advertisement 27 5
advertisement_f advertisement 27 6
advertisement_fp advertisement 26 0
flogi2 flogi 49 2
accept2 accept 49 2
accept2_mac accept 49 2 179 1
accept2_b accept 49 2 5 11
accept2_from accept 49 2 11 3
accept2_vlan accept 49 2 15 101
clear_mac clear 55 1
clear_address clear 59 1
clear_name clear 67 11
clear_from clear 11 3
clear_vlan clear 15 101
clear_all_b clear_all 5 11";

/// The bytes of the frame of a name.
pub(crate) fn bytes_named(alloc: Global, name: &str) -> Result<Vec<u8>, Fail> {
    for line in CHANGED.lines() {
        let mut words = line.split_whitespace();
        if words.next() == Some(name) {
            let mut bytes = unchanged(alloc, words.next().ok_or("a frame")?)?;
            for _ in 0..6 {
                change(&mut bytes, words.next(), words.next());
            }
            return Ok(bytes);
        }
    }
    unchanged(alloc, name)
}

fn unchanged(alloc: Global, name: &str) -> Result<Vec<u8>, Fail> {
    match name {
        "request" => frame_of(alloc, REQUEST, 60),
        "notification" => frame_of(alloc, NOTIFICATION, 60),
        "solicitation" => frame_of(alloc, SOLICITATION, 60),
        "advertisement" => frame_of(alloc, ADVERTISEMENT, 2176),
        "flogi" => frame_of(alloc, FLOGI, 180),
        "accept" => frame_of(alloc, ACCEPT, 180),
        "keep" => frame_of(alloc, KEEP, 60),
        "port_keep" => frame_of(alloc, PORT_KEEP, 60),
        "clear" => frame_of(alloc, CLEAR, 68),
        "clear_all" => frame_of(alloc, CLEAR_ALL, 60),
        _ => Err("a frame".into()),
    }
}

// Puts a number at a place, where both are there.
fn change(bytes: &mut [u8], place: Option<&str>, value: Option<&str>) {
    if let (Some(place), Some(value)) = (place, value) {
        if let (Ok(place), Ok(value)) = (place.parse::<usize>(), value.parse::<u8>()) {
            if let Some(byte) = bytes.get_mut(place) {
                *byte = value;
            }
        }
    }
}

/// The bytes of a frame, with zeros behind them up to its length.
pub(crate) fn frame_of(alloc: Global, text: &str, length: usize) -> Result<Vec<u8>, Fail> {
    let mut bytes = Vec::new(alloc);
    let mut high = None;
    for digit in text.bytes() {
        let value = match digit {
            b'0'..=b'9' => digit - b'0',
            b'a'..=b'f' => digit - b'a' + 10,
            _ => continue,
        };
        match high {
            None => high = Some(value),
            Some(first) => {
                bytes.push(first << 4 | value)?;
                high = None;
            }
        }
    }
    for _ in bytes.len()..length {
        bytes.push(0)?;
    }
    Ok(bytes)
}
