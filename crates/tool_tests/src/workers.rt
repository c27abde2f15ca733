//! Two ports in one window, each with a worker of its own under gates that hold them.
use crate::counter::Counter;
use crate::inputs::{
    CONFIG, REQUEST, TWO_PORTS, assert_journal, concatenated, depot_of, ends_under,
};
use crate::watch::{Hold, Watch};
use std::alloc::Global;
use std::process::Abort;
use std::sync::Wait;
use std::test::Fail;
use std::thread::Threads;

// Both frames have passed, and neither waited in vain.
fn assert_met(rt: &impl Abort, gate: &Watch) {
    assert!(rt; gate.is_in_time());
    assert_eq!(rt; gate.bits(), 5);
}

// The ports have their frames in one order or the other.
fn assert_either(rt: &impl Abort, journal: Option<&[u8]>) {
    let one = b"journal 2\n1000 tick\n1000 1 0 vlans\n1000 2 0 vlans\n".as_slice();
    let other = b"journal 2\n1000 tick\n1000 2 0 vlans\n1000 1 0 vlans\n".as_slice();
    assert!(rt; journal == Some(one) || journal == Some(other));
}

#[test]
fn two_ports_at_once(rt: HostRuntime) -> Result<(), Fail> {
    let mut depot = depot_of(rt.alloc(), &CONFIG, &REQUEST, &REQUEST)?;
    let gate = Watch::new(Hold::Meeting);
    let wanted = (b"frames 2 entries 3\n".as_slice(), 0);
    ends_under(&rt, rt.alloc(), &TWO_PORTS, &mut depot, &gate, wanted)?;
    assert_met(&rt, &gate);
    assert_either(&rt, depot.depot.content("J"));
    Ok(())
}

// A FLOGI of 00:1b:21:00:00:0a on VLAN 100, at 1000 ms.
const LOGIN: [u8; 220] = [
    0xd4, 0xc3, 0xb2, 0xa1, 2, 0, 4, 0, 0, 0, 0, 0, 0, 0, 0, 0, 0xff, 0xff, 0, 0, 1, 0, 0, 0, //
    1, 0, 0, 0, 0, 0, 0, 0, 0xb4, 0, 0, 0, 0xb4, 0, 0, 0, //
    0, 5, 0x1e, 0, 0, 2, 0, 0x1b, 0x21, 0, 0, 0x0a, 0x81, 0, 0, 0x64, 0x89, 0x14, //
    0x10, 0, 0, 2, 0, 1, 0, 0x26, 0x80, 0, //
    7, 0x24, 0, 0, //
    0x22, 0xff, 0xff, 0xfe, 0, 0, 0, 0, 1, 0x29, 0, 0, 0, 0, 0, 0, 0, 1, 0xff, 0xff, 0, 0, 0, 0, //
    4, 0, 0, 0, 0x20, 0x20, 0, 0, 0x80, 0, 8, 0x40, 0, 0, 0, 0, 0, 0, 0, 0, //
    0x20, 0, 0, 0x1b, 0x21, 0, 0, 0x0a, 0x10, 0, 0, 0x1b, 0x21, 0, 0, 0x0a, //
    0, 0, 0, 0, 0, 0, 0, 0, 0, 0, 0, 0, 0, 0, 0, 0, //
    0, 0, 0, 0, 0, 0, 0, 0, 0, 0, 0, 0, 0, 0, 0, 0, //
    0x80, 0, 0, 0, 0, 0, 0, 0, 0, 0, 0, 0, 0, 0, 0, 0, //
    0, 0, 0, 0, 0, 0, 0, 0, 0, 0, 0, 0, 0, 0, 0, 0, //
    0, 0, 0, 0, 0, 0, 0, 0, 0, 0, 0, 0, 0, 0, 0, 0, //
    2, 2, 0, 0, 0, 0, 0, 0,
];

// A login and a VLAN request of a node on a port, in one window.
fn login_and_request(alloc: Global) -> Result<Vec<u8>, Fail> {
    let at_1010 = [1, 0, 0, 0, 0x10, 0x27, 0, 0];
    Ok(concatenated(alloc, &[&LOGIN, &at_1010, &REQUEST[32..]])?)
}

// The same of the node 00:1b:21:00:00:0b: its MAC and its names end otherwise.
fn of_other_node(alloc: Global) -> Result<Vec<u8>, Fail> {
    let mut capture = login_and_request(alloc)?;
    for place in [51, 123, 131, 247, 267] {
        match capture.get_mut(place) {
            Some(byte) => *byte = 0x0b,
            None => return Err("a place of the capture".into()),
        }
    }
    Ok(capture)
}

fn two_logins(alloc: Global) -> Result<Counter, Fail> {
    let first = login_and_request(alloc)?;
    let second = of_other_node(alloc)?;
    Ok(depot_of(alloc, &CONFIG, &first, &second)?)
}

// Nobody waited in vain, and the gate got these addresses.
fn assert_granted(rt: &impl Abort, gate: &Watch, addresses: [u64; 2]) {
    assert!(rt; gate.is_in_time());
    assert_eq!(rt; [gate.address(0), gate.address(1)], addresses);
}

// The order that a gate forces stands in the journal, and the gate gets the addresses.
fn is_forced<R: Threads + Wait + Sync + Abort>(
    rt: &R,
    alloc: Global,
    first: u32,
    journal: &str,
    addresses: [u64; 2],
) -> Result<(), Fail> {
    let mut depot = two_logins(alloc)?;
    let gate = Watch::new(Hold::Order(first));
    let wanted = (b"frames 4 entries 5\n".as_slice(), 0);
    ends_under(rt, alloc, &TWO_PORTS, &mut depot, &gate, wanted)?;
    assert_granted(rt, &gate, addresses);
    assert_journal(rt, &depot, journal);
    Ok(())
}

#[test]
fn first_of_the_other_port(rt: HostRuntime) -> Result<(), Fail> {
    let journal = "journal 2\n1000 tick\n1000 2 0 granted 010100\n\
        1000 1 0 granted 010101\n1000 1 1 vlans\n1000 2 1 vlans\n";
    is_forced(&rt, rt.alloc(), 2, journal, [0x010101, 0x010100])
}

#[test]
fn second_of_the_other_port(rt: HostRuntime) -> Result<(), Fail> {
    let journal = "journal 2\n1000 tick\n1000 1 0 granted 010100\n\
        1000 2 0 granted 010101\n1000 2 1 vlans\n1000 1 1 vlans\n";
    is_forced(&rt, rt.alloc(), 1, journal, [0x010100, 0x010101])
}
