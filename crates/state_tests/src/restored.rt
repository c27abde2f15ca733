//! A fabric that goes on from the example: who is live in it, and which address it grants.
use crate::seams::{CONFIG, COUNT, EXAMPLE, FIRST, replaced};
use fab_base::{Bytes, Caught, FcId, Moment, PortNo, Wwn};
use fab_config::{Config, read_config};
use fab_policy::Verdict;
use fab_state::{Seam, check_fit, read_seam};
use forward_core::Fabric;
use heard_frames::hear;
use std::alloc::Global;
use std::process::Abort;
use std::test::Fail;

/// A FLOGI of 00:1b:21:00:00:0a on VLAN 100, with the names 2000001b2100000a and 1000001b2100000a.
const FLOGI: [u8; 180] = [
    0, 5, 0x1e, 0, 0, 2, 0, 0x1b, 0x21, 0, 0, 0x0a, 0x81, 0, 0, 0x64, 0x89, 0x14, //
    0x10, 0, 0, 2, 0, 1, 0, 0x26, 0x80, 0, //
    7, 0x24, 0, 0, //
    0x22, 0xff, 0xff, 0xfe, 0, 0, 0, 0, 1, 0x29, 0, 0, 0, 0, 0, 0, 0, 1, 0xff, 0xff, 0, 0, 0, 0, //
    4, 0, 0, 0, 0x20, 0x20, 0, 0, 0x80, 0, 8, 0x40, 0, 0, 0, 0, 0, 0, 0, 0, //
    0x20, 0, 0, 0x1b, 0x21, 0, 0, 0x0a, 0x10, 0, 0, 0x1b, 0x21, 0, 0, 0x0a, //
    0, 0, 0, 0, 0, 0, 0, 0, 0, 0, 0, 0, 0, 0, 0, 0, //
    0, 0, 0, 0, 0, 0, 0, 0, 0, 0, 0, 0, 0, 0, 0, 0, //
    0x80, 0, 0, 0, 0, 0, 0, 0, 0, 0, 0, 0, 0, 0, 0, 0, //
    0, 0, 0, 0, 0, 0, 0, 0, 0, 0, 0, 0, 0, 0, 0, 0, //
    0, 0, 0, 0, 0, 0, 0, 0, 0, 0, 0, 0, 0, 0, 0, 0, //
    2, 2, 0, 0, 0, 0, 0, 0,
];

/// Where the MAC, the N_Port's name and the node's end in it, and where the N_Port's name begins.
const ENDS: [usize; 3] = [11, 83, 91];

const NAME: usize = 76;

// The forwarder of a text.
fn restored(alloc: Global, text: &str) -> Result<Fabric, Fail> {
    let config = read_config(alloc, CONFIG.as_bytes())?;
    let seam = read_seam(alloc, FIRST, COUNT, 2, text.as_bytes())?;
    Ok(gone_on(alloc, config, &seam).ok_or("a fabric")?)
}

fn gone_on(alloc: Global, config: Config, seam: &Seam) -> Option<Fabric> {
    match check_fit(&config, 2, seam) {
        Ok(()) => Fabric::restored(alloc, config, 2, seam).ok(),
        Err(_) => None,
    }
}

// What a fabric answers to the FLOGI of a node whose MAC and names end in this byte, on port 2.
fn flogi_answered(
    alloc: Global,
    fabric: &mut Fabric,
    last: u8,
    name: u8,
) -> Result<Option<Verdict>, Fail> {
    let mut frame = FLOGI;
    for place in ENDS {
        frame[place] = last;
    }
    frame[NAME] = name;
    let bytes = Bytes::copy(alloc, &frame)?;
    Ok(stepped(alloc, fabric, &Caught { bytes, whole: true }))
}

fn stepped(alloc: Global, fabric: &mut Fabric, caught: &Caught) -> Option<Verdict> {
    let Some(_clock) = fabric.clock() else {
        return None;
    };
    fabric
        .step(alloc, PortNo::at(1), 4705, &hear(caught), None)
        .ok()
}

#[test]
fn the_login_of_the_example_is_live(rt: HostRuntime) -> Result<(), Fail> {
    let fabric = restored(rt.alloc(), EXAMPLE)?;
    let address = FcId::new(0x010100).ok_or("an address")?;
    assert_eq!(rt; fabric.clock(), Some(Moment(1_783_036_800_100)));
    assert_eq!(rt; fabric.next_login(0), Some(address));
    assert_eq!(rt; fabric.next_login(0x010101), None);
    assert_eq!(rt; fabric.node_name(address), Some(Wwn(0x2000_001b_2100_000a)));
    assert_eq!(rt; fabric.watch(address), 1);
    Ok(())
}

#[test]
fn it_was_heard_when_the_example_says(rt: HostRuntime) -> Result<(), Fail> {
    let fabric = restored(rt.alloc(), EXAMPLE)?;
    let address = FcId::new(0x010100).ok_or("an address")?;
    let moments = (Moment(1_783_036_799_000), Moment(1_783_036_760_000));
    assert_eq!(rt; fabric.heard_at(address), Some(moments));
    Ok(())
}

// The last login of 010101 ended 10.1 seconds before, more than R_A_TOV.
#[test]
fn an_address_is_granted_to_another_after_a_while(rt: HostRuntime) -> Result<(), Fail> {
    let mut fabric = restored(rt.alloc(), EXAMPLE)?;
    let verdict = flogi_answered(rt.alloc(), &mut fabric, 0x0c, 0x20)?;
    let address = FcId::new(0x010101).ok_or("an address")?;
    assert_eq!(rt; verdict, Some(Verdict::Granted(address)));
    Ok(())
}

// It ended a second before.
#[test]
fn an_address_is_not_granted_to_another_at_once(rt: HostRuntime) -> Result<(), Fail> {
    let text = replaced(rt.alloc(), "1783036790000", "1783036799100")?;
    let mut fabric = restored(rt.alloc(), &text)?;
    let verdict = flogi_answered(rt.alloc(), &mut fabric, 0x0c, 0x20)?;
    let address = FcId::new(0x010102).ok_or("an address")?;
    assert_eq!(rt; verdict, Some(Verdict::Granted(address)));
    Ok(())
}

#[test]
fn an_n_port_gets_the_address_that_it_had_at_once(rt: HostRuntime) -> Result<(), Fail> {
    let text = replaced(rt.alloc(), "1783036790000", "1783036799100")?;
    let mut fabric = restored(rt.alloc(), &text)?;
    let verdict = flogi_answered(rt.alloc(), &mut fabric, 0x0b, 0x21)?;
    let address = FcId::new(0x010101).ok_or("an address")?;
    assert_eq!(rt; verdict, Some(Verdict::Granted(address)));
    Ok(())
}
