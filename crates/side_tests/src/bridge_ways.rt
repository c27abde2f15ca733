//! Frames one after another, and the way of each.
use crate::bridge_frames::caught_of;
use crate::faults::TextFault;
use fab_base::PortNo;
use fab_config::{Config, read_config};
use fip_snoop::{Snoop, SnoopRule, Way};
use std::alloc::Global;
use std::test::Fail;

// The forwarder, and the VLAN on which its hosts are.
const SETTINGS: &str = "fcf-mac 00:05:1e:00:00:02\nvlan 100\n";

// Each rule and each way once: the port, the frame, and its way, which is a port's number where it
// goes down to that one. A grant before any message of A reaches nobody.
const RULES: &str = "\
1 accept_a no-home
2 ask_a up
2 !flogi_a truncated
2 short eth-short
2 ipv6 ethertype
2 fip_bad fip-fault
2 data_bad fcoe-fault
2 data unbound
2 flogi_a up
2 data unbound
1 accept_a 2
2 data up
3 data unbound
2 data_other_source source
2 data_to_b dest
2 data_vlan vlan
1 data_down 2
1 data_down_other address
1 data_down_second unbound
1 data_down_by_b not-fcf
2 keep_a up
2 keep_vx up
2 keep_other_vx source
3 keep_vx unbound
3 keep_a moved
2 solicit_a up
2 solicit_by_forwarder role
2 advertise role
1 flogi_of_forwarder role
1 advertise all";

// Each rule on the side, and by the kind of frame, on which the table above doesn't have it.
const SIDES: &str = "\
2 ask_tagged_a up
2 ask_vlan vlan
2 solicit_vlan vlan
2 tell_a role
2 accept_a role
2 clear_a role
2 keep_to_b dest
1 tell_a 2
1 accept_a 2
2 keep_vx_mac source
1 !data_down truncated
1 short eth-short
1 ipv6 ethertype
1 fip_bad fip-fault
1 data_bad fcoe-fault
1 advertise_vlan vlan
1 data_down_vlan vlan
1 keep_a not-fcf
1 data not-fcf
1 keep_of_forwarder role
1 ask_of_forwarder role
1 solicit_of_forwarder role
1 data_down 2
2 data up";

// What ends a binding, and what doesn't. The grant of an FDISC stands beside that of the FLOGI,
// whose grant ends all before it; a clear that lists one MAC ends that one, and a clear of nothing
// all; an accept of a LOGO has fewer bytes than login parameters.
const ENDS: &str = "\
2 flogi_a up
1 accept_a 2
2 fdisc_a up
1 accept_second_a 2
2 data up
2 data_second up
1 clear_a 2
2 data unbound
2 data_second up
1 accept_a 2
2 data up
2 data_second unbound
1 accept_second_a 2
2 data_second up
1 clear_all_a 2
2 data unbound
2 data_second unbound
1 accept_a 2
1 logo_116 2
2 data up
1 logo_112 2
2 data unbound
1 accept_a 2
2 data up
1 logo_4 2
2 data unbound";

// A MAC that is granted to a second ENode is that one's at once, and a clear that goes to the first
// doesn't end it. An ENode without bindings may come on another port.
const TWO: &str = "\
2 flogi_a up
3 flogi_b up
1 accept_a 2
2 data up
1 accept_of_b 3
2 data unbound
3 data up
1 data_down 3
1 clear_a 2
3 data up
4 keep_a up
1 accept_a 4
4 data up
3 data unbound
2 keep_a moved";

fn rule_word(rule: SnoopRule) -> &'static str {
    match rule {
        SnoopRule::Truncated => "truncated",
        SnoopRule::EthShort => "eth-short",
        SnoopRule::Ethertype => "ethertype",
        SnoopRule::FipFault => "fip-fault",
        SnoopRule::FcoeFault => "fcoe-fault",
        SnoopRule::Vlan => "vlan",
        SnoopRule::Role => "role",
        SnoopRule::Dest => "dest",
        SnoopRule::Moved => "moved",
        SnoopRule::Unbound => "unbound",
        SnoopRule::Source => "source",
        SnoopRule::NotFcf => "not-fcf",
        SnoopRule::NoHome => "no-home",
        SnoopRule::Address => "address",
    }
}

fn port_of(word: &str) -> Option<PortNo> {
    match word.parse::<u32>() {
        Ok(number) => PortNo::new(number),
        Err(_) => None,
    }
}

fn is_called(way: &Way, word: &str) -> bool {
    match way {
        Way::Up => word == "up",
        Way::All => word == "all",
        Way::Down(to) => port_of(word) == Some(*to),
        Way::Dropped(rule) => word == rule_word(*rule),
    }
}

// Whether the frame of a line goes the way that the line says. Where memory is refused the frame
// is handed in again: the refusal may have changed nothing.
fn goes(alloc: Global, bridge: &mut Snoop, line: &str) -> Result<bool, TextFault> {
    let mut words = line.split_whitespace();
    let port = words.next().and_then(port_of).ok_or(TextFault::Text)?;
    let caught = caught_of(alloc, words.next().ok_or(TextFault::Text)?)?;
    let wanted = words.next().ok_or(TextFault::Text)?;
    if let Ok(way) = bridge.frame(alloc, port, &caught) {
        return Ok(is_called(&way, wanted));
    }
    match bridge.frame(alloc, port, &caught) {
        Ok(way) => Ok(is_called(&way, wanted)),
        Err(_) => Err(TextFault::Memory),
    }
}

// The first line whose frame goes another way, counted from 1; 0 where there is none.
fn first_wrong(alloc: Global, bridge: &mut Snoop, lines: &str) -> Result<usize, TextFault> {
    let mut number = 0usize;
    for line in lines.lines() {
        number = number.saturating_add(1);
        if !goes(alloc, bridge, line)? {
            return Ok(number);
        }
    }
    Ok(0)
}

fn first_wrong_of(alloc: Global, lines: &str) -> Result<usize, TextFault> {
    match read_config(alloc, SETTINGS.as_bytes()) {
        Ok(config) => first_wrong_under(alloc, &config, lines),
        Err(_) => Err(TextFault::Memory),
    }
}

fn first_wrong_under(alloc: Global, config: &Config, lines: &str) -> Result<usize, TextFault> {
    match Snoop::new(alloc, config) {
        Ok(mut bridge) => first_wrong(alloc, &mut bridge, lines),
        Err(_) => Err(TextFault::Memory),
    }
}

#[test]
fn frames_go_their_ways(rt: HostRuntime) -> Result<(), Fail> {
    assert_eq!(rt; first_wrong_of(rt.alloc(), RULES), Ok(0));
    assert_eq!(rt; first_wrong_of(rt.alloc(), SIDES), Ok(0));
    assert_eq!(rt; first_wrong_of(rt.alloc(), ENDS), Ok(0));
    assert_eq!(rt; first_wrong_of(rt.alloc(), TWO), Ok(0));
    Ok(())
}
