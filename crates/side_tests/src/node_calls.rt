//! One node, line by line: what it is given, what it sends, and where it stands then.
use crate::node_frames::{bytes_named, node};
use enode_core::{Node, Phase};
use fab_base::{Bytes, Caught, Moment};
use std::alloc::Global;
use std::test::Fail;

// Each line: the moment; a frame, `timer`, or `!` and a frame that was captured in part; what the
// node sends then; its phase, with the OX_ID where it logs in; and when its timer is due.
//
// What no rule covers does nothing: frames in part, to another node, on another VLAN, or of another
// stage. Each timer is made once. An accept of an older FLOGI brings nothing. Advertisements keep
// the node up until none was heard for more than two and a half periods.
const LOGIN: &str = "\
1050 !notification - asking 2000
1060 notification_b - asking 2000
1070 notification_all - asking 2000
1080 notification_without - asking 2000
1090 advertisement - asking 2000
2000 timer request asking 3000
2100 notification solicitation looking 3100
2150 notification - looking 3100
3100 timer solicitation looking 4100
3200 advertise_all - looking 4100
3210 advertisement_vlan - looking 4100
3220 advertisement_quiet - looking 4100
3230 advertisement_short - looking 4100
3240 advertisement_long - looking 4100
3250 advertisement_named - looking 4100
3260 advertisement_a - looking 4100
3270 advertisement_s - looking 4100
3280 advertisement_f - looking 4100
3290 advertisement_fp - looking 4100
3300 advertisement flogi logging1 5300
5300 timer flogi2 logging2 7300
5400 accept - logging2 7300
5410 accept2_mac - logging2 7300
5420 accept2_b - logging2 7300
5430 accept2_from - logging2 7300
5440 accept2_vlan - logging2 7300
5500 accept2 - up 13500
5600 accept2 - up 13500
13500 timer keep up 21500
21000 advertise_all - up 21500
21500 timer keep up 29500
29500 timer keep up 37500
37500 timer keep up 41001
41001 timer solicitation looking 42001";

// With a period of 90,000 both keep alives are due at once, the node's own first. A clear that
// lists another MAC, address or name, from another forwarder, on another VLAN or to another node
// ends nothing; one of its own does, or one of nothing.
const CLEARS: &str = "\
1100 notification solicitation looking 2100
1200 advertisement_slow flogi logging1 3200
1300 accept - up 91300
91300 timer keep+port_keep up 181300
91400 clear_mac - up 181300
91410 clear_address - up 181300
91420 clear_name - up 181300
91430 clear_from - up 181300
91440 clear_vlan - up 181300
91450 clear_all_b - up 181300
91500 clear solicitation looking 92500
91600 advertisement_slow flogi2 logging2 93600
91700 accept2 - up 181700
91800 clear_all solicitation looking 92800";

// The moments of the lines lie below this one.
const FAR: u64 = 1 << 40;

fn number(word: &str) -> Option<u64> {
    match word.parse::<u64>() {
        Ok(number) => Some(number),
        Err(_) => None,
    }
}

// The frame of a name; with `!` before the name it was captured in part.
fn caught_of(alloc: Global, name: &str) -> Result<Caught, Fail> {
    let (name, whole) = match name.strip_prefix("!") {
        Some(name) => (name, false),
        None => (name, true),
    };
    let bytes = Bytes::from_vec(bytes_named(alloc, name)?);
    Ok(Caught { bytes, whole })
}

// Hands in a frame. Where memory is refused it is handed in again: the refusal may have changed
// nothing.
fn hears(
    alloc: Global,
    node: &mut Node,
    now: u64,
    caught: &Caught,
    sent: &mut Vec<Bytes>,
) -> Result<bool, Fail> {
    if now > node.due().0 || now >= FAR {
        return Ok(false);
    }
    if node.frame(alloc, Moment(now), caught, sent).is_ok() {
        return Ok(true);
    }
    node.frame(alloc, Moment(now), caught, sent)?;
    Ok(true)
}

// Makes the timer that is due now, once more where memory is refused.
fn times_out(
    alloc: Global,
    node: &mut Node,
    now: u64,
    sent: &mut Vec<Bytes>,
) -> Result<bool, Fail> {
    if now != node.due().0 || now >= FAR {
        return Ok(false);
    }
    if node.timer(alloc, sent).is_ok() {
        return Ok(true);
    }
    node.timer(alloc, sent)?;
    Ok(true)
}

// The frames that a node sent are those of these names, with `+` between two; `-` is none.
fn are_named(alloc: Global, sent: &[Bytes], names: &str) -> Result<bool, Fail> {
    if names == "-" {
        return Ok(sent.len() == 0);
    }
    match names.split_once("+") {
        Some((first, second)) => {
            Ok(
                sent.len() == 2
                    && is_named(alloc, sent.get(0), first)?
                    && is_named(alloc, sent.get(1), second)?,
            )
        }
        None => Ok(sent.len() == 1 && is_named(alloc, sent.get(0), names)?),
    }
}

fn is_named(alloc: Global, frame: Option<&Bytes>, name: &str) -> Result<bool, Fail> {
    let bytes = bytes_named(alloc, name)?;
    match frame {
        Some(frame) => Ok(frame.view() == bytes.as_slice()),
        None => Ok(false),
    }
}

// The phase is given by this word; a node that is up has the address 010100 and its MAC.
fn is_phase(node: &Node, word: &str) -> bool {
    match node.phase() {
        Phase::Asking => word == "asking",
        Phase::Looking => word == "looking",
        Phase::Logging { ox } => match ox {
            1 => word == "logging1",
            2 => word == "logging2",
            _ => false,
        },
        Phase::Up { address, mac } => {
            word == "up"
                && address.value() == 0x01_0100
                && mac.0 == [0x0e, 0xfc, 0x00, 0x01, 0x01, 0x00]
        }
    }
}

/// What a line says.
#[derive(Clone, Copy)]
struct Line<'a> {
    now: u64,
    given: &'a str,
    sent: &'a str,
    phase: &'a str,
    due: u64,
}

fn line_of(text: &str) -> Option<Line<'_>> {
    let mut words = text.split_whitespace();
    let now = words.next().and_then(number)?;
    let given = words.next()?;
    let sent = words.next()?;
    let phase = words.next()?;
    let due = words.next().and_then(number)?;
    Some(Line {
        now,
        given,
        sent,
        phase,
        due,
    })
}

// Makes the timer, or hands in the frame, of a line.
fn is_given(
    alloc: Global,
    node: &mut Node,
    line: &Line<'_>,
    sent: &mut Vec<Bytes>,
) -> Result<bool, Fail> {
    if line.given == "timer" {
        return times_out(alloc, node, line.now, sent);
    }
    let caught = caught_of(alloc, line.given)?;
    hears(alloc, node, line.now, &caught, sent)
}

// Whether the node does what a line says.
fn does(alloc: Global, node: &mut Node, line: &Line<'_>) -> Result<bool, Fail> {
    let mut sent = Vec::new(alloc);
    if !is_given(alloc, node, line, &mut sent)? {
        return Ok(false);
    }
    if !is_phase(node, line.phase) || node.due().0 != line.due {
        return Ok(false);
    }
    are_named(alloc, &sent, line.sent)
}

// The first line that isn't so, counted from 1; 0 where all are.
fn first_wrong(alloc: Global, node: &mut Node, lines: &str) -> Result<usize, Fail> {
    let mut number = 0usize;
    for line in lines.lines() {
        number = number.saturating_add(1);
        let Some(line) = line_of(line) else {
            return Ok(number);
        };
        if !does(alloc, node, &line)? {
            return Ok(number);
        }
    }
    Ok(0)
}

// The same of a node that starts at 1000, which asks for VLANs at once.
fn first_wrong_of(alloc: Global, lines: &str) -> Result<usize, Fail> {
    let own = node();
    let mut sent = Vec::new(alloc);
    let mut node = Node::start(alloc, Moment(1000), own.mac, own.name, own.node, &mut sent)?;
    if !are_named(alloc, &sent, "request")? || node.due().0 != 2000 || !is_phase(&node, "asking") {
        return Ok(usize::MAX);
    }
    first_wrong(alloc, &mut node, lines)
}

#[test]
fn a_node_does_as_the_lines_say(rt: HostRuntime) -> Result<(), Fail> {
    let login = first_wrong_of(rt.alloc(), LOGIN)?;
    let clears = first_wrong_of(rt.alloc(), CLEARS)?;
    assert_eq!(rt; (login, clears), (0, 0));
    Ok(())
}
