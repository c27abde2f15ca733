//! A node over a capture in a store, and what it leaves there.
use crate::node_frames::{
    ACCEPT, ADVERTISEMENT, FLOGI, NOTIFICATION, REQUEST, SOLICITATION, frame_of, node,
};
use enode_core::Phase;
use fab_base::{FcId, Mac, MemDepot, Moment, PortNo, word_at};
use pcap_file::{Budget, CapWhy, LimitKind};
use run_files::RunFault;
use side_runs::run_node;
use std::alloc::Global;
use std::process::Abort;
use std::test::Fail;

const HEAD: [u8; 24] = [
    0xd4, 0xc3, 0xb2, 0xa1, 2, 0, 4, 0, 0, 0, 0, 0, 0, 0, 0, 0, 255, 255, 0, 0, 1, 0, 0, 0,
];

const AMPLE: Budget = Budget {
    bytes: 1_000_000,
    frames: 100,
};

// A capture of frames at moments.
fn capture(alloc: Global, frames: &[(u64, &str, usize)]) -> Result<Vec<u8>, Fail> {
    let mut out = Vec::new(alloc);
    out.extend_from_slice(&HEAD)?;
    for (moment, text, length) in frames {
        let bytes = frame_of(alloc, text, *length)?;
        let stored = bytes.len() as u64;
        out.extend_from_slice(&(moment / 1000).to_le_bytes()[..4])?;
        out.extend_from_slice(&(moment % 1000 * 1000).to_le_bytes()[..4])?;
        out.extend_from_slice(&stored.to_le_bytes()[..4])?;
        out.extend_from_slice(&stored.to_le_bytes()[..4])?;
        out.extend_from_slice(&bytes)?;
    }
    Ok(out)
}

// What a run from 1000 on answers, over a store in which a call may fail, and what the output
// holds then, if it is there.
fn ran(
    rt: &impl Abort,
    alloc: Global,
    input: &[u8],
    budget: Budget,
    failing: Option<u64>,
) -> Result<(Result<Phase, RunFault>, Option<Vec<u8>>), Fail> {
    let mut depot = MemDepot::new(alloc)?;
    depot.store(alloc, "in", input)?;
    depot.know(alloc, "out")?;
    if let Some(number) = failing {
        depot.fail_call(alloc, number)?;
    }
    let mut words = Vec::new(alloc);
    for word in ["in", "out"] {
        words.push(String::from_str(alloc, word)?)?;
    }
    assert!(rt; depot.knows_all(&words));
    assert_eq!(rt; words.len(), 2);
    let from = word_at(&words, 0);
    let to = word_at(&words, 1);
    let answer = run_node(alloc, &mut depot, from, to, Moment(1000), node(), budget);
    match depot.content("out") {
        Some(bytes) => Ok((answer, Some(Vec::from_slice(alloc, bytes)?))),
        None => Ok((answer, None)),
    }
}

// The frames that bring the node up.
const ANSWERS: [(u64, &str, usize); 3] = [
    (1100, NOTIFICATION, 60),
    (1200, ADVERTISEMENT, 2176),
    (1300, ACCEPT, 162),
];

// A run answers this phase and leaves the capture of these frames.
fn leaves(
    rt: &impl Abort,
    alloc: Global,
    input: &[(u64, &str, usize)],
    phase: Phase,
    sent: &[(u64, &str, usize)],
) -> Result<(), Fail> {
    let (answer, output) = ran(rt, alloc, &capture(alloc, input)?, AMPLE, None)?;
    assert_eq!(rt; answer, Ok(phase));
    let output = output.ok_or("an output")?;
    assert_eq!(rt; output.as_slice(), capture(alloc, sent)?.as_slice());
    Ok(())
}

#[test]
fn a_run_leaves_what_the_node_sends(rt: HostRuntime) -> Result<(), Fail> {
    let alloc = rt.alloc();
    let asked = [(1000, REQUEST, 60)];
    leaves(&rt, alloc, &[], Phase::Asking, &asked)?;
    let up = Phase::Up {
        address: FcId::new(0x01_0100).ok_or("an address")?,
        mac: Mac([0x0e, 0xfc, 0x00, 0x01, 0x01, 0x00]),
    };
    let sent = [
        (1000, REQUEST, 60),
        (1100, SOLICITATION, 60),
        (1200, FLOGI, 162),
    ];
    leaves(&rt, alloc, &ANSWERS, up, &sent)?;
    // Before its start the node hears nothing, and a timer that is due comes before a record.
    let early = [(999, NOTIFICATION, 60)];
    leaves(&rt, alloc, &early, Phase::Asking, &asked)?;
    let late = [(2000, NOTIFICATION, 60)];
    let sent = [
        (1000, REQUEST, 60),
        (2000, REQUEST, 60),
        (2000, SOLICITATION, 60),
    ];
    leaves(&rt, alloc, &late, Phase::Looking, &sent)
}

// A run is refused, and no output is there.
fn is_refused(
    rt: &impl Abort,
    alloc: Global,
    input: &[u8],
    budget: Budget,
    fault: RunFault,
) -> Result<(), Fail> {
    let (answer, output) = ran(rt, alloc, input, budget, None)?;
    assert_eq!(rt; answer, Err(fault));
    assert!(rt; output.is_none());
    Ok(())
}

#[test]
fn captures_that_are_not_taken(rt: HostRuntime) -> Result<(), Fail> {
    let alloc = rt.alloc();
    let far = capture(alloc, &[(1000, KEPT, 60), (21_601_001, KEPT, 60)])?;
    is_refused(&rt, alloc, &far, AMPLE, RunFault::Limit(LimitKind::Span))?;
    let mut whole = capture(alloc, &ANSWERS)?;
    let port = PortNo::new(1).ok_or("a port")?;
    let cut = RunFault::Capture {
        port,
        at: 2292,
        why: CapWhy::Cut,
    };
    let few = Budget { frames: 2, ..AMPLE };
    is_refused(&rt, alloc, &whole, few, RunFault::Limit(LimitKind::Frames))?;
    let short = Budget {
        bytes: 2400,
        ..AMPLE
    };
    is_refused(&rt, alloc, &whole, short, RunFault::Limit(LimitKind::Bytes))?;
    whole.truncate(2400);
    is_refused(&rt, alloc, &whole, AMPLE, cut)
}

// A frame that says nothing to a node that asks.
const KEPT: &str = ACCEPT;

#[test]
fn each_call_of_a_store_fails(rt: HostRuntime) -> Result<(), Fail> {
    let alloc = rt.alloc();
    let input = capture(alloc, &ANSWERS)?;
    let (_, whole) = ran(&rt, alloc, &input, AMPLE, None)?;
    let whole = whole.ok_or("an output")?;
    let mut reads = 0u32;
    let mut writes = 0u32;
    for number in 0..1000 {
        let (answer, output) = ran(&rt, alloc, &input, AMPLE, Some(number))?;
        match answer {
            Err(RunFault::Read) => {
                reads = reads.saturating_add(1);
                assert!(rt; output.is_none());
            }
            Err(RunFault::Write) => {
                writes = writes.saturating_add(1);
                if let Some(part) = output {
                    assert!(rt; whole.starts_with(&part));
                }
            }
            _ => {
                assert!(rt; answer.is_ok());
                break;
            }
        }
    }
    assert!(rt; reads > 1 && writes > 1, "{reads} {writes}");
    Ok(())
}
