//! Two captures in a depot whose fetches give a few bytes each, taken window by window.
ghost use Rattle.std.specs.Prelude.{◌≡◌, [], ◌∷◌, ◌^◌, ◌+◌, ◌<◌, ◌≤◌, length};
ghost use Rattle.window_records.specs.First.{IsFresh};
ghost use Rattle.window_records.specs.Ports.{AreReady, slots_of};

use crate::settings::settings;
use case_lines::OpenFiles;
use fab_base::{Bytes, Moment, NoMemory, PortNo};
use fab_config::Config;
use pcap_file::{Budget, Reader, write_head, write_record};
use std::alloc::Global;
use std::test::Fail;
use window_records::*;

// A capture with one byte at each of these moments.
fn capture(alloc: Global, moments: &[u32]) -> Result<Vec<u8>, NoMemory> {
    let mut out = Vec::new(alloc);
    write_head(alloc, &mut out)?;
    for moment in moments {
        write_record(alloc, Moment(u64::from(*moment)), &[1], &mut out)?;
    }
    Ok(out)
}

// One record as it comes: its window, its port and its moment.
type Come = (u64, usize, u64);

// The records of two captures as their windows come.
fn windows(
    alloc: Global,
    depot: &mut OpenFiles<'_>,
    config: &Config,
    first: Reader,
    second: Reader,
    budget: &mut Budget,
) -> Result<Vec<Come>, GatherFault>
    requires fresh { IsFresh first × IsFresh second }
    requires budget { (budget.old.bytes + 24 < 2 ^ 64) × (budget.old.frames < 2 ^ 64) }
{
    let mut ins = [
        Input {
            slot: 0,
            reader: first,
        },
        Input {
            slot: 1,
            reader: second,
        },
    ];
    let mut shelves = first_looks(alloc, depot, &mut ins, budget)?;
    all_windows(alloc, depot, config, &mut ins, &mut shelves, budget)
}

// The same behind the first looks.
fn all_windows(
    alloc: Global,
    depot: &mut OpenFiles<'_>,
    config: &Config,
    ins: &mut [Input],
    shelves: &mut [Shelf],
    budget: &mut Budget,
) -> Result<Vec<Come>, GatherFault>
    requires count { length shelves.old ≡ length ins.old }
    requires ports { length ins.old ≤ 64 }
    requires slots { slots_of ins.old ≡ 0 ∷ 1 ∷ [] }
    requires ready { AreReady config.now 0 ins.old shelves.old budget.old }
{
    // Law: the ports are ready for the next window, and it leaves fewer records; so the loop ends.
    looks_to_come();
    windows_move_on();
    let mut come = Vec::new(alloc);
    'windows: while let Some(window) = next_window(config, shelves) {
        take_windows(alloc, depot, config, window, ins, shelves, budget)?;
        put_down(window, shelves, &mut come)?;
    }
    Ok(come)
}

// Puts down what is on the shelves.
fn put_down(window: u64, shelves: &[Shelf], come: &mut Vec<Come>) -> Result<(), NoMemory> {
    for port in 0..shelves.len() {
        for record in &shelves[port].batch {
            come.push((window, port, record.moment.0))?;
        }
    }
    Ok(())
}

// The same of captures with these bytes, where so many fetches are made, and so many frames taken.
fn gathered(
    alloc: Global,
    first: &[u8],
    second: &[u8],
    fetches: u64,
    limits: (u64, u64),
) -> Result<Result<Vec<Come>, GatherFault>, Fail> {
    let config = settings(alloc);
    let mut depot = OpenFiles {
        first,
        second,
        step: 7,
        fetches: 8,
    };
    let mut budget = Budget {
        bytes: limits.0,
        frames: limits.1,
    };
    let one = Reader::open(&mut depot, 0, &mut budget)?;
    let two = Reader::open(&mut depot, 1, &mut budget)?;
    depot.fetches = fetches;
    Ok(windows(alloc, &mut depot, &config, one, two, &mut budget))
}

#[test]
fn windows_ascend_and_then_ports(rt: HostRuntime) -> Result<(), Fail> {
    let alloc = rt.alloc();
    let first = capture(alloc, &[5, 105, 130])?;
    let second = capture(alloc, &[150, 350])?;
    let come = gathered(alloc, &first, &second, 1000, (1000, 5))?
        .ok()
        .ok_or("stopped")?;
    let wanted = [
        (0, 0, 5),
        (100, 0, 105),
        (100, 0, 130),
        (100, 1, 150),
        (300, 1, 350),
    ];
    assert_eq!(rt; come.as_slice(), wanted.as_slice());
    Ok(())
}

#[test]
fn the_first_stop_ends_all(rt: HostRuntime) -> Result<(), Fail> {
    let alloc = rt.alloc();
    let first = capture(alloc, &[5, 105, 130])?;
    let second = capture(alloc, &[50, 350])?;
    let cut = &second[..second.len().saturating_sub(1)];
    let early = gathered(alloc, &first, cut, 1000, (1000, 5))?.err();
    let stop = GatherFault::Capture {
        port: PortNo::at(1),
        at: 41,
        why: CapWhy::Cut,
    };
    assert_eq!(rt; early, Some(stop));
    let few = gathered(alloc, &first, &second, 1000, (1000, 4))?.err();
    assert_eq!(rt; few, Some(GatherFault::Limit(LimitKind::Frames)));
    // 48 bytes are the heads' and 17 each record's: the first look stops, or a later window.
    for bytes in [60, 100] {
        let short = gathered(alloc, &first, &second, 1000, (bytes, 5))?.err();
        assert_eq!(rt; short, Some(GatherFault::Limit(LimitKind::Bytes)));
    }
    Ok(())
}

#[test]
fn each_fetch_fails_in_turn(rt: HostRuntime) -> Result<(), Fail> {
    let alloc = rt.alloc();
    let first = capture(alloc, &[5, 105, 130])?;
    let second = capture(alloc, &[50, 350])?;
    for fetches in 0..40 {
        match gathered(alloc, &first, &second, fetches, (1000, 5))? {
            Ok(come) => {
                assert!(rt; fetches > 10);
                assert_eq!(rt; come.len(), 5);
            }
            Err(fault) => assert_eq!(rt; fault, GatherFault::Read),
        }
    }
    Ok(())
}
