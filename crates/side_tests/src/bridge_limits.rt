//! A limit that is too large for a case, tried small.
ghost use Rattle.std.specs.Prelude.{IsTrue};
ghost use Rattle.side_runs.specs.Sides.{AreDifferent};

use fab_base::{MemDepot, word_at};
use fab_config::read_config;
use pcap_file::{Budget, LimitKind};
use run_files::RunFault;
use side_runs::run_bridge;
use std::test::Fail;

const HEAD: [u8; 24] = [
    0xd4, 0xc3, 0xb2, 0xa1, 2, 0, 4, 0, 0, 0, 0, 0, 0, 0, 0, 0, 255, 255, 0, 0, 1, 0, 0, 0,
];

// Whether these are two different names.
fn are_two(sides: &[String]) -> bool
    ensures { IsTrue result → AreDifferent sides.now }
{
    sides.len() == 2 && word_at(sides, 0) != word_at(sides, 1)
}

// The capture of the forwarder's port alone is past the limit.
#[test]
fn captures_past_the_limit_on_bytes_are_not_taken(rt: HostRuntime) -> Result<(), Fail> {
    let alloc = rt.alloc();
    let config = read_config(alloc, b"fcf-mac 00:05:1e:00:00:02\nvlan 100\n")
        .ok()
        .ok_or("a configuration")?;
    let mut depot = MemDepot::new(alloc)?;
    depot.store(alloc, "in", &HEAD)?;
    depot.know(alloc, "out")?;
    let mut sides = Vec::new(alloc);
    for word in ["in", "out"] {
        sides.push(String::from_str(alloc, word)?)?;
    }
    assert!(rt; depot.knows_all(&sides));
    assert!(rt; are_two(&sides));
    assert_eq!(rt; sides.len(), 2);
    let short = Budget {
        bytes: 23,
        frames: 1,
    };
    let ended = run_bridge(alloc, &mut depot, &config, &sides, short);
    assert!(rt; matches!(ended, Err(RunFault::Limit(LimitKind::Bytes))));
    Ok(())
}
