//! Two passes take turns with one fabric, in one thread.
ghost use Rattle.std.specs.Prelude.{◌≡◌, IfSome, IsNone, IsSome, true};
ghost use Rattle.fab_shared.specs.Shared.{opened};
ghost use Rattle.fabric_tests.specs.Passes.{IsOf, IsSplit};

use crate::settings::settings;
use fab_base::{Bytes, Caught, Moment, NoMemory, PortNo};
use fab_policy::{Event, Verdict};
use fab_shared::{Pass, SharedFabric};
use forward_core::{EventList, Fabric};
use heard_frames::hear;
use std::alloc::Global;
use std::sync::Wait;
use std::test::*;

/// A VLAN request to all forwarders, without a tag.
const ASK: [u8; 60] = [
    0x01, 0x10, 0x18, 0x01, 0x00, 0x02, 0x00, 0x1b, 0x21, 0x00, 0x00, 0x0a, 0x89, 0x14, 0x10, 0x00,
    0x00, 0x04, 0x00, 0x01, 0x00, 0x02, 0x00, 0x00, 0x02, 0x02, 0x00, 0x1b, 0x21, 0x00, 0x00, 0x0a,
    0x00, 0x00, 0x00, 0x00, 0x00, 0x00, 0x00, 0x00, 0x00, 0x00, 0x00, 0x00, 0x00, 0x00, 0x00, 0x00,
    0x00, 0x00, 0x00, 0x00, 0x00, 0x00, 0x00, 0x00, 0x00, 0x00, 0x00, 0x00,
];

// A fabric of two ports that was drained after its first tick.
pub(crate) fn ticked(alloc: Global) -> Option<Fabric>
    ensures { IfSome result (λ f. IsSome f.state.tables.clock) }
{
    match Fabric::new(alloc, settings(alloc), 2) {
        Ok(mut fabric) => match starts(alloc, &mut fabric) {
            true => Some(fabric),
            false => None,
        },
        Err(_) => None,
    }
}

// Whether a new fabric had its first tick.
fn starts(alloc: Global, fabric: &mut Fabric) -> bool
    requires { IsNone fabric.old.state.tables.clock }
    ensures { result ≡ true → IsSome fabric.new.state.tables.clock }
{
    let is_ticked = fabric.tick(alloc, Moment(1000)).is_ok();
    fabric.drain();
    is_ticked
}

pub(crate) fn request(alloc: Global) -> Result<Caught, NoMemory> {
    Ok(Caught {
        bytes: Bytes::copy(alloc, &ASK)?,
        whole: true,
    })
}

// A fabric under a lock, its root, and the passes of its two ports.
pub(crate) fn passes_of(alloc: Global, fabric: Fabric) -> Option<(SharedFabric, Pass, Pass, Pass)>
    requires clock { IsSome fabric.state.tables.clock }
    ensures { IfSome result (λ r. IsSplit r.0 r.1 × IsOf r.0 1 r.2 × IsOf r.0 2 r.3
        × IsSome (opened r.0).state.tables.clock) }
{
    let Ok((shared, mut root)) = SharedFabric::open(alloc, fabric) else {
        return None;
    };
    let first = shared.split(&mut root, PortNo::at(0));
    let second = shared.split(&mut root, PortNo::at(1));
    Some((shared, root, first, second))
}

// What the fabric did, once both passes are joined.
pub(crate) fn events_of(
    shared: SharedFabric,
    mut root: Pass,
    first: Pass,
    second: Pass,
) -> EventList
    requires root { IsSplit shared root }
    requires first { IsOf shared 1 first }
    requires second { IsOf shared 2 second }
{
    shared.join(&mut root, first);
    shared.join(&mut root, second);
    let mut fabric = shared.close(root);
    fabric.drain().events
}

// What a fabric did of which two ports submit a frame each, the second port first.
fn taken_in_turns<R: Wait>(
    rt: &R,
    alloc: Global,
    fabric: Fabric,
    frame: &Caught,
) -> Option<EventList>
    requires clock { IsSome fabric.state.tables.clock }
{
    let (shared, root, mut first, mut second) = passes_of(alloc, fabric)?;
    let _later = shared.submit(rt, alloc, &mut second, 7, &hear(frame));
    let _last = shared.submit(rt, alloc, &mut first, 5, &hear(frame));
    Some(events_of(shared, root, first, second))
}

// Whether an entry is an answered request of this port, with this index.
pub(crate) fn is_answered(events: &EventList, place: usize, port: PortNo, index: u64) -> bool {
    match events.at(place) {
        Some(
            Event::Frame {
                port: of,
                index: number,
                caught: _,
                verdict: Verdict::Vlans,
            },
        ) => *of == port && *number == index,
        _ => false,
    }
}

#[test]
fn turns_are_one_history(rt: HostRuntime) -> Result<(), Fail> {
    let alloc = rt.alloc();
    let frame = request(alloc)?;
    let fabric = ticked(alloc).ok_or("memory")?;
    let events = taken_in_turns(&rt, alloc, fabric, &frame).ok_or("memory")?;
    assert_eq!(rt; events.len(), 2);
    assert!(rt; is_answered(&events, 0, PortNo::at(1), 7));
    assert!(rt; is_answered(&events, 1, PortNo::at(0), 5));
    Ok(())
}
