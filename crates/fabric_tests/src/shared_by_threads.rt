//! Two threads submit the frames of their ports to one fabric.
ghost use Rattle.std.specs.Prelude.{IsSome};
ghost use Rattle.fab_shared.specs.Shared.{opened};
ghost use Rattle.fabric_tests.specs.Passes.{IsOf};

use crate::shared::{events_of, is_answered, passes_of, request, ticked};
use fab_base::{Caught, PortNo};
use fab_shared::{Pass, SharedFabric};
use forward_core::{EventList, Fabric};
use heard_frames::hear;
use std::alloc::Global;
use std::process::Abort;
use std::sync::Wait;
use std::test::*;
use std::thread;
use std::thread::Threads;

/// How many frames each thread submits.
const FRAMES: u64 = 50;

// Submits a frame again and again, with the indices from 0 on.
fn submit_all<R: Wait>(
    rt: &R,
    alloc: Global,
    shared: &SharedFabric,
    mut pass: Pass,
    port: PortNo,
    frame: &Caught,
) -> Pass
    requires pass { IsOf shared.now port pass }
    requires clock { IsSome (opened shared.now).state.tables.clock }
    ensures { IsOf shared.now port result }
{
    let heard = hear(frame);
    for index in 0..FRAMES {
        let _verdict = shared.submit(rt, alloc, &mut pass, index, &heard);
    }
    pass
}

// What a fabric did of which two threads have a port each.
fn by_two_threads<R: Threads + Wait + Sync>(
    rt: &R,
    alloc: Global,
    fabric: Fabric,
    frame: &Caught,
) -> Option<EventList>
    requires clock { IsSome fabric.state.tables.clock }
{
    let (shared, root, first, second) = passes_of(alloc, fabric)?;
    let one = PortNo::at(0);
    let other = PortNo::at(1);
    let lent = &shared;
    let (first, second) = thread::join(
        rt,
        move || -> Pass
            requires pass { IsOf lent.now one first }
            requires clock { IsSome (opened lent.now).state.tables.clock }
            ensures { IsOf lent.entry.now one result }
        { submit_all(rt, alloc, lent, first, one, frame) },
        move || -> Pass
            requires pass { IsOf lent.now other second }
            requires clock { IsSome (opened lent.now).state.tables.clock }
            ensures { IsOf lent.entry.now other result }
        { submit_all(rt, alloc, lent, second, other, frame) },
    );
    Some(events_of(shared, root, first, second))
}

// Whether the frames of a port stand among these entries, all of them and in order.
fn has_all(events: &EventList, port: PortNo) -> bool {
    let mut next = 0u64;
    for place in 0..events.len() {
        if is_answered(events, place, port, next) {
            next = next.wrapping_add(1);
        }
    }
    next == FRAMES
}

#[test]
fn two_threads_submit_fifty_frames_each(rt: HostRuntime) -> Result<(), Fail> {
    let alloc = rt.alloc();
    let frame = request(alloc)?;
    let fabric = ticked(alloc).ok_or("memory")?;
    let events = by_two_threads(&rt, alloc, fabric, &frame).ok_or("memory")?;
    assert_eq!(rt; events.len(), 100);
    assert!(rt; has_all(&events, PortNo::at(0)) && has_all(&events, PortNo::at(1)));
    Ok(())
}
