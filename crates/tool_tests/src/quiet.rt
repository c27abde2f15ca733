//! Windows of two ports under gates that hold nobody: few bytes go in turn, ports ascending, and
//! 64 MiB by a worker a port.
use crate::inputs::{
    CONFIG, HEAD, REQUEST, TWO_PORTS, assert_journal, depot_of, ends_under, put_record,
};
use fab_base::{FcId, Gate, PortNo};
use std::alloc::Global;
use std::process::Abort;
use std::sync::Wait;
use std::sync::atomic::{AtomicU64, Ordering};
use std::test::Fail;
use std::thread;
use std::thread::Threads;

// ---- few bytes

// A capture of VLAN requests in three windows.
fn requests(alloc: Global) -> Result<Vec<u8>, Fail> {
    let request = REQUEST;
    let frame = &request[40..];
    let mut capture = Vec::new(alloc);
    capture.extend_from_slice(&HEAD)?;
    for moment in [1000, 1050, 1100, 1250] {
        put_record(&mut capture, moment, frame)?;
    }
    Ok(capture)
}

// A run over the requests on two ports writes the journal in which the ports ascend.
fn runs_in_turn<R: Threads + Wait + Sync + Abort>(
    rt: &R,
    alloc: Global,
    capture: &[u8],
) -> Result<(), Fail> {
    let mut depot = depot_of(alloc, &CONFIG, capture, capture)?;
    let wanted = (b"frames 8 entries 11\n".as_slice(), 0);
    ends_under(rt, alloc, &TWO_PORTS, &mut depot, &Door::new(false), wanted)?;
    let journal = "journal 2\n\
        1000 tick\n1000 1 0 vlans\n1000 1 1 vlans\n1000 2 0 vlans\n1000 2 1 vlans\n\
        1100 tick\n1100 1 2 vlans\n1100 2 2 vlans\n\
        1200 tick\n1200 1 3 vlans\n1200 2 3 vlans\n";
    assert_journal(rt, &depot, journal);
    Ok(())
}

#[test]
fn quiet_windows_go_in_turn(rt: HostRuntime) -> Result<(), Fail> {
    let capture = requests(rt.alloc())?;
    for _run in 0..20 {
        runs_in_turn(&rt, rt.alloc(), &capture)?;
    }
    Ok(())
}

// ---- many bytes

// How many frames of how many bytes each of two ports has: 64 MiB in all.
const FRAMES: u64 = 1024;

const LENGTH: usize = 32_768;

// How often a worker looks for the other port, and yields.
const LOOKS: u64 = 1_000_000;

// It holds nobody, but for the first frame of each port, which waits for that of the other one. It
// has what passed first of each port, how much of port 1 was done when port 2 came, and whether
// somebody waited in vain.
#[derive(Drop)]
struct Door {
    waits: bool,
    came: [AtomicU64; 2],
    done: AtomicU64,
    ahead: AtomicU64,
    late: AtomicU64,
}

impl Door {
    fn new(waits: bool) -> Door {
        Door {
            waits,
            came: [AtomicU64::new(0), AtomicU64::new(0)],
            done: AtomicU64::new(0),
            ahead: AtomicU64::new(0),
            late: AtomicU64::new(0),
        }
    }

    fn has_come(&self, place: usize) -> bool {
        match self.came.get(place) {
            Some(came) => came.load(Ordering::SeqCst) != 0,
            None => false,
        }
    }

    fn wait(&self, place: usize) {
        for _look in 0..LOOKS {
            if self.has_come(place) {
                return;
            }
            thread::yield_now();
        }
        self.late.store(1, Ordering::SeqCst);
    }
}

impl Gate for Door {
    const HOLDS: bool = false;

    fn pass(&self, port: PortNo, index: u64) {
        if index != 0 {
            return;
        }
        if let Some(came) = self.came.get(port.index()) {
            came.store(1, Ordering::SeqCst);
        }
        if port.value() == 2 {
            let done = self.done.load(Ordering::SeqCst);
            self.ahead.store(done, Ordering::SeqCst);
        }
        if self.waits {
            self.wait(if port.value() == 1 { 1 } else { 0 });
        }
    }

    fn done(&self, port: PortNo, _index: u64, _granted: Option<FcId>) {
        if port.value() == 1 {
            self.done.fetch_add(1, Ordering::SeqCst);
        }
    }
}

// A capture of one window: so many frames of zeros, the last of them shorter by some bytes.
fn zeros(alloc: Global, short: usize) -> Result<Vec<u8>, Fail> {
    let frame = vec![in alloc; 0u8; LENGTH]?;
    let mut capture = Vec::new(alloc);
    capture.extend_from_slice(&HEAD)?;
    for _frame in 1..FRAMES {
        put_record(&mut capture, 1000, &frame)?;
    }
    put_record(&mut capture, 1000, &frame[short.min(LENGTH)..])?;
    Ok(capture)
}

// A run over a window, of which the second port lacks some bytes to 64 MiB, passes a door.
fn passes<R: Threads + Wait + Sync + Abort>(
    rt: &R,
    alloc: Global,
    short: usize,
    door: &Door,
) -> Result<(), Fail> {
    let first = zeros(alloc, 0)?;
    let second = zeros(alloc, short)?;
    let mut depot = depot_of(alloc, &CONFIG, &first, &second)?;
    let wanted = (b"frames 2048 entries 2049\n".as_slice(), 0);
    ends_under(rt, alloc, &TWO_PORTS, &mut depot, door, wanted)
}

// In turn the first frame of port 1 would wait in vain.
#[test]
fn large_window_goes_by_workers(rt: HostRuntime) -> Result<(), Fail> {
    let door = Door::new(true);
    passes(&rt, rt.alloc(), 0, &door)?;
    assert!(rt; door.has_come(0) && door.has_come(1));
    assert_eq!(rt; door.late.load(Ordering::SeqCst), 0);
    Ok(())
}

// One byte less: port 2 comes when all of port 1 is done.
#[test]
fn smaller_window_goes_in_turn(rt: HostRuntime) -> Result<(), Fail> {
    let door = Door::new(false);
    passes(&rt, rt.alloc(), 1, &door)?;
    assert_eq!(rt; door.ahead.load(Ordering::SeqCst), FRAMES);
    Ok(())
}
