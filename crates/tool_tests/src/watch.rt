//! A gate that holds the workers of two ports, and notes what passes it. It is one type, since each
//! gate is a forwarder of its own to the compiler.
use fab_base::{FcId, Gate, PortNo};
use std::sync::atomic::{AtomicU64, Ordering};
use std::thread;

// How often a worker looks and yields at most: seconds, or more where others have the processors.
const TURNS: u64 = 10_000_000;

/// Whom a gate holds.
#[derive(Clone, Copy)]
pub(crate) enum Hold {
    /// Nobody.
    Nobody,
    /// The ports wait for each other.
    Meeting,
    /// This port has the first step and the last: the other one's first frame waits for its first
    /// one, and its second frame for the other one's second.
    Order(u32),
}

/// What a gate has seen.
#[derive(Drop)]
pub(crate) struct Watch {
    hold: Hold,
    // each call as three digits: the port, the index, and 1 for `pass`, or 2 for `done` without an
    // address
    calls: AtomicU64,
    // what has come, or is done where an order is held, a bit for each port and index
    bits: AtomicU64,
    // whether somebody waited in vain
    late: AtomicU64,
    granted: [AtomicU64; 2],
}

impl Watch {
    pub(crate) fn new(hold: Hold) -> Watch {
        Watch {
            hold,
            calls: AtomicU64::new(0),
            bits: AtomicU64::new(0),
            late: AtomicU64::new(0),
            granted: [AtomicU64::new(0), AtomicU64::new(0)],
        }
    }

    pub(crate) fn calls(&self) -> u64 {
        self.calls.load(Ordering::SeqCst)
    }

    pub(crate) fn bits(&self) -> u64 {
        self.bits.load(Ordering::SeqCst)
    }

    pub(crate) fn is_in_time(&self) -> bool {
        self.late.load(Ordering::SeqCst) == 0
    }

    /// The address that a port of this place was granted last.
    pub(crate) fn address(&self, place: usize) -> u64 {
        match self.granted.get(place) {
            Some(granted) => granted.load(Ordering::SeqCst),
            None => 0,
        }
    }

    fn add(&self, port: PortNo, index: u64, kind: u64) {
        let call = u64::from(port.value()) * 100 + index % 10 * 10 + kind % 10;
        let calls = self.calls();
        let calls = calls.wrapping_mul(1000).wrapping_add(call);
        self.calls.store(calls, Ordering::SeqCst);
    }

    fn bit(port: PortNo, index: u64) -> u64 {
        match (port.value(), index) {
            (1, 0) => 1,
            (1, 1) => 2,
            (2, 0) => 4,
            (2, 1) => 8,
            _ => 0,
        }
    }

    fn mark(&self, port: PortNo, index: u64) {
        self.bits
            .fetch_or(Watch::bit(port, index), Ordering::SeqCst);
    }

    fn wait(&self, bit: u64) {
        for _turn in 0..TURNS {
            if self.bits() & bit != 0 {
                return;
            }
            thread::yield_now();
        }
        self.late.store(1, Ordering::SeqCst);
    }

    fn wait_in_order(&self, first: u32, port: PortNo, index: u64) {
        let other = if port.value() == 1 { 4 } else { 1 };
        let is_first = port.value() == first;
        if !is_first && index == 0 {
            self.wait(other);
        }
        if is_first && index == 1 {
            self.wait(2 * other);
        }
    }
}

impl Gate for Watch {
    fn pass(&self, port: PortNo, index: u64) {
        match self.hold {
            Hold::Nobody => self.add(port, index, 1),
            Hold::Meeting => {
                self.mark(port, index);
                self.wait(if port.value() == 1 { 4 } else { 1 });
            }
            Hold::Order(first) => self.wait_in_order(first, port, index),
        }
    }

    fn done(&self, port: PortNo, index: u64, granted: Option<FcId>) {
        match self.hold {
            Hold::Nobody => self.add(port, index, if granted.is_none() { 2 } else { 3 }),
            Hold::Meeting => {}
            Hold::Order(_) => {
                if let (Some(address), Some(kept)) = (granted, self.granted.get(port.index())) {
                    kept.store(u64::from(address.value()), Ordering::SeqCst);
                }
                self.mark(port, index);
            }
        }
    }
}
