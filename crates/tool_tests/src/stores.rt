//! Windows are read as they come, and words that are no command open nothing.
use crate::counter::{Counter, counted};
use crate::inputs::{CONFIG, HEAD, SOLICITATION, put_record, status_of, words_in};
use fab_base::{MemDepot, MemSink, NoMemory, OpenGate};
use std::alloc::Global;
use std::process::Abort;
use std::sync::Wait;
use std::test::Fail;
use std::thread::Threads;

// A capture of so many solicitations, so many milliseconds apart. Each answer has 2176 bytes.
fn solicitations(alloc: Global, count: u64, apart: u64) -> Result<Vec<u8>, Fail> {
    let mut capture = Vec::new(alloc);
    capture.extend_from_slice(&HEAD)?;
    for index in 0..count {
        put_record(&mut capture, index.saturating_mul(apart), &SOLICITATION)?;
    }
    Ok(capture)
}

// A store with these captures of one port, or none, that knows the words.
fn counter_of(alloc: Global, words: &[&str], capture: Option<&[u8]>) -> Result<Counter, NoMemory> {
    let mut depot = MemDepot::new(alloc)?;
    depot.store(alloc, "K", &CONFIG)?;
    if let Some(bytes) = capture {
        depot.store(alloc, "A", bytes)?;
    }
    for word in words {
        depot.know(alloc, word)?;
    }
    Ok(counted(depot))
}

// What a command answered, and what its store counted.
#[derive(Clone, Copy)]
struct Counts {
    status: u8,
    opened: usize,
    fetched: usize,
    before: Option<usize>,
}

fn counts_of<R: Threads + Wait + Sync + Abort>(
    rt: &R,
    alloc: Global,
    names: &[&str],
    capture: Option<&[u8]>,
) -> Result<Counts, Fail> {
    let words = words_in(alloc, names)?;
    let mut say = MemSink::new(alloc, 10_000)?;
    let mut counter = counter_of(alloc, names, capture)?;
    assert!(rt; counter.depot.knows_all(&words));
    Ok(Counts {
        status: status_of(rt, alloc, &words, &mut counter, &mut say, &OpenGate),
        opened: counter.opened,
        fetched: counter.fetched,
        before: counter.before,
    })
}

#[test]
fn windows_are_read_as_they_come(rt: HostRuntime) -> Result<(), Fail> {
    let capture = solicitations(rt.alloc(), 300, 100)?;
    let length = capture.len();
    let words = ["run", "K", "J", "A", "X"];
    let counts = counts_of(&rt, rt.alloc(), &words, Some(&capture))?;
    drop(capture);
    assert_eq!(rt; counts.status, 0);
    assert_eq!(rt; counts.fetched, length.saturating_add(CONFIG.len()));
    assert!(rt; counts.before.unwrap_or(counts.fetched) < length / 2);
    Ok(())
}

// Words, with the status that they end with and how many files they open.
const OPENING: [(&[&str], u8, usize); 5] = [
    (&["run", "K", "J", "A"], 2, 0),
    (&["snoop", "K", "A", "X", "A", "Y"], 2, 0),
    (&["--help"], 0, 0),
    (&["--version"], 0, 0),
    (&["run", "K", "J", "A", "X"], 3, 2),
];

#[test]
fn words_that_are_no_command_open_nothing(rt: HostRuntime) -> Result<(), Fail> {
    for (words, status, opened) in OPENING {
        let counts = counts_of(&rt, rt.alloc(), words, None)?;
        assert_eq!(rt; (counts.status, counts.opened), (status, opened));
    }
    Ok(())
}
