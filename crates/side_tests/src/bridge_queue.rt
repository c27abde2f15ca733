//! Which frame of several captures comes next, and the copies of a frame.
use fab_base::{Bytes, Caught, Moment, NoMemory, OwnedList, PortNo};
use fip_snoop::{Head, SnoopRule, Way, first_port, is_dropped};
use pcap_file::Record;
use side_runs::add_copy;
use std::alloc::Global;
use std::test::Fail;

// A capture with frames of these moments.
fn capture(alloc: Global, moments: &[u64]) -> Result<OwnedList<Record>, NoMemory> {
    let mut records = OwnedList::empty(alloc);
    for moment in moments {
        let bytes = Bytes::copy(alloc, &[])?;
        let caught = Caught { bytes, whole: true };
        records.push(
            alloc,
            Record {
                moment: Moment(*moment),
                caught,
            },
        )?;
    }
    Ok(records)
}

// The port that comes next of three captures, when so many frames of each were handled.
fn next_of(alloc: Global, places: [usize; 3]) -> Result<Option<Head>, NoMemory> {
    let ins = [
        capture(alloc, &[30, 50])?,
        capture(alloc, &[20, 30])?,
        capture(alloc, &[30])?,
    ];
    Ok(first_port(&ins, &places))
}

#[test]
fn the_least_moment_comes_first_and_then_the_least_port(rt: HostRuntime) -> Result<(), Fail> {
    let rows = [
        ([0, 0, 0], 2, 20),
        ([0, 1, 0], 1, 30),
        ([1, 1, 0], 2, 30),
        ([1, 2, 0], 3, 30),
        ([1, 2, 1], 1, 50),
    ];
    for (places, port, moment) in rows {
        assert_eq!(rt;
            next_of(rt.alloc(), places),
            Ok(Some(Head { port, moment }))
        );
    }
    assert_eq!(rt; next_of(rt.alloc(), [2, 2, 1]), Ok(None));
    Ok(())
}

// How many bytes a copy of a frame with three bytes has at a port.
fn copied(alloc: Global, port: usize, way: &Way) -> Result<usize, NoMemory> {
    let mut page = Vec::new(alloc);
    add_copy(alloc, port, Moment(1000), &[1, 2, 3], way, &mut page)?;
    Ok(page.len())
}

#[test]
fn copies_go_where_the_way_leads(rt: HostRuntime) -> Result<(), Fail> {
    let down = Way::Down(PortNo::new(2).unwrap());
    let dropped = Way::Dropped(SnoopRule::Vlan);
    let rows = [
        (1, &Way::Up, 19),
        (2, &Way::Up, 0),
        (2, &down, 19),
        (3, &down, 0),
        (1, &Way::All, 0),
        (64, &Way::All, 19),
        (1, &dropped, 0),
    ];
    for (port, way, bytes) in rows {
        assert_eq!(rt; copied(rt.alloc(), port, way), Ok(bytes));
    }
    Ok(())
}

#[test]
fn only_what_is_dropped_says_so(rt: HostRuntime) -> Result<(), Fail> {
    assert!(rt; is_dropped(&Way::Dropped(SnoopRule::Vlan)));
    assert!(rt; !is_dropped(&Way::All));
    Ok(())
}
