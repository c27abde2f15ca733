//! Which frame of several captures is handled next.
ghost use Rattle.std.specs.Prelude.{◌≡◌, ◌<◌, ◌≤◌, length, drop, option_map};
ghost use Rattle.fip_snoop.specs.Queue as spec;

use fab_base::OwnedList;
use pcap_file::Record;

/// A port, counted from 1, and the moment of the frame that comes next on it.
#[derive(Clone, Copy, Debug, PartialEq, Eq)]
pub struct Head {
    pub port: usize,
    pub moment: u64,
}

/// The port whose next frame is handled next: of each capture so many frames were handled.
pub fn first_port(ins: &[OwnedList<Record>], places: &[usize]) -> Option<Head>
    requires count { length places.now ≡ length ins.now }
    requires ports { length ins.now ≤ 64 }
    ensures { result ≡ option_map spec.head_of (spec.least 1 (spec.left_in ins.now places.now)) }
{
    let mut best = None;
    for done in 0..ins.len() {
        let place = ins.len() - 1 - done;
        best = sooner(place, next_moment(ins, places, place), best);
    }
    best
}

// The moment of the next frame of the capture at a place.
fn next_moment(ins: &[OwnedList<Record>], places: &[usize], place: usize) -> Option<u64>
    requires count { length places.now ≡ length ins.now }
    requires place { place < length ins.now }
    ensures { result ≡ spec.next_moment (drop place (spec.left_in ins.now places.now)) }
{
    match ins[place].at(places[place]) {
        Some(record) => Some(moment_of(record)),
        None => None,
    }
}

fn moment_of(found: &Record) -> u64
    ensures { result ≡ found.now.moment }
{
    found.moment.0
}

// The one that comes first of the port at a place and of those behind it.
fn sooner(place: usize, moment: Option<u64>, behind: Option<Head>) -> Option<Head>
    requires { place < 64 }
    ensures { result ≡ spec.sooner_head place moment behind }
{
    let Some(moment) = moment else {
        return behind;
    };
    match behind {
        Some(head) if head.moment < moment => Some(head),
        _ => Some(Head {
            port: place + 1,
            moment,
        }),
    }
}
