//! How long it takes from the first frame of captures to the last.
ghost use Rattle.std.specs.Prelude.{◌≡◌, max};
ghost use Rattle.pcap_file.specs.Records.{last_moment};
ghost use Rattle.fip_snoop.specs.Bridge as bridge;
ghost use Rattle.fip_snoop.specs.Queue.{AllAscend};
ghost use Rattle.side_runs.specs.Records.{AllFit, first_moment};

use fab_base::OwnedList;
use pcap_file::{MOST_SPAN, Record};

/// Whether the moments of all captures span more than the most.
pub(crate) fn is_too_long(ins: &[OwnedList<Record>]) -> bool
    requires fit { AllFit ins.now }
    requires ascend { AllAscend ins.now }
    ensures { result ≡ bridge.is_too_long (bridge.arrivals ins.now) }
{
    let mut least = u64::MAX;
    let mut greatest = 0;
    for records in ins {
        least = least.min(first_of(records, least));
        greatest = greater(greatest, last_of(records));
    }
    greatest.saturating_sub(least) > MOST_SPAN
}

// The moment of the first record, or another where there is none.
fn first_of(records: &OwnedList<Record>, other: u64) -> u64
    ensures { result ≡ first_moment other records.now }
{
    match records.at(0) {
        Some(record) => moment_of(record),
        None => other,
    }
}

// The moment of the last record, or 0 where there is none.
fn last_of(records: &OwnedList<Record>) -> u64
    ensures { result ≡ last_moment 0 records.now }
{
    let count = records.len();
    if count == 0 {
        return 0;
    }
    match records.at(count - 1) {
        Some(record) => moment_of(record),
        None => 0,
    }
}

fn moment_of(found: &Record) -> u64
    ensures { result ≡ found.now.moment }
{
    found.moment.0
}

fn greater(one: u64, other: u64) -> u64
    ensures { result ≡ max one other }
{
    if one < other { other } else { one }
}
