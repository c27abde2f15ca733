//! A bridge between captures and pages: which frames were handled, and what they left.
ghost use Rattle.std.specs.Prelude.{◌≡◌, ℕ, ◌+◌, ◌-◌, ◌<◌, ◌≤◌, ◌^◌, ◌++◌, if◌then◌else◌};
ghost use Rattle.std.specs.Prelude.{IfOk, OnOk, length, replicate, slice_index, slice_set};
ghost use Rattle.fip_snoop.specs.Bridge as bridging;
ghost use Rattle.fip_snoop.specs.Messages.{forwarder_of};
ghost use Rattle.fip_snoop.specs.Queue.{AllAscend};
ghost use Rattle.run_files.specs.Pages.{AreShort, items_in};
ghost use Rattle.side_runs.specs.Records.{AllFit, count_in};
ghost use Rattle.side_runs.specs.State.{IsFound, IsNew, IsNext, Passes, PassesNext};

use crate::copies::add_copies;
use fab_base::{NoMemory, OwnedList, PortNo};
use fab_config::Config;
use fip_snoop::{Snoop, Way, is_dropped};
use pcap_file::Record;
use run_files::head_records;
use std::alloc::Global;

/// A bridge over captures. Of the capture at each place so many frames were handled, and the page
/// there has what its port's output grows by next.
#[derive(Debug, Drop)]
pub(crate) struct Bridge {
    pub(crate) snoop: Snoop,
    pub(crate) places: Vec<usize>,
    pub(crate) pages: Vec<Vec<u8>>,
    pub(crate) passed: u64,
    pub(crate) dropped: u64,
}

impl Bridge {
    /// A bridge that handled no frame. Each page has the head of a capture.
    pub(crate) fn new(alloc: Global, config: &Config, ports: usize) -> Result<Bridge, NoMemory>
        ensures { IfOk result (IsNew (forwarder_of config.now) ports) }
    {
        let snoop = Snoop::new(alloc, config)?;
        let places = zeros(alloc, ports)?;
        let pages = head_records(alloc, ports)?;
        Ok(Bridge {
            snoop,
            places,
            pages,
            passed: 0,
            dropped: 0,
        })
    }

    /// Lets the next frame pass, which stands in the capture at a place; pages that are full were
    /// written before. Where memory is refused some pages may have it, and others not.
    pub(crate) fn pass_next(
        &mut self,
        alloc: Global,
        ins: &[OwnedList<Record>],
        place: usize,
    ) -> Result<(), NoMemory>
        requires few { length ins.now ≤ 64 }
        requires fit { AllFit ins.now }
        requires ascend { AllAscend ins.now }
        requires frames { count_in ins.now < 2 ^ 64 }
        requires room { self.old.passed + self.old.dropped < 2 ^ 64 - 1 }
        requires next { IsNext place ins.now self.old.places.items }
        requires short { AreShort (items_in self.old.pages.items) }
        ensures passes { OnOk result (PassesNext ins.now self.old self.new) }
    {
        let found = next_record(ins, &self.places, place);
        self.pass(alloc, PortNo::at(place), found)?;
        step_on(&mut self.places, place);
        Ok(())
    }

    // Lets a record of a port pass.
    fn pass(&mut self, alloc: Global, port: PortNo, found: &Record) -> Result<(), NoMemory>
        requires moment { found.now.moment < 2 ^ 53 }
        requires bytes { length found.now.caught.bytes ≤ 65535 }
        requires room { self.old.passed + self.old.dropped < 2 ^ 64 - 1 }
        ensures { OnOk result (Passes port found.now self.old self.new) }
    {
        let way = self.snoop.frame(alloc, port, &found.caught)?;
        add_copies(alloc, found, &way, &mut self.pages)?;
        self.count(&way);
        Ok(())
    }

    // Counts a frame that went this way.
    fn count(&mut self, way: &Way)
        requires room { self.old.passed + self.old.dropped < 2 ^ 64 - 1 }
        ensures rest { (self.new.places ≡ self.old.places) × (self.new.pages ≡ self.old.pages)
            × (self.new.snoop ≡ self.old.snoop) }
        ensures passed { self.new.passed
            ≡ (if bridging.is_dropped way.now then 0 else 1) + self.old.passed }
        ensures dropped { self.new.dropped
            ≡ (if bridging.is_dropped way.now then 1 else 0) + self.old.dropped }
    {
        if is_dropped(way) {
            self.dropped += 1;
        } else {
            self.passed += 1;
        }
    }
}

// The record of the next frame.
fn next_record<'a>(ins: &'a [OwnedList<Record>], places: &[usize], place: usize) -> &'a Record
    requires fit { AllFit ins.now }
    requires frames { count_in ins.now < 2 ^ 64 }
    requires next { IsNext place ins.now places.now }
    ensures { IsFound place ins.now places.now result.now }
{
    let Some(found) = ins[place].at(places[place]) else {
        unreachable!()
    };
    found
}

// One more was handled of the capture at a place.
fn step_on(places: &mut [usize], place: usize)
    requires place { place < length places.old }
    requires room { slice_index places.old place + 1 < 2 ^ 64 }
    ensures { places.new ≡ slice_set places.old place (slice_index places.old place + 1) }
{
    places[place] += 1;
}

// So many places of first frames.
fn zeros(alloc: Global, count: usize) -> Result<Vec<usize>, NoMemory>
    ensures { IfOk result (λ v. v.items ≡ replicate count 0) }
{
    let mut places = Vec::new(alloc);
    for _ in 0..count {
        places.push(0)?;
    }
    Ok(places)
}
