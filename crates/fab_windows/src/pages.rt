//! What is still to be written to the files, in buffers that are used again.
ghost use Rattle.std.specs.Prelude.{◌≡◌, ℕ, ◌+◌, ◌<◌, ◌++◌, length, IfOk, OnOk, OnErr};
ghost use Rattle.std.specs.List.{All};
ghost use Rattle.fab_base.specs.Ending.{IsPrefixOf};
ghost use Rattle.pcap_file.specs.Capture.{head_bytes};
ghost use Rattle.fab_policy.specs.Growing.{clock_after, lines_from, records_to};
ghost use Rattle.fab_policy.specs.Text.{head_line};
ghost use Rattle.fab_policy.specs.Ranged.{IsRangedEvent};
ghost use Rattle.fab_pages.specs.Pages.{AreEarly, sents_of};
ghost use Rattle.run_files.specs.Pages.{items_in, piece_at};
ghost use Rattle.fab_windows.specs.Pages as spec;

use fab_base::{Moment, NoMemory};
use fab_pages::Sendings;
use fab_policy::{Event, write_head_line, write_line};
use forward_core::EventList;
use run_files::{has_full, head_records, is_full};
use std::alloc::Global;
use std::thread::Threads;

/// What is still to be written: lines of the journal, and records of the output of each port.
#[derive(Debug)]
pub struct Pages {
    pub lines: Vec<u8>,
    pub records: Vec<Vec<u8>>,
}

impl Drop for Pages {
    // By hand, so that it is dropped by one call.
    fn drop(self) {
        let Pages {
            lines: _lines,
            records: _records,
        } = self;
    }
}

impl Pages {
    /// The head line of the journal and the head of each output.
    pub fn heads(alloc: Global, ports: usize) -> Result<Pages, NoMemory>
        ensures lines { IfOk result (λ p. p.lines.items ≡ head_line) }
        ensures count { IfOk result (λ p. length p.records.items ≡ ports) }
        ensures records { IfOk result (λ p. (q : ℕ) → q < ports
            → piece_at (items_in p.records.items) q ≡ head_bytes) }
    {
        let mut lines = Vec::new(alloc);
        write_head_line(alloc, &mut lines)?;
        let records = head_records(alloc, ports)?;
        Ok(Pages { lines, records })
    }

    /// Adds the lines of entries, from a clock on, and the records of what they sent on each port.
    /// Where memory is refused some of the lines may stand there, and no record.
    pub fn add<R: Threads + Sync>(
        &mut self,
        rt: &R,
        alloc: Global,
        clock: Moment,
        sendings: &Sendings<'_>,
    ) -> Result<(), NoMemory>
        requires ranged { All IsRangedEvent sendings.now.drained.now.events }
        requires early { AreEarly sendings.now.drained.now.outs }
        ensures lines { OnOk result (self.new.lines.items
            ≡ self.old.lines.items ++ lines_from clock sendings.now.drained.now.events) }
        ensures count { OnOk result (length self.new.records.items
            ≡ length self.old.records.items) }
        ensures records { OnOk result ((q : ℕ) → q < length self.old.records.items
            → piece_at (items_in self.new.records.items) q
            ≡ piece_at (items_in self.old.records.items) q
            ++ records_to (q + 1) (sents_of sendings.now)) }
        ensures kept { OnErr result (items_in self.new.records.items
            ≡ items_in self.old.records.items) }
        ensures front { OnErr result (IsPrefixOf self.old.lines.items self.new.lines.items) }
    {
        write_lines(alloc, clock, &sendings.drained.events, &mut self.lines)?;
        sendings.write_records_at_once(rt, alloc, &mut self.records)?;
        Ok(())
    }

    /// Whether a page is so long that all are best written.
    pub(crate) fn are_full(&self) -> bool
        ensures { result ≡ spec.are_full self.now }
    {
        is_full(&self.lines) || has_full(&self.records)
    }
}

// Appends the lines of entries, from a clock on.
fn write_lines(
    alloc: Global,
    start: Moment,
    events: &EventList,
    lines: &mut Vec<u8>,
) -> Result<(), NoMemory>
    requires { All IsRangedEvent events.now }
    ensures ok { OnOk result (lines.new.items ≡ lines.old.items ++ lines_from start events.now) }
    ensures err { OnErr result (IsPrefixOf lines.old.items lines.new.items) }
{
    let mut clock = start;
    for index in 0..events.len() {
        let Some(event) = events.at(index) else {
            unreachable!()
        };
        clock = moved(clock, event);
        write_line(alloc, clock, event, lines)?;
    }
    Ok(())
}

// The clock after an entry.
fn moved(clock: Moment, event: &Event) -> Moment
    ensures { result ≡ clock_after clock event.now }
{
    match event {
        Event::Tick { moment, .. } => *moment,
        Event::Frame { .. } => clock,
    }
}
