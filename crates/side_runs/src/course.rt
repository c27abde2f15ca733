//! The run of a node over records, and the capture of what it sends.
ghost use Rattle.std.specs.Prelude.{◌≡◌, ◌≤◌, ◌<◌, ◌^◌, ◌++◌, ◌∷◌, [], ℕ, List, false, length};
ghost use Rattle.std.specs.Prelude.{slice_index_or, IfOk, OnOk};
ghost use Rattle.pcap_file.specs.declared.Record.{Record as Row};
ghost use Rattle.side_runs.specs.Course.{AreFar, IsAt, Takes, turn_bytes};
ghost use Rattle.enode_core.specs.Goes.{AreSmall};
ghost use Rattle.enode_core.specs.Machine as spec;
ghost use Rattle.enode_core.specs.Runs.{from};

use enode_core::{Identity, Node};
use fab_base::{Bytes, Moment, NoMemory, OwnedList};
use pcap_file::{Record, write_head, write_record};
use std::alloc::Global;

/// A node, and the capture of what it has sent.
#[derive(Debug, Drop)]
pub struct Course {
    pub node: Node,
    pub capture: Vec<u8>,
}

// Appends the records of frames that were sent at a moment.
fn write_frames(
    alloc: Global,
    moment: Moment,
    frames: &[Bytes],
    file: &mut Vec<u8>,
) -> Result<(), NoMemory>
    requires moment { moment < 2 ^ 53 }
    requires small { AreSmall frames.now }
    ensures { OnOk result (file.new.items ≡ file.old.items ++ turn_bytes moment frames.now) }
{
    for frame in frames {
        write_record(alloc, moment, frame.view(), file)?;
    }
    Ok(())
}

// The node's timer, and the records of what it sends then.
fn tick(alloc: Global, course: &mut Course) -> Result<(), NoMemory>
    requires { spec.due course.old.node.state.stage < 2 ^ 53 }
    ensures own { course.new.node.own ≡ course.old.node.own }
    ensures later { OnOk result (spec.due course.old.node.state.stage
        < spec.due course.new.node.state.stage) }
    ensures goes { OnOk result ((start : ℕ) (ins left : List Row) (r : Row) →
        IsAt course.old.node.own start ins (r ∷ left) course.old.node.state
        course.old.capture.items → spec.due course.old.node.state.stage ≤ r.moment →
        IsAt course.old.node.own start ins (r ∷ left) course.new.node.state
        course.new.capture.items) }
{
    let moment = course.node.due();
    let mut frames = Vec::new(alloc);
    course.node.timer(alloc, &mut frames)?;
    write_frames(alloc, moment, &frames, &mut course.capture)
}

// A record that comes before the next timer.
fn hear_one(alloc: Global, course: &mut Course, row: &Record) -> Result<(), NoMemory>
    requires due { row.now.moment < spec.due course.old.node.state.stage }
    requires far { row.now.moment < 2 ^ 53 }
    ensures own { course.new.node.own ≡ course.old.node.own }
    ensures goes { OnOk result (Takes course.old.node.own row.now course.old.node.state
        course.old.capture.items course.new.node.state course.new.capture.items) }
{
    let mut frames = Vec::new(alloc);
    course
        .node
        .frame(alloc, row.moment, &row.caught, &mut frames)?;
    write_frames(alloc, row.moment, &frames, &mut course.capture)
}

// A record, behind the timers that are due by then.
fn take(alloc: Global, course: &mut Course, row: &Record) -> Result<(), NoMemory>
    requires { row.now.moment < 2 ^ 53 }
    ensures own { course.new.node.own ≡ course.old.node.own }
    ensures goes { OnOk result (Takes course.old.node.own row.now course.old.node.state
        course.old.capture.items course.new.node.state course.new.capture.items) }
{
    while course.node.due().0 <= row.moment.0 {
        tick(alloc, course)?;
    }
    hear_one(alloc, course, row)
}

// A node at its start, and the capture of its first frame.
fn begin(alloc: Global, start: Moment, own: Identity) -> Result<Course, NoMemory>
    requires { start < 2 ^ 53 }
    ensures own { IfOk result (λ c. c.node.own ≡ own) }
    ensures begins { IfOk result (λ c. (ins : List Row) →
        IsAt own start ins (from start ins) c.node.state c.capture.items) }
{
    let mut capture = Vec::new(alloc);
    write_head(alloc, &mut capture)?;
    let mut frames = Vec::new(alloc);
    let node = Node::start(alloc, start, own.mac, own.name, own.node, &mut frames)?;
    write_frames(alloc, start, &frames, &mut capture)?;
    Ok(Course { node, capture })
}

// A record, which is skipped where it comes before the start.
fn offer(alloc: Global, start: Moment, course: &mut Course, row: &Record) -> Result<(), NoMemory>
    requires { row.now.moment < 2 ^ 53 }
    ensures own { course.new.node.own ≡ course.old.node.own }
    ensures goes { OnOk result ((ins left : List Row) →
        IsAt course.old.node.own start ins (from start (row.now ∷ left)) course.old.node.state
        course.old.capture.items →
        IsAt course.old.node.own start ins (from start left) course.new.node.state
        course.new.capture.items) }
{
    if row.moment.0 < start.0 {
        return Ok(());
    }
    take(alloc, course, row)
}

// The record at a place.
fn row_at(records: &OwnedList<Record>, place: usize) -> &Record
    requires { place < length records.now }
    ensures { result.now ≡ slice_index_or records.now place result.now }
{
    match records.at(place) {
        Some(row) => row,
        None => unreachable!(),
    }
}

/// The run of a node over the records of a capture, from a moment on.
pub fn play(
    alloc: Global,
    start: Moment,
    own: Identity,
    records: &OwnedList<Record>,
) -> Result<Course, NoMemory>
    requires start { start < 2 ^ 53 }
    requires far { AreFar records.now }
    ensures own { IfOk result (λ c. c.node.own ≡ own) }
    ensures run { IfOk result (λ c. IsAt own start records.now [] c.node.state c.capture.items) }
{
    let mut course = begin(alloc, start, own)?;
    for place in 0..records.len() {
        let row = row_at(records, place);
        offer(alloc, start, &mut course, row)?;
    }
    Ok(course)
}
