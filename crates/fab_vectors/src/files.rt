//! One file of a load, written page by page.
ghost use Rattle.std.specs.Prelude.{◌≡◌, IsTrue, IfOk, OnOk, flat_map};
ghost use Rattle.fab_vectors.specs.Files.{Adds};
ghost use Rattle.fab_vectors.specs.Frames as spec;
ghost use Rattle.fab_vectors.specs.Load.{capture, record_of};
ghost use Rattle.pcap_file.specs.Capture.{head_bytes};

use crate::MakeFault;
use crate::frame::LoadFrame;
use crate::plan::frames_of;
use crate::records::write_records;
use fab_base::{Depot, NoMemory, PortNo, put_all};
use pcap_file::write_head;
use std::alloc::Global;

/// How many frames are put at once: some 64 KiB.
const PAGE: usize = 60;

/// Buffers that are used again: for the bytes that are put at once, and for one frame.
#[derive(Debug, Drop)]
pub(crate) struct Buffers {
    pub(crate) page: Vec<u8>,
    pub(crate) frame: Vec<u8>,
}

/// Writes the capture of a port, and answers how many frames it has.
#[tactic(auto, unfolding(crate::specs::Load::capture))]
pub(crate) fn write_capture<D: Depot>(
    alloc: Global,
    depot: &mut D,
    number: u64,
    port: PortNo,
    slot: u32,
    counted: &[u8],
    buffers: &mut Buffers,
) -> Result<u64, MakeFault>
    requires counted { counted.now ≡ spec.counted spec.COUNTED }
    requires output { IsTrue ((D.seen depot.old).output slot) }
    ensures adds { Adds slot (capture number port) (D.seen depot.old) (D.seen depot.new) result }
    ensures count { IfOk result (λ frames. frames ≡ 2500) }
{
    let Ok(frames) = frames_of(alloc, number, port) else {
        return Err(MakeFault::Memory);
    };
    match put_head(alloc, depot, slot, buffers) {
        Ok(()) => {}
        Err(fault) => return Err(fault),
    }
    match put_pages(alloc, depot, port, slot, &frames, counted, buffers) {
        Ok(()) => Ok(frames.len() as u64),
        Err(fault) => Err(fault),
    }
}

// Puts the head of a capture.
fn put_head<D: Depot>(
    alloc: Global,
    depot: &mut D,
    slot: u32,
    buffers: &mut Buffers,
) -> Result<(), MakeFault>
    requires output { IsTrue ((D.seen depot.old).output slot) }
    ensures adds { Adds slot head_bytes (D.seen depot.old) (D.seen depot.new) result }
{
    buffers.page.clear();
    match write_head(alloc, &mut buffers.page) {
        Ok(()) => put_page(depot, slot, &buffers.page),
        Err(_) => Err(MakeFault::Memory),
    }
}

// Puts the records of frames of a port.
fn put_pages<D: Depot>(
    alloc: Global,
    depot: &mut D,
    port: PortNo,
    slot: u32,
    frames: &[LoadFrame],
    counted: &[u8],
    buffers: &mut Buffers,
) -> Result<(), MakeFault>
    requires counted { counted.now ≡ spec.counted spec.COUNTED }
    requires output { IsTrue ((D.seen depot.old).output slot) }
    ensures adds { Adds slot (flat_map (record_of port) frames.now) (D.seen depot.old)
        (D.seen depot.new) result }
{
    let mut rest = frames;
    while !rest.is_empty() {
        let (now, later) = rest.split_at(rest.len().min(PAGE));
        match fill_page(alloc, port, now, counted, buffers) {
            Ok(()) => {}
            Err(_) => return Err(MakeFault::Memory),
        }
        match put_page(depot, slot, &buffers.page) {
            Ok(()) => {}
            Err(fault) => return Err(fault),
        }
        rest = later;
    }
    Ok(())
}

// Fills the page with the records of a few frames of a port.
fn fill_page(
    alloc: Global,
    port: PortNo,
    frames: &[LoadFrame],
    counted: &[u8],
    buffers: &mut Buffers,
) -> Result<(), NoMemory>
    requires { counted.now ≡ spec.counted spec.COUNTED }
    ensures { OnOk result (buffers.new.page.items ≡ flat_map (record_of port) frames.now) }
{
    buffers.page.clear();
    write_records(
        alloc,
        port,
        frames,
        counted,
        &mut buffers.frame,
        &mut buffers.page,
    )
}

/// Puts bytes to a slot.
pub(crate) fn put_page<D: Depot>(depot: &mut D, slot: u32, page: &[u8]) -> Result<(), MakeFault>
    requires output { IsTrue ((D.seen depot.old).output slot) }
    ensures adds { Adds slot page.now (D.seen depot.old) (D.seen depot.new) result }
{
    match put_all(depot, slot, page) {
        Ok(()) => Ok(()),
        Err(_) => Err(MakeFault::Write),
    }
}
