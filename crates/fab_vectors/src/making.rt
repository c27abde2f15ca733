//! The files of a load, written one after another.
ghost use Rattle.std.specs.Prelude.{◌≡◌, ◌<◌, IsTrue, IfOk};
ghost use Rattle.fab_vectors.specs.Files.{Adds};
ghost use Rattle.fab_vectors.specs.Frames as spec;
ghost use Rattle.fab_vectors.specs.Making.{AreNine, Makes, file_text, frame_count};
ghost use Rattle.fab_vectors.specs.Settings.{config_text};

use crate::fcoe::counted_bytes;
use crate::files::{Buffers, put_page, write_capture};
use crate::settings::settings;
use crate::{FILES, MakeFault};
use fab_base::{Depot, PortNo};
use fab_config::write_config;
use std::alloc::Global;

/// Writes the load of a number: the configuration to the first of nine slots, and the captures of
/// ports 1 to 8 to the others. Answers how many frames the captures have. Files are written page by
/// page, through buffers that are used again.
pub fn make_load<D: Depot>(
    alloc: Global,
    depot: &mut D,
    number: u64,
    slots: &[u32],
) -> Result<u64, MakeFault>
    requires files { AreNine (D.seen depot.old) slots.now }
    ensures makes { Makes number slots.now (D.seen depot.old) (D.seen depot.new) result }
{
    let Ok(counted) = counted_bytes(alloc) else {
        return Err(MakeFault::Memory);
    };
    write_files(alloc, depot, number, slots, &counted)
}

// Writes the files in their order. `counted` has the bytes of all payloads.
fn write_files<D: Depot>(
    alloc: Global,
    depot: &mut D,
    number: u64,
    slots: &[u32],
    counted: &[u8],
) -> Result<u64, MakeFault>
    requires counted { counted.now ≡ spec.counted spec.COUNTED }
    requires files { AreNine (D.seen depot.old) slots.now }
    ensures makes { Makes number slots.now (D.seen depot.old) (D.seen depot.new) result }
{
    let mut buffers = Buffers {
        page: Vec::new(alloc),
        frame: Vec::new(alloc),
    };
    let mut total = 0;
    for place in 0..FILES {
        match write_file(
            alloc,
            depot,
            number,
            place,
            slots[place],
            counted,
            &mut buffers,
        ) {
            Ok(frames) => total += frames,
            Err(fault) => return Err(fault),
        }
    }
    Ok(total)
}

// Writes the file of a place, and answers how many frames it has.
fn write_file<D: Depot>(
    alloc: Global,
    depot: &mut D,
    number: u64,
    place: usize,
    slot: u32,
    counted: &[u8],
    buffers: &mut Buffers,
) -> Result<u64, MakeFault>
    requires counted { counted.now ≡ spec.counted spec.COUNTED }
    requires output { IsTrue ((D.seen depot.old).output slot) }
    requires place { place < 9 }
    ensures adds { Adds slot (file_text number place) (D.seen depot.old) (D.seen depot.new)
        result }
    ensures count { IfOk result (λ frames. frames ≡ frame_count place) }
{
    if place == 0 {
        write_settings(alloc, depot, slot, buffers)
    } else {
        write_capture(
            alloc,
            depot,
            number,
            PortNo::at(place - 1),
            slot,
            counted,
            buffers,
        )
    }
}

// Writes the configuration, which has no frames.
fn write_settings<D: Depot>(
    alloc: Global,
    depot: &mut D,
    slot: u32,
    buffers: &mut Buffers,
) -> Result<u64, MakeFault>
    requires output { IsTrue ((D.seen depot.old).output slot) }
    ensures adds { Adds slot config_text (D.seen depot.old) (D.seen depot.new) result }
    ensures count { IfOk result (λ frames. frames ≡ 0) }
{
    let Ok(config) = settings(alloc) else {
        return Err(MakeFault::Memory);
    };
    buffers.page.clear();
    match write_config(alloc, &config, &mut buffers.page) {
        Ok(()) => {}
        Err(_) => return Err(MakeFault::Memory),
    }
    match put_page(depot, slot, &buffers.page) {
        Ok(()) => Ok(0),
        Err(fault) => Err(fault),
    }
}
