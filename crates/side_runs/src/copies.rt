//! The records that a frame adds to the captures of the ports.
ghost use Rattle.std.specs.Prelude.{◌≡◌, ℕ, ◌+◌, ◌<◌, ◌≤◌, ◌^◌, ◌++◌, length, OnOk, OnErr};
ghost use Rattle.run_files.specs.Pages.{items_in, piece_at};
ghost use Rattle.side_runs.specs.Copies as bridge;

use fab_base::{Moment, NoMemory};
use fip_snoop::{Way, leads_to};
use pcap_file::{Record, write_record};
use std::alloc::Global;

/// Appends a record of a frame to the page of a port, counted from 1, if its way leads there.
/// Where memory is refused nothing is appended.
pub fn add_copy(
    alloc: Global,
    port: usize,
    moment: Moment,
    bytes: &[u8],
    way: &Way,
    page: &mut Vec<u8>,
) -> Result<(), NoMemory>
    requires moment { moment < 2 ^ 53 }
    requires bytes { length bytes.now ≤ 65535 }
    ensures ok { OnOk result (page.new.items
        ≡ page.old.items ++ bridge.copy_of port moment bytes.now way.now) }
    ensures err { OnErr result (page.new.items ≡ page.old.items) }
{
    if leads_to(port, way) {
        return write_record(alloc, moment, bytes, page);
    }
    Ok(())
}

/// Appends a record of a frame to the page of each port to which its way leads.
pub(crate) fn add_copies(
    alloc: Global,
    found: &Record,
    way: &Way,
    pages: &mut [Vec<u8>],
) -> Result<(), NoMemory>
    requires moment { found.now.moment < 2 ^ 53 }
    requires bytes { length found.now.caught.bytes ≤ 65535 }
    ensures adds { OnOk result ((q : ℕ) → q < length pages.old
        → piece_at (items_in pages.new) q ≡ piece_at (items_in pages.old) q
        ++ bridge.copy_of (q + 1) found.now.moment found.now.caught.bytes way.now) }
    ensures count { length pages.new ≡ length pages.old }
{
    for place in 0..pages.len() {
        add_copy(
            alloc,
            place + 1,
            found.moment,
            found.caught.bytes.view(),
            way,
            &mut pages[place],
        )?;
    }
    Ok(())
}
