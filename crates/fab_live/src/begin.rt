//! What stands before the first packet: the heads of all files.
ghost use Rattle.std.specs.Prelude.{◌≡◌, ℕ, ◌<◌, ◌≤◌, [], length, replicate, IsTrue, IfOk, OnOk};
ghost use Rattle.pcap_file.specs.Capture.{head_bytes};
ghost use Rattle.fab_policy.specs.Text.{head_line};
ghost use Rattle.run_files.specs.Pages.{items_in, piece_at};
ghost use Rattle.fab_windows.specs.Files.{Hold};
ghost use Rattle.fab_windows.specs.Pages.{IsNothing, pending};
ghost use Rattle.fab_live.specs.Files.{slots_of, AreLive, Came};
ghost use Rattle.fab_live.specs.Live.{StartsFiles};

use crate::{LiveFault, LiveFiles};
use fab_base::{Depot, NoMemory};
use fab_windows::{Pages, Slots, flush, laws_of_runs};
use run_files::{head_records, put_each};
use std::alloc::Global;

/// What a forwarder has before its first packet, but for the fabric: pages that are empty, and no
/// packet of any port.
#[derive(Drop)]
pub(crate) struct Started {
    pub(crate) pages: Pages,
    pub(crate) counts: Vec<u64>,
}

/// Writes the heads of all files: nothing came so far.
pub(crate) fn begin<D: Depot>(
    alloc: Global,
    depot: &mut D,
    files: &LiveFiles<'_>,
) -> Result<Started, LiveFault>
    requires files { AreLive (D.seen depot.old) (slots_of files.now) }
    requires width { length files.now.ins.now ≡ length files.now.outs.now }
    requires empty { IsTrue (D.seen depot.old).told
        → Hold (D.seen depot.old) files.now.journal files.now.outs.now [] (λ q. [])
        × Came (D.seen depot.old) files.now.ins.now (λ q. []) }
    ensures starts { StartsFiles (slots_of files.now) (D.seen depot.old) (D.seen depot.new)
        result }
    ensures counts { IfOk result (λ s. s.counts.items ≡ replicate (length files.now.outs.now) 0) }
    ensures nothing { IfOk result (λ s. IsNothing (pending s.pages)) }
    ensures pages { IfOk result (λ s. length s.pages.records.items
        ≡ length files.now.outs.now) }
{
    // Law: a journal without entries is one line, and a run over no records.
    laws_of_runs();
    let ports = files.outs.len();
    let Ok(counts) = zeros(alloc, ports) else {
        return Err(LiveFault::Memory);
    };
    let Ok(heads) = head_records(alloc, ports) else {
        return Err(LiveFault::Memory);
    };
    let Ok(mut pages) = Pages::heads(alloc, ports) else {
        return Err(LiveFault::Memory);
    };
    match write_heads(depot, files, &heads, &mut pages) {
        Ok(()) => Ok(Started { pages, counts }),
        Err(fault) => Err(fault),
    }
}

// Writes the heads of the captures of what came, and then those of the journal and the outputs.
fn write_heads<D: Depot>(
    depot: &mut D,
    files: &LiveFiles<'_>,
    heads: &[Vec<u8>],
    pages: &mut Pages,
) -> Result<(), LiveFault>
    requires files { AreLive (D.seen depot.old) (slots_of files.now) }
    requires width { length files.now.ins.now ≡ length files.now.outs.now }
    requires empty { IsTrue (D.seen depot.old).told
        → Hold (D.seen depot.old) files.now.journal files.now.outs.now [] (λ q. [])
        × Came (D.seen depot.old) files.now.ins.now (λ q. []) }
    requires heads { items_in heads.now ≡ replicate (length files.now.ins.now) head_bytes }
    requires size { length heads.now ≡ length files.now.ins.now }
    requires lines { pages.old.lines.items ≡ head_line }
    requires count { length pages.old.records.items ≡ length files.now.outs.now }
    requires records { (q : ℕ) → q < length files.now.outs.now
        → piece_at (items_in pages.old.records.items) q ≡ head_bytes }
    ensures starts { StartsFiles (slots_of files.now) (D.seen depot.old) (D.seen depot.new)
        result }
    ensures nothing { OnOk result (IsNothing (pending pages.new)) }
    ensures count { OnOk result (length pages.new.records.items
        ≡ length pages.old.records.items) }
{
    // Law: a journal without entries is one line, and a run over no records.
    laws_of_runs();
    match put_each(depot, files.ins, heads) {
        Ok(()) => {}
        Err(_) => return Err(LiveFault::Write),
    }
    let slots = Slots {
        journal: files.journal,
        outs: files.outs,
    };
    match flush(depot, &slots, pages) {
        Ok(()) => Ok(()),
        Err(_) => Err(LiveFault::Write),
    }
}

// No packet of any port so far.
fn zeros(alloc: Global, ports: usize) -> Result<Vec<u64>, NoMemory>
    ensures { IfOk result (λ v. v.items ≡ replicate ports 0) }
{
    let counts = Vec::from_elem(alloc, 0, ports)?;
    Ok(counts)
}
