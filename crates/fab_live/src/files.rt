//! The files of a forwarder that runs, and what a packet adds to them.
ghost use Rattle.std.specs.Prelude.{◌≡◌, ◌<◌, length, IfErr, OnOk};
ghost use Rattle.fab_windows.specs.Pages.{IsNothing, pending};
ghost use Rattle.fab_live.specs.Files.{AreLive, WritesPacket, slots_of};

use crate::LiveFault;
use fab_base::{Depot, put_all};
use fab_windows::{Pages, Slots, flush};

/// Where a forwarder that runs writes: the slot of the journal, and in port order those of what
/// came and of what is sent.
#[derive(Clone, Copy, Debug)]
pub struct LiveFiles<'a> {
    pub journal: u32,
    pub ins: &'a [u32],
    pub outs: &'a [u32],
}

/// Writes a packet's record to the capture of its port, and then what the pages hold, which are
/// empty afterwards.
pub(crate) fn write_packet<D: Depot>(
    depot: &mut D,
    files: &LiveFiles<'_>,
    place: usize,
    bytes: &[u8],
    pages: &mut Pages,
) -> Result<(), LiveFault>
    requires place { place < length files.now.ins.now }
    requires files { AreLive (D.seen depot.old) (slots_of files.now) }
    requires count { length files.now.outs.now ≡ length pages.old.records.items }
    ensures writes { WritesPacket (slots_of files.now) place bytes.now (pending pages.old)
        (D.seen depot.old) (D.seen depot.new) result }
    ensures fault { IfErr result (λ e. e ≡ LiveFault.Write) }
    ensures nothing { OnOk result (IsNothing (pending pages.new)) }
    ensures count { OnOk result (length pages.new.records.items
        ≡ length pages.old.records.items) }
{
    match put_all(depot, files.ins[place], bytes) {
        Ok(()) => {}
        Err(_) => return Err(LiveFault::Write),
    }
    let slots = Slots {
        journal: files.journal,
        outs: files.outs,
    };
    match flush(depot, &slots, pages) {
        Ok(()) => Ok(()),
        Err(_) => Err(LiveFault::Write),
    }
}
