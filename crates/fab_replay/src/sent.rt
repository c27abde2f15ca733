//! What a fabric sends while a journal is checked.
ghost use Rattle.std.specs.Prelude.{◌≡◌, IfOk, OnOk, length};
ghost use Rattle.fab_policy.specs.Standing.{drained};
ghost use Rattle.fab_pages.specs.Pages.{Adds, items_in};
ghost use Rattle.forward_core.specs.Fabric.{AreRanged};
ghost use Rattle.fab_replay.specs.Owed.{AreSoon};

use fab_base::NoMemory;
use fab_pages::Sendings;
use forward_core::{Drained, Fabric};
use std::alloc::Global;

/// Drains a fabric, and appends the records of what it sent to the pages of their ports.
pub(crate) fn take_sent(
    alloc: Global,
    fabric: &mut Fabric,
    pages: &mut [Vec<u8>],
) -> Result<Drained, NoMemory>
    requires early { AreSoon fabric.old.outs }
    ensures fabric { fabric.new ≡ drained fabric.old }
    ensures ranged { AreRanged fabric.old.events }
    ensures events { IfOk result (λ d. d.events ≡ fabric.old.events) }
    ensures adds { OnOk result (Adds fabric.old.outs (items_in pages.old) (items_in pages.new)) }
    ensures count { length pages.new ≡ length pages.old }
{
    let drained = fabric.drain();
    let sendings = Sendings {
        config: fabric.config(),
        drained: &drained,
    };
    sendings.write_records(alloc, pages)?;
    Ok(drained)
}
