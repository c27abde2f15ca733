//! The ticks up to a window.
ghost use Rattle.std.specs.Prelude.{◌≡◌, ◌<◌, ◌≤◌, ◌%◌, ◌^◌, IfSome, OnOk, OnErr};
ghost use Rattle.fab_windows.specs.Window.{Ticked, TickedPart};

use fab_base::NoMemory;
use forward_core::Fabric;
use std::alloc::Global;

/// Makes the ticks up to a window: those that are owed on the way, and its own. Where memory is
/// refused the ticks before stay made.
pub fn tick_to(alloc: Global, fabric: &mut Fabric, window: u64) -> Result<(), NoMemory>
    requires range { window < 2 ^ 63 }
    requires start { window % fabric.old.settings.window ≡ 0 }
    requires order { IfSome fabric.old.state.tables.clock (λ t. t ≤ window) }
    ensures ticked { OnOk result (Ticked window fabric.old fabric.new) }
    ensures part { OnErr result (TickedPart fabric.old fabric.new) }
{
    'ticks: while let Some(moment) = fabric.next_tick(window) {
        fabric.tick(alloc, moment)?;
    }
    Ok(())
}
