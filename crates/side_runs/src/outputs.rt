//! The outputs, as they are opened.
ghost use Rattle.std.specs.Prelude.{◌≤◌, length};
ghost use Rattle.side_runs.specs.Opening.{OpensOutputs};
ghost use Rattle.side_runs.specs.Sides.{AreDifferent, AreKnown, outs_of};

use crate::sides::{output_at, side_count};
use arrayvec::ArrayVec;
use fab_base::{Depot, Failed, MOST_PORTS};
use run_files::add_slot;

/// Opens the outputs of all ports, in port order; they are empty then. Where one can't be opened,
/// those behind it are as they were. It takes no memory.
pub(crate) fn open_outputs<D: Depot>(
    depot: &mut D,
    sides: &[String],
) -> Result<ArrayVec<u32, MOST_PORTS>, Failed>
    requires few { length sides.now ≤ 128 }
    requires known { AreKnown (D.seen depot.old) sides.now }
    requires different { AreDifferent sides.now }
    ensures opens { OpensOutputs (outs_of sides.now) (D.seen depot.old) (D.seen depot.new) result }
{
    let mut outs = ArrayVec::new();
    for port in 0..side_count(sides) {
        match depot.open_out(output_at(sides, port)) {
            Ok(slot) => add_slot(&mut outs, slot),
            Err(failed) => return Err(failed),
        }
    }
    Ok(outs)
}
