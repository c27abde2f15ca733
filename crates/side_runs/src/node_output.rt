//! The capture of what a node sends.
ghost use Rattle.std.specs.Prelude.{IsTrue};
ghost use Rattle.side_runs.specs.NodeSteps.{WritesFile};

use fab_base::{Depot, Failed, put_all};

// Writes these bytes as the file of a name.
pub(crate) fn write_file<D: Depot>(depot: &mut D, to: &str, bytes: &[u8]) -> Result<(), Failed>
    requires { IsTrue ((D.seen depot.old).knows to.now) }
    ensures writes { WritesFile to.now bytes.now (D.seen depot.old) (D.seen depot.new) result }
{
    let out = match depot.open_out(to) {
        Ok(out) => out,
        Err(failed) => return Err(failed),
    };
    match put_all(depot, out, bytes) {
        Ok(()) => Ok(()),
        Err(failed) => Err(failed),
    }
}
