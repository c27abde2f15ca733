//! Laws of the definitions, which no code computes.
ghost use Rattle.std.specs.Prelude.{ℕ, ◌+◌, ◌*◌};
ghost use Rattle.fab_config.specs.Settings.{Settings};
ghost use Rattle.fab_pieces.specs.Restored.{CanRestore};
ghost use Rattle.fab_pieces.specs.Seam.{Seam};
ghost use Rattle.fab_state.specs.Fit.{FitCanRestore};
ghost use Rattle.fab_state.specs.Under.{EarlierIsSame, RunsGoOn, SeamsGoOn};
ghost use Rattle.fab_state.specs.Readable.{AreReadPorts, IsReadable};

use fab_pieces::seams_can_restore;

/// A seam of which a fabric can be made is one whose text is read, where the numbers of its N_Ports
/// have their types.
pub fn restored_seams_are_readable()
    ensures { (c : Settings) (n : ℕ) (s : Seam) → CanRestore c n s
        → AreReadPorts s.state.tables.ports
        → IsReadable (c.domain * 65536 + 256) c.pool n s }
{}

/// A fabric can be made of a seam that fits, where its numbers are in the ranges of their types.
pub fn fit_seams_can_be_restored()
    ensures { FitCanRestore }
{}

/// Under a configuration with more activations, which are later than the clock and of sets that are
/// there, a session goes on: up to the clock nothing differs, a seam that fits fits, and what a run
/// leaves behind it can be restored.
pub fn sessions_go_on_under_later_activations()
    ensures earlier { EarlierIsSame }
    ensures seams { SeamsGoOn }
    ensures runs { RunsGoOn }
{
    // Law: what runs leave can be restored.
    seams_can_restore();
}
