//! The journal and the outputs, which grow by what the pages hold.
ghost use Rattle.std.specs.Prelude.{◌≡◌, ℕ, [], length, Ok, Err, OnOk, OnErr, IfErr, MatchResult};
ghost use Rattle.fab_base.specs.declared.values.Failed as of_files;
ghost use Rattle.run_files.specs.Pages.{items_in, piece_at};
ghost use Rattle.fab_windows.specs.Files.{AreFiles, Writes};
ghost use Rattle.fab_windows.specs.Pages.{FlushedFor, IsNothing, pending};

use crate::RunFault;
use crate::pages::Pages;
use fab_base::{Depot, Failed, put_all};

/// Where a run writes: the slot of the journal, and those of the outputs in port order.
#[derive(Clone, Copy, Debug)]
pub struct Slots<'a> {
    pub journal: u32,
    pub outs: &'a [u32],
}

/// Writes what the pages hold, and empties them. Its one fault is `Write`, and the pages then hold
/// what they held.
pub fn flush<D: Depot>(depot: &mut D, slots: &Slots<'_>, pages: &mut Pages) -> Result<(), RunFault>
    requires count { length slots.now.outs.now ≡ length pages.old.records.items }
    requires files { AreFiles (D.seen depot.old) slots.now.journal slots.now.outs.now }
    ensures writes { let W = Writes slots.now.journal slots.now.outs.now pages.old.lines.items
        (items_in pages.old.records.items) (D.seen depot.old) (D.seen depot.new) in
        MatchResult result (λ _. W (Ok tt)) (λ _. (f : of_files.Failed) × W (Err f)) }
    ensures fault { IfErr result (λ e. e ≡ RunFault.Write) }
    ensures nothing { OnOk result (IsNothing (pending pages.new)) }
    ensures count { OnOk result (length pages.new.records.items
        ≡ length pages.old.records.items) }
    ensures kept { OnErr result (pages.new ≡ pages.old) }
{
    match write_pages(depot, slots, &pages.lines, &mut pages.records) {
        Ok(()) => {
            pages.lines.clear();
            Ok(())
        }
        Err(_) => Err(RunFault::Write),
    }
}

/// Writes what the pages hold before a run ends by a fault, and answers what it ends by: that
/// fault, or `Write`.
pub(crate) fn flush_for<D: Depot>(
    depot: &mut D,
    slots: &Slots<'_>,
    pages: &mut Pages,
    fault: RunFault,
) -> RunFault
    requires count { length slots.now.outs.now ≡ length pages.old.records.items }
    requires files { AreFiles (D.seen depot.old) slots.now.journal slots.now.outs.now }
    ensures { FlushedFor slots.now.journal slots.now.outs.now (pending pages.old)
        (D.seen depot.old) (D.seen depot.new) fault result }
{
    match flush(depot, slots, pages) {
        Ok(()) => fault,
        Err(failed) => failed,
    }
}

// The lines of the journal, and then the records of each output, in port order, which are emptied.
fn write_pages<D: Depot>(
    depot: &mut D,
    slots: &Slots<'_>,
    lines: &[u8],
    records: &mut Vec<Vec<u8>>,
) -> Result<(), Failed>
    requires count { length slots.now.outs.now ≡ length records.old.items }
    requires files { AreFiles (D.seen depot.old) slots.now.journal slots.now.outs.now }
    ensures writes { Writes slots.now.journal slots.now.outs.now lines.now
        (items_in records.old.items) (D.seen depot.old) (D.seen depot.new) result }
    ensures nothing { OnOk result ((q : ℕ) → piece_at (items_in records.new.items) q ≡ []) }
    ensures count { OnOk result (length records.new.items ≡ length records.old.items) }
    ensures kept { OnErr result (records.new ≡ records.old) }
{
    match put_all(depot, slots.journal, lines) {
        Ok(()) => {}
        Err(failed) => return Err(failed),
    }
    match run_files::flush(depot, slots.outs, records) {
        Ok(()) => Ok(()),
        Err(failed) => Err(failed),
    }
}
