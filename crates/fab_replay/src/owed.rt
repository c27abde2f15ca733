//! The outputs while a journal is checked.
ghost use Rattle.std.specs.Prelude.{◌≡◌, ◌≤◌, ℕ, IfOk, [], List, length, slice_get, Some};
ghost use Rattle.window_records.specs.Ports.{AreInputs};
ghost use Rattle.fab_replay.specs.Outputs.{IsRead};
ghost use Rattle.fab_replay.specs.Owed.{AreMany, AreNew, ReadsOn, ReadsOut};
ghost use Rattle.fab_replay.specs.Owed as spec;
ghost use Rattle.fab_replay.specs.declared.outputs.Compared as of_outputs;

use crate::{CheckFault, Compared, feed_each, finish_each};
use fab_base::{Depot, Failed, NoMemory, PortNo};
use fab_pages::{clear_all, head_records};
use std::alloc::Global;

/// The outputs: for each, in port order, the bytes that it should have next, and how far it was
/// read.
#[derive(Debug)]
pub(crate) struct Owed {
    pub(crate) pages: Vec<Vec<u8>>,
    pub(crate) all: Vec<Compared>,
}

impl Drop for Owed {
    // By hand, so that it is dropped by one call.
    fn drop(self) {
        let Owed {
            pages: _pages,
            all: _all,
        } = self;
    }
}

impl Owed {
    /// So many outputs of which nothing was read. Each should begin with the head of a capture.
    pub(crate) fn new(alloc: Global, count: usize) -> Result<Owed, NoMemory>
        ensures { IfOk result (λ o. AreNew count o) }
    {
        let pages = head_records(alloc, count)?;
        let all = new_comparisons(alloc, count)?;
        Ok(Owed { pages, all })
    }

    /// Reads each output on against its page, and empties the pages.
    pub(crate) fn read_on<D: Depot>(&mut self, depot: &mut D, outs: &[u32]) -> Result<(), Failed>
        requires many { AreMany (length outs.now) self.old }
        requires inputs { AreInputs (D.seen depot.old) outs.now }
        ensures reads { ReadsOn outs.now (D.seen depot.old) (D.seen depot.new) self.old self.new
            result }
    {
        feed_each(depot, outs, &self.pages, &mut self.all)?;
        clear_all(&mut self.pages);
        Ok(())
    }

    /// Reads each output to its end, and answers with the first that isn't as it should be.
    pub(crate) fn read_out<D: Depot>(
        &mut self,
        depot: &mut D,
        outs: &[u32],
    ) -> Result<(), CheckFault>
        requires many { AreMany (length outs.now) self.old }
        requires ports { length outs.now ≤ 64 }
        requires inputs { AreInputs (D.seen depot.old) outs.now }
        ensures reads { ReadsOut outs.now (D.seen depot.old) (D.seen depot.new) self.old result }
    {
        self.read_on(depot, outs)?;
        let first = finish_each(depot, outs, &self.all)?;
        answer_by(first)
    }
}

// What the first output that isn't as it should be ends a check with.
fn answer_by(first: Option<(PortNo, u64)>) -> Result<(), CheckFault>
    ensures { result ≡ spec.answer_by first }
{
    match first {
        None => Ok(()),
        Some((port, at)) => Err(CheckFault::Output { port, at }),
    }
}

// So many outputs of which nothing was read.
fn new_comparisons(alloc: Global, count: usize) -> Result<Vec<Compared>, NoMemory>
    ensures count { IfOk result (λ v. length v.items ≡ count) }
    ensures fresh { IfOk result (λ v. (q : ℕ) (c : of_outputs.Compared)
        → slice_get v.items q ≡ Some c → (found : List ℕ) → IsRead c found found []) }
{
    let mut all = Vec::new(alloc);
    for _ in 0..count {
        all.push(Compared::new())?;
    }
    Ok(all)
}
