//! An output file against the bytes that it should have, which come piece by piece.
ghost use Rattle.std.specs.Prelude.{◌≡◌, ◌≤◌, ◌<◌, [], List, ℕ, IsTrue, IfSome, IfNone, OnErr, length, take};
ghost use Rattle.fab_base.specs.Seen.{Fills};
ghost use Rattle.fab_replay.specs.Outputs.{IsFirstDifference, IsRead, Feeds, Finishes};

use fab_base::{Depot, Failed, fill};

/// How many bytes are read at once.
const ROOM: usize = 4096;

/// How far an output was read against the bytes that it should have, and the first place where it
/// differs from them.
///
/// The file is read from its first byte through one slot, which each call is given.
#[derive(Clone, Copy, Debug)]
pub struct Compared {
    at: u64,
    first: Option<u64>,
}

impl Compared {
    /// Nothing of a file was read.
    pub fn new() -> Compared
        ensures { (found : List ℕ) → IsRead result found found [] }
    {
        Compared { at: 0, first: None }
    }

    /// Reads on against the bytes that come next. Once a difference was found it reads nothing.
    /// After an error it was compared with a prefix of them, and bytes of the file may be lost.
    pub fn feed<D: Depot>(&mut self, depot: &mut D, slot: u32, wanted: &[u8]) -> Result<(), Failed>
        requires input { IsTrue ((D.seen depot.old).input slot) }
        ensures feeds { Feeds slot wanted.now (D.seen depot.old) (D.seen depot.new) self.old
            self.new result }
    {
        let mut done = 0;
        while done < wanted.len() {
            let count = (wanted.len() - done).min(ROOM);
            self.meet(depot, slot, &wanted[done..done + count])?;
            done += count;
        }
        Ok(())
    }

    /// Where the file first differs from all bytes that it should have, none where it doesn't.
    pub fn finish<D: Depot>(&self, depot: &mut D, slot: u32) -> Result<Option<u64>, Failed>
        requires input { IsTrue ((D.seen depot.old).input slot) }
        ensures finishes { Finishes slot (D.seen depot.old) (D.seen depot.new) self.now result }
    {
        if self.first.is_some() {
            return Ok(self.first);
        }
        let mut more = [0];
        let got = fill(depot, slot, &mut more)?;
        if got == 0 {
            Ok(None)
        } else {
            Ok(Some(self.at))
        }
    }

    // Reads on against as many bytes as are read at once.
    fn meet<D: Depot>(&mut self, depot: &mut D, slot: u32, wanted: &[u8]) -> Result<(), Failed>
        requires input { IsTrue ((D.seen depot.old).input slot) }
        requires few { length wanted.now ≤ 4096 }
        ensures feeds { Feeds slot wanted.now (D.seen depot.old) (D.seen depot.new) self.old
            self.new result }
        ensures stays { OnErr result (self.new ≡ self.old) }
    {
        if self.first.is_some() {
            return Ok(());
        }
        let mut found = [0; ROOM];
        let got = fill_front(depot, slot, wanted.len(), &mut found)?;
        match first_difference(&found[..got], wanted) {
            Some(place) => self.first = Some(self.at.saturating_add(place as u64)),
            None => self.at = self.at.saturating_add(wanted.len() as u64),
        }
        Ok(())
    }
}

// Fills so many bytes at the beginning of a buffer.
fn fill_front<D: Depot>(
    depot: &mut D,
    slot: u32,
    count: usize,
    into: &mut [u8],
) -> Result<usize, Failed>
    requires input { IsTrue ((D.seen depot.old).input slot) }
    requires room { count ≤ length into.old }
    ensures fills { Fills slot (take count into.new) (D.seen depot.old) (D.seen depot.new) result }
    ensures size { length into.new ≡ length into.old }
{
    fill(depot, slot, &mut into[..count])
}

// The first place at which bytes differ from those that are wanted, or have ended.
fn first_difference(found: &[u8], wanted: &[u8]) -> Option<usize>
    requires { length found.now ≤ length wanted.now }
    ensures some { IfSome result (λ n. IsFirstDifference n found.now wanted.now) }
    ensures within { IfSome result (λ n. n < length wanted.now) }
    ensures none { IfNone result (found.now ≡ wanted.now) }
{
    if found == wanted {
        return None;
    }
    let mut place = 0;
    while place < found.len() {
        if found[place] != wanted[place] {
            return Some(place);
        }
        place += 1;
    }
    if place < wanted.len() {
        Some(place)
    } else {
        None
    }
}
