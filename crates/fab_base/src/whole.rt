//! Whole buffers and whole files through a depot, and whole texts to a sink.
ghost use Rattle.std.specs.Prelude.{◌≡◌, ◌<◌, ◌≤◌, IsTrue, IfOk, length, vec_len};
ghost use Rattle.fab_base.specs.Seen.{Fills, PutsAll};
ghost use Rattle.fab_base.specs.Sunk.{SinksAll};
ghost use Rattle.fab_base.specs.Whole.{WholeRead};

use crate::{Depot, Failed, Sink};
use std::alloc::{AllocError, Global};

// The bytes that are read at once.
const PIECE: usize = 65_536;

/// Why a file isn't read whole.
#[derive(Clone, Copy, Debug, PartialEq, Eq)]
pub enum WholeError {
    /// More bytes than the limit were left.
    Bytes,
    /// A read failed.
    Read(Failed),
    /// Memory was refused.
    Memory,
}

/// Fills a buffer from an open input, and answers how much of it: less than all only at the end.
pub fn fill<D: Depot>(depot: &mut D, slot: u32, into: &mut [u8]) -> Result<usize, Failed>
    requires { IsTrue ((D.seen depot.old).input slot) }
    ensures fills { Fills slot into.new (D.seen depot.old) (D.seen depot.new) result }
{
    let mut got = 0;
    while got < into.len() {
        let count = depot.fetch(slot, &mut into[got..])?;
        if count == 0 {
            break;
        }
        got += count;
    }
    Ok(got)
}

/// Puts all these bytes to an open output. After an error it has put a prefix of them.
pub fn put_all<D: Depot>(depot: &mut D, slot: u32, from: &[u8]) -> Result<(), Failed>
    requires { IsTrue ((D.seen depot.old).output slot) }
    ensures puts { PutsAll slot from.now (D.seen depot.old) (D.seen depot.new) result }
{
    let mut done = 0;
    while done < from.len() {
        done += depot.put(slot, &from[done..])?;
    }
    Ok(())
}

/// Puts all these bytes to a sink. After an error it has put a prefix of them.
pub fn say_all<K: Sink>(say: &mut K, from: &[u8]) -> Result<(), Failed>
    ensures says { SinksAll from.now (K.sunk say.old) (K.sunk say.new) result }
{
    let mut done = 0;
    while done < from.len() {
        done += say.put(&from[done..])?;
    }
    Ok(())
}

/// All that an open input has left, within a limit of bytes.
pub fn read_whole<D: Depot>(
    alloc: Global,
    depot: &mut D,
    slot: u32,
    limit: u64,
) -> Result<Vec<u8>, WholeError>
    requires input { IsTrue ((D.seen depot.old).input slot) }
    ensures reads { WholeRead slot limit (D.seen depot.old) (D.seen depot.new) result }
    ensures within { IfOk result (λ v. length v.items ≤ limit) }
{
    match zeros(alloc, PIECE) {
        Ok(mut piece) => read_by(alloc, depot, slot, limit, &mut piece),
        Err(_) => Err(WholeError::Memory),
    }
}

// The same through a buffer, piece by piece.
fn read_by<D: Depot>(
    alloc: Global,
    depot: &mut D,
    slot: u32,
    limit: u64,
    piece: &mut [u8],
) -> Result<Vec<u8>, WholeError>
    requires input { IsTrue ((D.seen depot.old).input slot) }
    requires some { 0 < length piece.old }
    ensures reads { WholeRead slot limit (D.seen depot.old) (D.seen depot.new) result }
    ensures within { IfOk result (λ v. length v.items ≤ limit) }
{
    let mut whole = Vec::new(alloc);
    let mut room = limit;
    loop {
        let got = match fill(depot, slot, piece) {
            Ok(got) => got,
            Err(failed) => return Err(WholeError::Read(failed)),
        };
        if got as u64 > room {
            return Err(WholeError::Bytes);
        }
        room -= got as u64;
        let Ok(()) = whole.extend_from_slice(&piece[..got]) else {
            return Err(WholeError::Memory);
        };
        if got < piece.len() {
            return Ok(whole);
        }
    }
}

// So many bytes to read into.
fn zeros(alloc: Global, count: usize) -> Result<Vec<u8>, AllocError>
    ensures { IfOk result (λ v. vec_len v ≡ count) }
{
    Vec::from_elem(alloc, 0, count)
}
