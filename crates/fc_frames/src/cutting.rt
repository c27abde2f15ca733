//! The pieces of a payload that is too long for one frame.
ghost use Rattle.std.specs.Prelude.{◌≡◌, ◌<◌, ◌≤◌, ◌%◌, ◌^◌, IfOk, All, vec_len};
ghost use Rattle.fc_frames.specs.Pieces.{Cuts};

use crate::Piece;
use fab_base::NoMemory;
use std::alloc::{AllocError, Global};

/// Cuts a length into adjoining ranges of `size` bytes, the last one shorter where needed.
pub fn pieces(alloc: Global, length: usize, size: usize) -> Result<Vec<Piece>, NoMemory>
    requires some { 4 ≤ length }
    requires most { length ≤ 2 ^ 20 }
    requires words { length % 4 ≡ 0 }
    requires least_size { 256 ≤ size }
    requires most_size { size ≤ 2112 }
    requires size_words { size % 4 ≡ 0 }
    ensures cuts { IfOk result (λ v. Cuts length size 0 v.items) }
    ensures within { IfOk result (λ v. All (λ p. (p.from < p.to) × (p.to ≤ length)) v.items) }
    ensures few { IfOk result (λ v. vec_len v ≤ 4096) }
{
    let ranges = ranges(alloc, length, size)?;
    Ok(ranges)
}

fn ranges(alloc: Global, length: usize, size: usize) -> Result<Vec<Piece>, AllocError>
    requires some { 4 ≤ length }
    requires most { length ≤ 2 ^ 20 }
    requires least_size { 256 ≤ size }
    ensures cuts { IfOk result (λ v. Cuts length size 0 v.items) }
{
    let mut ranges = Vec::new(alloc);
    let mut from = 0;
    while length - from > size {
        ranges.push(Piece {
            from,
            to: from + size,
            last: false,
        })?;
        from += size;
    }
    ranges.push(Piece {
        from,
        to: length,
        last: true,
    })?;
    Ok(ranges)
}
