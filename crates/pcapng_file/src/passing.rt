//! Blocks of which nothing is held but their lengths: the rest goes by through a small piece.
ghost use Rattle.std.specs.Prelude.{◌≡◌, ◌≤◌, ◌%◌, length, IsTrue};
ghost use Rattle.pcap_file.specs.Reading.{supply};
ghost use Rattle.pcapng_file.specs.Passing.{Skips, HasSecond, PassesOver, begun};
ghost use Rattle.pcapng_file.specs.declared.block.Kind.TheVariants.{Other};

use crate::block::{HEAD, Head};
use crate::fault::{NgError, NgWhy, fault};
use crate::packet::Content;
use crate::reading::Block;
use fab_base::{Depot, Failed};
use pcap_file::{Ahead, number_at};

const PIECE: usize = 512;

// A block of another kind, whose first 12 bytes these are: its second length is compared.
pub(crate) fn pass_over<D: Depot>(
    depot: &mut D,
    slot: u32,
    ahead: &mut Ahead,
    front: &[u8],
    head: Head,
    at: u64,
) -> Result<Option<Block>, NgError>
    requires input { IsTrue ((D.seen depot.old).input slot) }
    requires front { length front.now ≡ 12 }
    requires size { (12 ≤ head.size) × (head.size % 4 ≡ 0) }
    requires other { head.kind ≡ Other }
    ensures passes { PassesOver slot at (begun front.now head)
        (supply ahead.old (D.seen depot.old)) (supply ahead.new (D.seen depot.new)) result }
{
    match second_length(depot, slot, ahead, front, head) {
        Ok(Some(size)) => {
            if size != head.size {
                return Err(fault(at, NgWhy::Length));
            }
            Ok(Some(Block {
                size,
                content: Content::Nothing,
            }))
        }
        Ok(None) => Err(fault(at, NgWhy::Cut)),
        Err(failed) => Err(NgError::Read(failed)),
    }
}

// The length that stands at a block's end, or none where the bytes end before.
fn second_length<D: Depot>(
    depot: &mut D,
    slot: u32,
    ahead: &mut Ahead,
    front: &[u8],
    head: Head,
) -> Result<Option<u32>, Failed>
    requires input { IsTrue ((D.seen depot.old).input slot) }
    requires front { length front.now ≡ 12 }
    requires size { (12 ≤ head.size) × (head.size % 4 ≡ 0) }
    ensures second { HasSecond slot (begun front.now head)
        (supply ahead.old (D.seen depot.old)) (supply ahead.new (D.seen depot.new)) result }
{
    let size = head.size as usize;
    if size == HEAD {
        return Ok(Some(number_at(head.big, front, HEAD - 4)));
    }
    let middle = size - HEAD - 4;
    if skip(depot, slot, ahead, middle)? < middle {
        return Ok(None);
    }
    let mut last = [0u8; 4];
    if ahead.pull(depot, slot, &mut last)? < 4 {
        return Ok(None);
    }
    Ok(Some(number_at(head.big, &last, 0)))
}

// Passes over so many bytes, and answers how many there were: fewer only at the end.
fn skip<D: Depot>(
    depot: &mut D,
    slot: u32,
    ahead: &mut Ahead,
    count: usize,
) -> Result<usize, Failed>
    requires { IsTrue ((D.seen depot.old).input slot) }
    ensures skips { Skips slot count (supply ahead.old (D.seen depot.old))
        (supply ahead.new (D.seen depot.new)) result }
{
    let mut piece = [0u8; PIECE];
    let mut passed = 0;
    while passed < count {
        let wanted = (count - passed).min(PIECE);
        let got = ahead.pull(depot, slot, &mut piece[..wanted])?;
        passed += got;
        if got < wanted {
            return Ok(passed);
        }
    }
    Ok(passed)
}
