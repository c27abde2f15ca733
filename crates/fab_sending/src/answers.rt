//! Answers of the name server, cut into frames.
ghost use Rattle.std.specs.Prelude.{◌≡◌, ◌<◌, ◌≤◌, ◌^◌, All, List, IfOk, length};
ghost use Rattle.ct_messages.specs.Answer as ct;
ghost use Rattle.ct_messages.specs.CanWrite.{CanTell};
ghost use Rattle.fab_policy.specs.declared.event.Event.{Event as Entry};
ghost use Rattle.fab_sending.specs.MessageLaws.{numbered, on};
ghost use Rattle.fab_sending.specs.Message.{AreSendable};
ghost use Rattle.fab_roster.specs.Changes.{IsSize};
ghost use Rattle.fab_sending.specs.Framed.{framed};
ghost use Rattle.fab_sending.specs.Messages.{at_moment};
ghost use Rattle.fc_frames.specs.Pieces as fc;

use crate::{Out, OutList, OutMessage};
use ct_messages::{CtTell, write_tell};
use fab_base::{Bytes, Moment, NoMemory, PortNo};
use fab_policy::Asker;
use fc_frames::{Piece, pieces, ranges_have_the_pieces};
use std::alloc::Global;

/// The frames of an answer, each of at most this size.
pub fn frames_of_answer(
    alloc: Global,
    moment: Moment,
    port: PortNo,
    to: Asker,
    tell: &CtTell,
    size: u16,
) -> Result<OutList, NoMemory>
    requires writable { CanTell tell.now }
    requires short { ct.size_of tell.now ≤ 2 ^ 20 }
    requires size { IsSize size }
    ensures made { IfOk result (λ outs. outs ≡ at_moment moment (on port (numbered to 0
        (fc.pieces (length (ct.written tell.now)) size (ct.written tell.now))))) }
    ensures sendable { IfOk result (λ outs. (events : List Entry) → AreSendable events outs) }
{
    // Law: ranges that cut a payload have its pieces; the clause made counts in pieces.
    ranges_have_the_pieces();
    let mut bytes = Vec::new(alloc);
    write_tell(alloc, tell, &mut bytes)?;
    let ranges = pieces(alloc, bytes.len(), usize::from(size))?;
    let outs = frames(alloc, moment, port, to, bytes.as_slice(), ranges.as_slice())?;
    Ok(outs)
}

// A frame for each of these ranges of bytes, in their order.
fn frames(
    alloc: Global,
    moment: Moment,
    port: PortNo,
    to: Asker,
    bytes: &[u8],
    ranges: &[Piece],
) -> Result<OutList, NoMemory>
    requires within { All (λ p. (p.from < p.to) × (p.to ≤ length bytes.now)) ranges.now }
    requires few { length ranges.now ≤ 4096 }
    ensures { IfOk result (λ outs. outs ≡ framed port moment to bytes.now 0 ranges.now) }
{
    let mut outs = OutList::empty(alloc);
    for (count, range) in ranges.iter().enumerate() {
        let payload = Bytes::copy(alloc, &bytes[range.from..range.to])?;
        let message = OutMessage::Ct {
            to,
            count: count as u16,
            last: range.last,
            payload,
        };
        outs.push(
            alloc,
            Out {
                port,
                moment,
                message,
            },
        )?;
    }
    Ok(outs)
}
