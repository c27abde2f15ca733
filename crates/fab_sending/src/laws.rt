//! What is sent follows from the tables before an entry. These functions do nothing: their
//! contracts are the laws.
ghost use Rattle.fab_sending.specs.Laws.{FramesSend, FramesTell, TicksSend, TicksTell};

use crate::replies_fit;
use fab_policy::{journal_steps, tables_change};

/// The state changes of a tick follow from the tables before it.
pub fn ticks_tell()
    ensures { TicksTell }
{
    // Law: what a tick changes in the tables, which are whole where each address is found in them.
    journal_steps();
    tables_change();
}

/// The state changes of a frame follow from the tables before it.
#[tactic(auto, using(crate::proofs::Telling::frames_tell))]
pub fn frames_tell()
    ensures { FramesTell }
{
    // Law: what a frame leaves in the tables, which are whole where each address is found in them.
    journal_steps();
    tables_change();
}

/// The messages of a tick are what it sends.
pub fn ticks_send()
    ensures { TicksSend }
{
    // Law: its state changes follow from the tables before it; the messages are these and more.
    ticks_tell();
}

/// The messages of a frame are what it sends.
#[tactic(auto, using(crate::proofs::Sending::frames_send))]
pub fn frames_send()
    ensures { FramesSend }
{
    // Law: its state changes follow from the tables before it, and its replies are messages' bytes.
    frames_tell();
    replies_fit();
}
