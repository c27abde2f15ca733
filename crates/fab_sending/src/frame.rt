//! What a frame sends.
ghost use Rattle.std.specs.Prelude.{◌≡◌, ◌≤◌, ℕ, List, length, IfOk, IsSome, Some, true, unwrap_or};
ghost use Rattle.ct_messages.specs.Ask.{view};
ghost use Rattle.ct_messages.specs.CanWrite.{CanTell};
ghost use Rattle.ct_messages.specs.Server.{is_registration};
ghost use Rattle.fab_base.specs.declared.values.Caught.{Caught as Captured};
ghost use Rattle.fab_policy.specs.Classes.{IsRepliedFor, IsSettledFor, of_replied, of_settled};
ghost use Rattle.heard_frames.specs.Heard.{ask_of};
ghost use Rattle.fab_policy.specs.Queries.{query};
ghost use Rattle.fab_policy.specs.Replies.{asker_of};
ghost use Rattle.fab_policy.specs.State.{LivePort, now_of, port_at};
ghost use Rattle.fab_policy.specs.Steps.{InPool};
ghost use Rattle.fab_policy.specs.declared.verdict.Verdict.{Verdict as Ruling};
ghost use Rattle.fab_policy.specs.declared.verdict.Verdict.TheVariants.{Answered, Granted, Registered};
ghost use Rattle.fab_roster.specs.Changes.{IsSize};
ghost use Rattle.fab_sending.specs.Messages.{at_moment, changes};
ghost use Rattle.fab_sending.specs.Notices.{notices_of_frame};
ghost use Rattle.fab_sending.specs.Sends.{AreParts, FrameSends, IsAnswer, IsGrant};

use crate::answers::frames_of_answer;
use crate::changing::{grant_changes, logout_changes, now, registration_changes};
use crate::laws::{frames_send, frames_tell};
use crate::noticing::rscns_after;
use crate::replies::{accept, frames_of, reply};
use crate::{Before, Grant, OutList, Sends};
use ct_messages::{CtAsk, CtTell};
use fab_base::{Moment, NoMemory, PortNo};
use fab_policy::{Asker, Replied, Settled};
use fc_frames::MOST_PAYLOAD;
use std::alloc::Global;

/// What a frame of a port sends by a settled verdict: an answer in FIP, itself, or nothing. It
/// stands in the entry at this place of the entries.
pub fn frame_sends(
    alloc: Global,
    before: &Before<'_>,
    port: PortNo,
    entry: usize,
    verdict: Settled,
) -> Result<Sends, NoMemory>
    ensures { IfOk result (λ s. (caught : Captured) → IsSettledFor port caught verdict
        → FrameSends before.now port entry caught (of_settled verdict) s) }
{
    let frames = frames_of(alloc, now(before.roster), port, entry, verdict)?;
    let changes = OutList::empty(alloc);
    let sends = sends_of(alloc, before, frames, changes)?;
    Ok(sends)
}

/// What a frame of a port sends by a verdict that is replied to its sender: the reply, and the
/// state changes.
pub fn reply_sends(
    alloc: Global,
    before: &Before<'_>,
    port: PortNo,
    verdict: Replied,
    to: Asker,
) -> Result<Sends, NoMemory>
    ensures { IfOk result (λ s. (entry : ℕ) (caught : Captured) → IsRepliedFor caught verdict
        → to ≡ asker_of caught
        → FrameSends before.now port entry caught (of_replied verdict) s) }
{
    let moment = clock(before);
    let changes = reply_changes(alloc, before, &verdict)?;
    let frames = reply(alloc, moment, port, verdict, to)?;
    let sends = sends_of(alloc, before, frames, changes)?;
    Ok(sends)
}

/// What a login sends that gets an address: its accept, and the state changes.
pub fn grant_sends(
    alloc: Global,
    before: &Before<'_>,
    port: PortNo,
    grant: &Grant<'_>,
) -> Result<Sends, NoMemory>
    ensures { IfOk result (λ s. (entry : ℕ) (caught : Captured)
        → IsGrant before.now.roster.now.tables port caught grant.now
        → FrameSends before.now port entry caught (Granted grant.now.address) s) }
{
    let frames = accept(alloc, clock(before), port, grant)?;
    let changes = grant_changes(alloc, before, grant)?;
    let sends = sends_of(alloc, before, frames, changes)?;
    Ok(sends)
}

/// What a registration at the name server sends that isn't refused, of a live N_Port: its accept,
/// and the state changes.
pub fn registration_sends(
    alloc: Global,
    before: &Before<'_>,
    port: PortNo,
    to: Asker,
    ask: &CtAsk<'_>,
) -> Result<Sends, NoMemory>
    requires registers { is_registration (view ask.now) ≡ true }
    requires live { IsSome (port_at to.s_id before.now.roster.now.tables.ports) }
    ensures { IfOk result (λ s. (entry : ℕ) (caught : Captured) → to ≡ asker_of caught
        → view ask.now ≡ ask_of caught
        → FrameSends before.now port entry caught Registered s) }
{
    let moment = clock(before);
    let frames = frames_of_answer(alloc, moment, port, to, &CtTell::Done, MOST_PAYLOAD)?;
    let changes = registration_changes(alloc, before, to.s_id, ask)?;
    let sends = sends_of(alloc, before, frames, changes)?;
    Ok(sends)
}

/// What a query of the name server sends, of a live N_Port: this answer, cut into frames of the
/// receive size that it has at the name server.
pub fn answer_sends(
    alloc: Global,
    before: &Before<'_>,
    port: PortNo,
    to: Asker,
    tell: &CtTell,
    size: u16,
) -> Result<Sends, NoMemory>
    requires live { IsSome (port_at to.s_id before.now.roster.now.tables.ports) }
    requires answer { (b : LivePort)
        → port_at to.s_id before.now.roster.now.tables.ports ≡ Some b
        → IsAnswer before.now b tell.now }
    requires asked { (b : LivePort)
        → port_at to.s_id before.now.roster.now.tables.ports ≡ Some b
        → size ≡ unwrap_or b.server 2112 }
    requires writable { CanTell tell.now }
    requires few { length before.now.roster.now.tables.ports ≤ 65535 }
    requires size { IsSize size }
    ensures { IfOk result (λ s. (entry : ℕ) (caught : Captured) → to ≡ asker_of caught
        → ((b : LivePort) → port_at to.s_id before.now.roster.now.tables.ports ≡ Some b
        → tell.now ≡ query before.now.config.now before.now.roster.now.tables b
        (ask_of caught))
        → FrameSends before.now port entry caught Answered s) }
{
    let frames = frames_of_answer(alloc, now(before.roster), port, to, tell, size)?;
    let changes = OutList::empty(alloc);
    let sends = sends_of(alloc, before, frames, changes)?;
    Ok(sends)
}

// The frames of an entry: its replies, and its state changes behind them.
fn sends_of(
    alloc: Global,
    before: &Before<'_>,
    mut replies: OutList,
    changes: OutList,
) -> Result<Sends, NoMemory>
    ensures { IfOk result (λ s. (port entry : ℕ) (caught : Captured) (v : Ruling)
        → AreParts before.now port entry caught v replies changes
        → FrameSends before.now port entry caught v s) }
{
    // Law: the messages of a frame are what it sends, and its state changes follow from the tables
    // before it; FrameSends counts in both.
    frames_send();
    frames_tell();
    // For the proof: the N_Ports are those of the pool.
    let _ = clock(before);
    let rscns = rscns_after(before.rscns, changes.len());
    replies.append(alloc, changes)?;
    Ok(Sends {
        outs: replies,
        rscns,
    })
}

// The state changes of a frame that is replied to.
fn reply_changes(alloc: Global, before: &Before<'_>, verdict: &Replied) -> Result<OutList, NoMemory>
    requires { InPool before.now.config.now before.now.roster.now.tables.ports }
    ensures { IfOk result (λ outs. (port : ℕ) (caught : Captured) → outs
        ≡ at_moment (now_of before.now.roster.now.tables) (changes before.now.rscns
        (notices_of_frame before.now.config.now before.now.roster.now.tables port caught
        (of_replied verdict.now)))) }
{
    match verdict {
        Replied::Logout { address, .. } => logout_changes(alloc, before, *address),
        Replied::Rejected { .. }
        | Replied::NsLogin(_)
        | Replied::NsLogout
        | Replied::Watching(_)
        | Replied::Refused(..) => Ok(OutList::empty(alloc)),
    }
}

// The clock before an entry, 0 before the first tick.
#[tactic(auto, using(crate::proofs::Joining::in_pool))]
fn clock(before: &Before<'_>) -> Moment
    ensures now { result ≡ now_of before.now.roster.now.tables }
    ensures pool { InPool before.now.config.now before.now.roster.now.tables.ports }
{
    // For the proof: the roster is sound, so its N_Ports ascend by their addresses.
    let _ = before.roster.len();
    now(before.roster)
}
