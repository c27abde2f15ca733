//! The replies to a frame by its verdict, or the frame itself where it goes on.
ghost use Rattle.std.specs.Prelude.{◌≡◌, ◌∷◌, [], ℕ, List, IfOk, Some, is_some, true, option_map, if◌then◌else◌};
ghost use Rattle.fab_config.specs.Settings.{Settings};
ghost use Rattle.fab_base.specs.declared.values.Caught.{Caught as Captured};
ghost use Rattle.fab_policy.specs.Classes.{IsRepliedFor, IsSettledFor, of_replied, of_settled};
ghost use Rattle.heard_frames.specs.Heard.{login_of};
ghost use Rattle.fab_policy.specs.Replies.{asker_of, kind_asked};
ghost use Rattle.fab_policy.specs.State.{Tables};
ghost use Rattle.fab_policy.specs.declared.event.Event.{Event as Entry};
ghost use Rattle.fab_policy.specs.declared.verdict.Verdict.TheVariants.{Granted};
ghost use Rattle.fab_sending.specs.MessageLaws.{messages};
ghost use Rattle.fab_sending.specs.Message.{AreSendable, can_send, frame_at};
ghost use Rattle.fab_sending.specs.declared.message.Answer.TheVariants.{Accept, Reject};
ghost use Rattle.fab_sending.specs.declared.message.OutMessage.TheVariants as out;
ghost use Rattle.fab_sending.specs.Messages.{at_moment};
ghost use Rattle.fab_sending.specs.Sends.{IsAccept};

use crate::answers::frames_of_answer;
use crate::{Answer, Grant, Out, OutList, OutMessage, data_frames_go_on};
use ct_messages::CtTell;
use fab_base::{Moment, NoMemory, PortNo};
use fab_policy::{Asker, Replied, Settled};
use fc_frames::MOST_PAYLOAD;
use fip_codec::LoginKind;
use std::alloc::Global;

/// What a settled verdict of a frame of this port sends: an answer in FIP, the frame itself where
/// it goes on, or nothing. The frame stands in the entry at this place.
pub fn frames_of(
    alloc: Global,
    moment: Moment,
    port: PortNo,
    entry: usize,
    verdict: Settled,
) -> Result<OutList, NoMemory>
    ensures made { IfOk result (λ outs. (c : Settings) (T : Tables) (caught : Captured)
        → IsSettledFor port caught verdict → outs
        ≡ at_moment moment (messages c T port entry caught (of_settled verdict))) }
    ensures sendable { IfOk result (λ outs. (events : List Entry) (caught : Captured)
        → IsSettledFor port caught verdict → frame_at entry events ≡ Some caught
        → AreSendable events outs) }
{
    // Law: a frame with a body of FCoE can go on, by its size; the clause sendable says so.
    data_frames_go_on();
    let (port, message) = match verdict {
        Settled::Vlans { to, untagged } => (port, OutMessage::Vlans { to, untagged }),
        Settled::Advertised { to, size } => (port, OutMessage::Solicited { to, size }),
        Settled::Forwarded { port, to } => (port, OutMessage::Forwarded { entry, to }),
        Settled::AliveNode(_) | Settled::AlivePort(_) | Settled::Noted | Settled::Dropped(_) =>
            return Ok(OutList::empty(alloc)),
    };
    single_message(alloc, moment, port, message)
}

/// The reply to a frame of this port by a verdict that is replied to its sender.
pub fn reply(
    alloc: Global,
    moment: Moment,
    port: PortNo,
    verdict: Replied,
    to: Asker,
) -> Result<OutList, NoMemory>
    ensures made { IfOk result (λ outs. (c : Settings) (T : Tables) (entry : ℕ)
        (caught : Captured) → IsRepliedFor caught verdict → to ≡ asker_of caught → outs
        ≡ at_moment moment (messages c T port entry caught (of_replied verdict))) }
    ensures sendable { IfOk result (λ outs. (events : List Entry) → AreSendable events outs) }
{
    let message = match verdict {
        Replied::Rejected {
            login,
            reason,
            explanation,
        } => rejected(to, login, reason, explanation),
        Replied::Logout { kind, .. } => OutMessage::LoginReply {
            to,
            kind,
            answer: Answer::Accept,
        },
        Replied::NsLogin(_) => served(to, Answer::ServerLogin),
        Replied::NsLogout => served(to, Answer::Accept),
        Replied::Watching(_) => served(to, Answer::Accept),
        Replied::Refused(reason, explanation) => {
            let tell = CtTell::Reject {
                reason,
                explanation,
            };
            return frames_of_answer(alloc, moment, port, to, &tell, MOST_PAYLOAD);
        }
    };
    single_message(alloc, moment, port, message)
}

/// The accept of a login that gets an address.
pub(crate) fn accept(
    alloc: Global,
    moment: Moment,
    port: PortNo,
    grant: &Grant<'_>,
) -> Result<OutList, NoMemory>
    ensures made { IfOk result (λ outs. (c : Settings) (T : Tables) (entry : ℕ)
        (caught : Captured) → IsAccept caught grant.now → outs
        ≡ at_moment moment (messages c T port entry caught (Granted grant.now.address))) }
    ensures sendable { IfOk result (λ outs. (events : List Entry) → AreSendable events outs) }
{
    let message = OutMessage::LoginAccept {
        to: grant.to,
        kind: grant.kind,
        port,
        several: grant.several,
        address: grant.address,
    };
    single_message(alloc, moment, port, message)
}

// A list of this message.
fn single_message(
    alloc: Global,
    moment: Moment,
    port: PortNo,
    message: OutMessage,
) -> Result<OutList, NoMemory>
    ensures made { IfOk result (λ outs. outs ≡ at_moment moment ((port, message) ∷ [])) }
    ensures sendable { IfOk result (λ outs. (events : List Entry)
        → can_send events message ≡ true → AreSendable events outs) }
{
    let mut outs = Vec::with_capacity(alloc, 1)?;
    outs.push_reserved(Out {
        port,
        moment,
        message,
    });
    Ok(OutList::from_vec(outs))
}

// The reject of a login in FIP of this kind, or else of a link service.
fn rejected(to: Asker, login: Option<LoginKind>, reason: u8, explanation: u8) -> OutMessage
    ensures made { (caught : Captured) → login ≡ option_map (λ l. l.0) (login_of caught)
        → result ≡ (if is_some (login_of caught)
        then out.LoginReply to (kind_asked caught) (Reject reason explanation)
        else out.ServiceReply to (Reject reason explanation)) }
    ensures sendable { (events : List Entry) → can_send events result ≡ true }
{
    let answer = Answer::Reject(reason, explanation);
    match login {
        Some(kind) => OutMessage::LoginReply { to, kind, answer },
        None => OutMessage::ServiceReply { to, answer },
    }
}

// The answer to a link service.
fn served(to: Asker, answer: Answer) -> OutMessage
    ensures { result ≡ out.ServiceReply to answer }
{
    OutMessage::ServiceReply { to, answer }
}
