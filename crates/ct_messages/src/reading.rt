//! From bytes to a request.
ghost use Rattle.std.specs.Prelude.{◌≡◌, true, MatchResult, IfOk, Ok, Err};
ghost use Rattle.ct_messages.specs.CanWrite.{CanWrite, HasByte};
ghost use Rattle.ct_messages.specs.Server.{is_registration};
ghost use Rattle.ct_messages.specs.Ct as spec;

use crate::command::Command;
use crate::{CtAsk, CtFault, DIRECTORY, NAME_SERVER, PREAMBLE};
use fab_base::fields::u16_at;

/// The request in this payload. Only type, subtype and command of the preamble are tested, and
/// bytes behind the command's own are ignored.
#[tactic(auto, unfolding(crate::specs::Ct::decoded))]
pub fn read_ask(payload: &[u8]) -> Result<CtAsk<'_>, CtFault>
    ensures exact { MatchResult result (λ ask. spec.decoded payload.now ≡ Ok (spec.view ask))
        (λ e. spec.decoded payload.now ≡ Err e) }
    ensures grammar { IfOk result (λ ask. spec.IsCt (spec.view ask) payload.now) }
    ensures writes { IfOk result (λ ask. is_registration (spec.view ask) ≡ true
        → CanWrite (spec.view ask)) }
    ensures byte { IfOk result (λ ask. HasByte (spec.view ask)) }
{
    if payload.len() < PREAMBLE {
        return Err(CtFault::Short);
    }
    if payload[4] != DIRECTORY || payload[5] != NAME_SERVER {
        return Err(CtFault::NotNameServer);
    }
    let code = u16_at(payload, 8);
    let Some(command) = Command::of(code) else {
        return Ok(CtAsk::Unknown(code));
    };
    if payload.len() < PREAMBLE + command.needs(payload) {
        return Err(CtFault::Size);
    }
    Ok(command.asks(payload))
}
