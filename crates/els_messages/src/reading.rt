//! From bytes to a payload.
ghost use Rattle.std.specs.Prelude.{◌≡◌, ◌+◌, ◌<◌, ◌≤◌};
ghost use Rattle.std.specs.Prelude.{false, MatchResult, IfOk, IfSome, Ok, Err, length};
ghost use Rattle.fab_base.specs.Layout.{field, byte};
ghost use Rattle.els_messages.specs.Els as spec;

use crate::table::{
    FDISC, FLOGI, LOGIN_BYTES, LOGO, LS_ACC, LS_RJT, PLOGI, RSCN, SCR, bytes_needed,
};
use crate::{Els, ElsFault, LoginParms};
use fab_base::fields::{address_at, name_at, u16_at, u32_at};

/// The payload that these bytes are. Reserved bytes, and bytes behind those that the command needs,
/// are not looked at.
#[tactic(auto, unfolding(crate::specs::Els::decoded))]
pub fn read_els(payload: &[u8]) -> Result<Els<'_>, ElsFault>
    ensures exact { MatchResult result (λ v. spec.decoded payload.now ≡ Ok (spec.view v))
        (λ e. spec.decoded payload.now ≡ Err e) }
    ensures grammar { IfOk result (λ v. spec.IsEls (spec.view v) payload.now) }
    ensures value { IfOk result (λ v. spec.payload_of payload.now ≡ spec.view v) }
    ensures size { IfOk result (λ v. IfSome (spec.parms_in (spec.view v)) (λ p. p.size < 4096)) }
{
    if is_short(payload) {
        return Err(ElsFault::Short);
    }
    if lacks_pages(payload) {
        return Err(ElsFault::Page);
    }
    Ok(els_of(payload))
}

fn is_short(payload: &[u8]) -> bool
    ensures { result ≡ spec.is_short payload.now }
{
    payload.is_empty() || payload.len() < bytes_needed(payload[0])
}

fn lacks_pages(payload: &[u8]) -> bool
    requires { spec.bytes_needed (byte payload.now 0) ≤ length payload.now }
    ensures { result ≡ spec.lacks_pages payload.now }
{
    payload[0] == RSCN && !has_pages(payload)
}

/// What a payload that passed the tests is.
fn els_of(payload: &[u8]) -> Els<'_>
    requires enough { spec.bytes_needed (byte payload.now 0) ≤ length payload.now }
    requires pages { spec.lacks_pages payload.now ≡ false }
    ensures { spec.view result ≡ spec.payload_of payload.now }
{
    match payload[0] {
        FLOGI => Els::Flogi(parms_at(payload)),
        FDISC => Els::Fdisc(parms_at(payload)),
        PLOGI => Els::Plogi(parms_at(payload)),
        LS_ACC if payload.len() >= LOGIN_BYTES => Els::LoginAccept(parms_at(payload)),
        LS_ACC => Els::Accept,
        LS_RJT => Els::Reject {
            reason: payload[5],
            explanation: payload[6],
        },
        LOGO => Els::Logo {
            address: address_at(payload, 5),
            name: name_at(payload, 8),
        },
        SCR => Els::Scr {
            function: payload[7],
        },
        RSCN => Els::Rscn {
            pages: &payload[4..u16_at(payload, 2) as usize],
        },
        command => Els::Other { command },
    }
}

/// Whether an RSCN has pages of four bytes, at least one, and all that its length field counts.
fn has_pages(payload: &[u8]) -> bool
    requires { 8 ≤ length payload.now }
    ensures { result ≡ spec.has_pages payload.now }
{
    let length = u16_at(payload, 2) as usize;
    payload[1] == 4 && length >= 8 && length % 4 == 0 && length <= payload.len()
}

fn parms_at(payload: &[u8]) -> LoginParms
    requires { 116 ≤ length payload.now }
    ensures { result ≡ spec.parms_of payload.now }
{
    LoginParms {
        features: u16_at(payload, 8),
        size: u16_at(payload, 10) % 4096, // the low 12 bits
        ra_tov: u32_at(payload, 12),
        ed_tov: u32_at(payload, 16),
        port_name: name_at(payload, 20),
        node_name: name_at(payload, 28),
        class3: class_at(payload, 68),
    }
}

/// The parameters of a class.
fn class_at(bytes: &[u8], at: usize) -> [u8; 16]
    requires { at + 16 ≤ length bytes.now }
    ensures { result ≡ field bytes.now at 16 }
{
    match bytes[at..].first_chunk::<16>() {
        Some(parameters) => *parameters,
        None => unreachable!(),
    }
}
