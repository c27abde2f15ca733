//! From a payload to bytes.
ghost use Rattle.std.specs.Prelude.{◌≡◌, ◌≤◌, ◌+◌, ◌++◌, length, List, ℕ, Ok, OnOk, OnErr};
ghost use Rattle.std.specs.Prelude.{IfOk, vec_len};
ghost use Rattle.arrayvec.specs.ArrayVec.{array_vec_len};
ghost use Rattle.fc_frames.specs.Frame.{IsPayload};
ghost use Rattle.els_messages.specs.Els as spec;

use crate::table::{FDISC, FLOGI, LOGO, LS_ACC, LS_RJT, PLOGI, RSCN, SCR};
use crate::{Els, LoginParms};
use arrayvec::ArrayVec;
use fab_base::{FcId, NoMemory, Wwn, put};
use std::alloc::Global;

/// The bytes of the longest payload, a state change of 255 pages.
const MOST: usize = 1024;

/// A payload that is made without memory.
type Payload = ArrayVec<u8, MOST>;

/// Appends a payload; reserved bytes are 0. Where memory is refused, `out` is as it was.
pub fn write_els(_alloc: Global, els: &Els<'_>, out: &mut Vec<u8>) -> Result<(), NoMemory>
    requires { spec.CanWrite (spec.view els.now) }
    ensures ok { OnOk result (out.new.items ≡ out.old.items ++ spec.written (spec.view els.now)) }
    ensures grammar { OnOk result (spec.IsEls (spec.view els.now)
        (spec.written (spec.view els.now))) }
    ensures back { OnOk result ((more : List ℕ) → spec.MayFollow (spec.view els.now) more
        → spec.decoded (spec.written (spec.view els.now) ++ more) ≡ Ok (spec.view els.now)) }
    ensures size { OnOk result (length (spec.written (spec.view els.now)) ≡ spec.written_length
        (spec.view els.now)) }
    ensures payload { OnOk result (IsPayload (spec.written (spec.view els.now))) }
    ensures err { OnErr result (out.new.items ≡ out.old.items) }
{
    let bytes = bytes_of(els);
    out.extend_from_slice(&bytes)?;
    Ok(())
}

/// The bytes of a payload alone.
pub fn els_bytes(alloc: Global, els: &Els<'_>) -> Result<Vec<u8>, NoMemory>
    requires { spec.CanWrite (spec.view els.now) }
    ensures bytes { IfOk result (λ v. v.items ≡ spec.written (spec.view els.now)) }
    ensures payload { IfOk result (λ v. IsPayload v.items) }
    ensures size { IfOk result (λ v. vec_len v ≡ spec.written_length (spec.view els.now)) }
{
    let mut payload = Vec::new(alloc);
    write_els(alloc, els, &mut payload)?;
    Ok(payload)
}

/// A payload that begins with these bytes.
fn begun(bytes: &[u8]) -> Payload
    requires { length bytes.now ≤ MOST }
    ensures bytes { result.items ≡ bytes.now }
    ensures size { array_vec_len result ≡ length bytes.now }
{
    let mut payload = Payload::new();
    put(&mut payload, bytes);
    payload
}

#[tactic(auto, unfolding(crate::specs::Els::written))]
fn bytes_of(els: &Els<'_>) -> Payload
    requires { spec.CanWrite (spec.view els.now) }
    ensures bytes { result.items ≡ spec.written (spec.view els.now) }
    ensures typed { spec.IsTyped (spec.view els.now) }
{
    match *els {
        Els::Flogi(parms) => login(FLOGI, &parms),
        Els::Fdisc(parms) => login(FDISC, &parms),
        Els::Plogi(parms) => login(PLOGI, &parms),
        Els::LoginAccept(parms) => login(LS_ACC, &parms),
        Els::Accept => begun(&[LS_ACC, 0, 0, 0]),
        Els::Reject {
            reason,
            explanation,
        } => begun(&[LS_RJT, 0, 0, 0, 0, reason, explanation, 0]),
        Els::Logo { address, name } => logout(address, name),
        Els::Scr { function } => begun(&[SCR, 0, 0, 0, 0, 0, 0, function]),
        Els::Rscn { pages } => state_change(pages),
        Els::Other { .. } => unreachable!(),
    }
}

/// A login payload: version 2020, no credit, no other class than 3.
fn login(command: u8, parms: &LoginParms) -> Payload
    ensures bytes { result.items ≡ spec.login_bytes command parms.now }
    ensures typed { spec.AreTyped parms.now }
{
    let mut payload = begun(&[command, 0, 0, 0, 0x20, 0x20, 0, 0]);
    put(&mut payload, &parms.features.to_be_bytes());
    put(&mut payload, &parms.size.to_be_bytes());
    put(&mut payload, &parms.ra_tov.to_be_bytes());
    put(&mut payload, &parms.ed_tov.to_be_bytes());
    put(&mut payload, &parms.port_name.0.to_be_bytes());
    put(&mut payload, &parms.node_name.0.to_be_bytes());
    put(&mut payload, &[0; 32]); // classes 1 and 2
    put(&mut payload, &parms.class3);
    put(&mut payload, &[0; 32]); // auxiliary parameters, vendor
    payload
}

#[tactic(auto, unfolding(crate::specs::Els::written))]
fn logout(address: FcId, name: Wwn) -> Payload
    ensures bytes { result.items ≡ spec.written (spec.Logo address name) }
    ensures typed { spec.IsTyped (spec.Logo address name) }
{
    let [_, high, mid, low] = address.value().to_be_bytes();
    let mut payload = begun(&[LOGO, 0, 0, 0, 0, high, mid, low]);
    put(&mut payload, &name.0.to_be_bytes());
    payload
}

#[tactic(auto, unfolding(crate::specs::Els::written))]
fn state_change(pages: &[u8]) -> Payload
    requires { length pages.now ≤ 1020 }
    ensures { result.items ≡ spec.written (spec.Rscn pages.now) }
{
    let [high, low] = (4 + pages.len() as u16).to_be_bytes();
    let mut payload = begun(&[RSCN, 4, high, low]);
    put(&mut payload, pages);
    payload
}
