//! The addresses of a seam: those of the pool, and who had or has them.
ghost use Rattle.std.specs.Prelude.{◌≡◌, ◌==◌, ◌<◌, ◌≤◌, ◌^◌, ◌∷◌, [], true, length};
ghost use Rattle.fab_pieces.specs.Seam as spec;
ghost use Rattle.fab_state.specs.Fitting as fitting;

use crate::fit::{FitFault, FitWhy, at_line};
use crate::{Past, PastList, PortList};
use fab_base::{FcId, Moment};
use fab_config::Config;

// The first address of the pool.
pub(crate) fn first_of(config: &Config) -> u32
    ensures value { result ≡ fitting.first_of config.now }
    ensures range { result < 2 ^ 24 }
{
    u32::from(config.domain) * 65536 + 256
}

// Whether the addresses are those of the pool.
pub(crate) fn are_places(config: &Config, pasts: &PastList) -> bool
    ensures value { result ≡ fitting.are_places config.now pasts.now }
    ensures few { result ≡ true → length pasts.now < 2 ^ 32 }
{
    if has_count(config, pasts) {
        are_counted(first_of(config), pasts.items())
    } else {
        false
    }
}

// Whether there are as many addresses as the pool has.
fn has_count(config: &Config, pasts: &PastList) -> bool
    ensures value { result ≡ (length pasts.now == config.now.pool) }
    ensures few { result ≡ true → length pasts.now < 2 ^ 32 }
{
    pasts.len() as u64 == u64::from(config.pool)
}

// Whether addresses go up by 1 from this one.
fn are_counted(first: u32, pasts: &[Past]) -> bool
    ensures { result ≡ fitting.are_counted first pasts.now }
{
    let mut next = first;
    for past in pasts {
        if past.address.value() != next {
            return false;
        }
        next = past.address.value() + 1;
    }
    true
}

pub(crate) fn are_unused(pasts: &PastList) -> bool
    ensures { result ≡ fitting.are_unused pasts.now }
{
    for past in pasts.items() {
        if !is_unused(past) {
            return false;
        }
    }
    true
}

// Whether nobody had the address.
fn is_unused(past: &Past) -> bool
    ensures { result ≡ fitting.is_unused past.now }
{
    past.name.is_none() && past.ended.is_none()
}

// The first fault of addresses, of which the first that anybody had stands in this line.
pub(crate) fn pasts_fault(
    now: Moment,
    ports: &PortList,
    line: u64,
    pasts: &PastList,
) -> Option<FitFault>
    requires { line < 2 ^ 32 }
    ensures { result ≡ fitting.pasts_fault now ports.now line pasts.now }
{
    let mut at = line;
    for past in pasts.items() {
        if let Some(why) = past_why(now, ports, past) {
            return at_line(at, why);
        }
        at += has_name(past) as u64;
    }
    None
}

fn past_why(now: Moment, ports: &PortList, past: &Past) -> Option<FitWhy>
    ensures { result ≡ fitting.past_why now ports.now past.now }
{
    if is_later(now, past.ended) {
        return Some(FitWhy::Ended);
    }
    if is_free(past) || has_login(ports, &past.address) {
        None
    } else {
        Some(FitWhy::Unheld)
    }
}

// Whether a moment that may be missing is after another.
fn is_later(now: Moment, moment: Option<Moment>) -> bool
    ensures { result ≡ fitting.is_later now moment }
{
    match moment {
        Some(moment) => now.0 < moment.0,
        None => false,
    }
}

// Whether nobody had the address, or its last login ended.
fn is_free(past: &Past) -> bool
    ensures { result ≡ fitting.is_free past.now }
{
    past.name.is_some() == past.ended.is_some()
}

// Whether somebody is logged in with this address.
fn has_login(ports: &PortList, address: &FcId) -> bool
    ensures { result ≡ fitting.has_login address.now ports.now }
{
    for port in ports.items() {
        if port.address.value() == address.value() {
            return true;
        }
    }
    false
}

// How many addresses anybody had.
pub(crate) fn named_count(pasts: &PastList) -> usize
    ensures value { result ≡ length (spec.past_rows pasts.now) }
    ensures few { result ≤ length pasts.now }
{
    let mut count = 0;
    for past in pasts.items() {
        count += has_name(past);
    }
    count
}

fn has_name(past: &Past) -> usize
    ensures value { result ≡ length (spec.past_rows (past.now ∷ [])) }
    ensures few { result ≤ 1 }
{
    match &past.name {
        Some(_) => 1,
        None => 0,
    }
}
