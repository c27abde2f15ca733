//! The pool of N_Port_IDs (FC-LS-2, "FLOGI"), without a login around it.
ghost use Rattle.case_lines.specs.Printing.{Grows};
ghost use Rattle.std.specs.Prelude.{◌≡◌, ◌+◌, ◌<◌};

use crate::held::{open, open_in};
use crate::say::{end, end_address, end_bool};
use crate::words::{CaseFault, address, has_word, moment, name, name_at, small};
use fab_base::{FcId, Moment, NoMemory, Wwn};
use fc_addresses::Pool;
use std::alloc::Global;

/// A call of a pool.
pub(crate) fn pool_call(
    alloc: Global,
    held: &mut Option<Pool>,
    line: &[u8],
    out: &mut Vec<u8>,
) -> Result<(), CaseFault>
    ensures grows { Grows out.old.items out.new.items }
{
    match name_at(line, 1) {
        "open" => open(held, opened(alloc, line)?, out),
        "quarantine" => quarantine(alloc, line, out),
        _ => asked(open_in(held)?, line, out),
    }
}

// `open FIRST COUNT`.
fn opened(alloc: Global, line: &[u8]) -> Result<Pool, CaseFault> {
    let first = address(line, 2)?;
    let count = small(line, 3)?;
    if count > 0xFF0000 || first.value() > 0xFF0000 - count {
        return Err(CaseFault::Refused);
    }
    Ok(Pool::new(alloc, first, count)?)
}

// `find NAME AT`, `free ADDRESS NAME AT`, `take ADDRESS NAME AT`.
fn asked(pool: &mut Pool, line: &[u8], out: &mut Vec<u8>) -> Result<(), CaseFault>
    ensures grows { Grows out.old.items out.new.items }
{
    match name_at(line, 1) {
        "find" => find(pool, line, out),
        "free" => free(pool, line, out),
        "take" => take(pool, line, out),
        _ => Err(CaseFault::Words),
    }
}

fn find(pool: &Pool, line: &[u8], out: &mut Vec<u8>) -> Result<(), CaseFault>
    ensures grows { Grows out.old.items out.new.items }
{
    let name = name(line, 2)?;
    let now = moment(line, 3)?;
    end_address(out, pool.find(name, now))
}

fn free(pool: &Pool, line: &[u8], out: &mut Vec<u8>) -> Result<(), CaseFault>
    ensures grows { Grows out.old.items out.new.items }
{
    let address = address(line, 2)?;
    let name = name(line, 3)?;
    let now = moment(line, 4)?;
    end_bool(out, pool.is_free(address, name, now))
}

fn take(pool: &mut Pool, line: &[u8], out: &mut Vec<u8>) -> Result<(), CaseFault>
    ensures grows { Grows out.old.items out.new.items }
{
    let address = address(line, 2)?;
    let name = name(line, 3)?;
    let now = moment(line, 4)?;
    if !pool.is_free(address, name, now) {
        return Err(CaseFault::Refused);
    }
    pool.take(address, name, now);
    end(out, "taken")
}

// `quarantine ADDRESS NAME TAKEN ENDED`, and then pairs of a name and a moment: the address that
// each finds in a pool of this one address, whose login was from one moment to the other.
fn quarantine(alloc: Global, line: &[u8], out: &mut Vec<u8>) -> Result<(), CaseFault>
    ensures grows { Grows out.old.items out.new.items }
{
    let first = address(line, 2)?;
    let holder = name(line, 3)?;
    let pool = released(alloc, first, holder, moment(line, 4)?, moment(line, 5)?)?;
    said_finds(&pool, line, out)
}

fn said_finds(pool: &Pool, line: &[u8], out: &mut Vec<u8>) -> Result<(), CaseFault>
    ensures grows { Grows out.old.items out.new.items }
{
    for index in 3..20 {
        let place = 2 * index;
        if !has_word(line, place) {
            break;
        }
        end_address(out, pool.find(name(line, place)?, moment(line, place + 1)?))?;
    }
    Ok(())
}

// A pool of one address, whose login ended.
fn released(
    alloc: Global,
    first: FcId,
    holder: Wwn,
    taken: Moment,
    ended: Moment,
) -> Result<Pool, CaseFault> {
    if first.value() >= 0xFEFFFF {
        return Err(CaseFault::Refused);
    }
    let mut pool = Pool::new(alloc, first, 1)?;
    if !pool.is_free(first, holder, taken) {
        return Err(CaseFault::Refused);
    }
    pool.take(first, holder, taken);
    pool.release(first, ended);
    Ok(pool)
}
