//! Payloads of extended link services (FC-LS-2): read, and written as they were read.
use crate::keys;
use case_lines::put;
use els_messages::{Els, Feature, LoginParms, read_els, write_els};
use fab_base::NoMemory;
use std::alloc::{AllocError, Global};

pub(crate) fn els(alloc: Global, payload: &[u8], out: &mut Vec<u8>) -> Result<(), AllocError> {
    match read_els(payload) {
        Ok(els) => {
            say(&els, out)?;
            let mut made = Vec::new(alloc);
            let _ = write(alloc, &els, &mut made);
            keys::written(out, payload, &made)
        }
        Err(why) => keys::fault(alloc, out, why),
    }
}

fn say(els: &Els<'_>, out: &mut Vec<u8>) -> Result<(), AllocError> {
    match els {
        Els::Flogi(parms) => say_parms(b"FLOGI", parms, out),
        Els::Fdisc(parms) => say_parms(b"FDISC", parms, out),
        Els::Plogi(parms) => say_parms(b"PLOGI", parms, out),
        Els::LoginAccept(parms) => say_parms(b"LS_ACC of a login", parms, out),
        Els::Accept => put(out, b"LS_ACC"),
        Els::Logo { address, name } => {
            keys::address(out, b"LOGO address=", address)?;
            keys::name(out, b" name=", name)
        }
        Els::Scr { function } => keys::number(out, b"SCR function=", u64::from(*function)),
        Els::Rscn { pages } => keys::bytes(out, b"RSCN pages=", pages),
        Els::Reject {
            reason,
            explanation,
        } => {
            keys::bytes(out, b"LS_RJT reason=", &[*reason])?;
            keys::bytes(out, b" explanation=", &[*explanation])
        }
        Els::Other { command } => keys::bytes(out, b"other command=", &[*command]),
    }
}

fn say_parms(command: &[u8], parms: &LoginParms, out: &mut Vec<u8>) -> Result<(), AllocError> {
    put(out, command)?;
    keys::bytes(out, b" features=", &parms.features.to_be_bytes())?;
    keys::number(out, b" size=", u64::from(parms.size))?;
    keys::number(out, b" ra-tov=", u64::from(parms.ra_tov))?;
    keys::number(out, b" ed-tov=", u64::from(parms.ed_tov))?;
    keys::name(out, b" port=", &parms.port_name)?;
    keys::name(out, b" node=", &parms.node_name)?;
    keys::bytes(out, b" class-3=", &parms.class3)?;
    say_offers(parms, out)
}

// What the parameters say by single bits.
fn say_offers(parms: &LoginParms, out: &mut Vec<u8>) -> Result<(), AllocError> {
    keys::flag(out, b" offers-class-3=", parms.offers_class3())?;
    let asked = parms.has_feature(Feature::MultipleNPortIds);
    keys::flag(out, b" n-port-ids=", asked)?;
    let granted = parms.has_feature(Feature::MultipleNPortIdsGranted);
    keys::flag(out, b" n-port-ids-granted=", granted)?;
    keys::flag(out, b" f-port=", parms.has_feature(Feature::FPort))?;
    keys::number(out, b" receive-size=", u64::from(parms.receive_size()))
}

// Writes a payload as it was read. What no writer takes is left out.
fn write(alloc: Global, els: &Els<'_>, made: &mut Vec<u8>) -> Result<(), NoMemory> {
    match els {
        Els::Accept | Els::Logo { .. } | Els::Scr { .. } | Els::Reject { .. } => {
            write_els(alloc, els, made)
        }
        Els::Rscn { pages } => write_pages(alloc, pages, made),
        _ => write_login(alloc, els, made),
    }
}

fn write_pages(alloc: Global, pages: &[u8], made: &mut Vec<u8>) -> Result<(), NoMemory> {
    if pages.len() % 4 != 0 || pages.len() < 4 || pages.len() > 1020 {
        return Ok(());
    }
    write_els(alloc, &Els::Rscn { pages }, made)
}

fn write_login(alloc: Global, els: &Els<'_>, made: &mut Vec<u8>) -> Result<(), NoMemory> {
    match els {
        Els::Flogi(parms) | Els::Fdisc(parms) | Els::Plogi(parms) | Els::LoginAccept(parms)
            if parms.size < 4096 => write_els(alloc, els, made),
        _ => Ok(()),
    }
}
