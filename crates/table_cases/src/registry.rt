//! What N_Ports registered, and what queries of it are answered (FC-GS-6, name server).
ghost use Rattle.case_lines.specs.Printing.{Grows};
ghost use Rattle.std.specs.Prelude.{◌≡◌, ◌<◌, ◌≢◌, IfOk, IsSome, false};
ghost use Rattle.ct_messages.specs.Ask.{view};
ghost use Rattle.ct_messages.specs.CanWrite.{CanTell};
ghost use Rattle.ct_messages.specs.Server as server;
ghost use Rattle.name_server.specs.Registry.{entry_at};

use crate::held::{open, open_in};
use crate::say::{end, end_bool, end_hex, end_name, say};
use crate::words::{CaseFault, address, code, hex, name, name_at};
use case_lines::{put_hex, put_line};
use ct_messages::{CtAsk, CtTell, TypeMap, read_ask, write_tell};
use fab_base::{FcId, NoMemory, Wwn};
use name_server::{RegFault, Registry, Seen, SeenPort};
use std::alloc::Global;

/// A call of a registry.
pub(crate) fn registry_call(
    alloc: Global,
    held: &mut Option<Registry>,
    line: &[u8],
    out: &mut Vec<u8>,
) -> Result<(), CaseFault>
    ensures grows { Grows out.old.items out.new.items }
{
    if name_at(line, 1) == "open" {
        return open(held, opened(alloc, line)?, out);
    }
    asked(alloc, open_in(held)?, line, out)
}

// `open ADDRESS NODE-NAME ADDRESS NODE-NAME`: a registry of two N_Ports.
fn opened(alloc: Global, line: &[u8]) -> Result<Registry, CaseFault> {
    let first = address(line, 2)?;
    let first_node = name(line, 3)?;
    let second = address(line, 4)?;
    let second_node = name(line, 5)?;
    if first.value() == second.value() {
        return Err(CaseFault::Refused);
    }
    let mut registry = Registry::new(alloc, 2)?;
    registry.enter(first, first_node);
    registry.enter(second, second_node);
    Ok(registry)
}

fn asked(
    alloc: Global,
    registry: &mut Registry,
    line: &[u8],
    out: &mut Vec<u8>,
) -> Result<(), CaseFault>
    ensures grows { Grows out.old.items out.new.items }
{
    match name_at(line, 1) {
        "forget" => end_bool(out, registry.forget(address(line, 2)?)),
        "types" => said_types(out, registry.types(address(line, 2)?)),
        "node" => end_name(out, registry.node_name(address(line, 2)?)),
        "register" => register_call(alloc, registry, line, out),
        "query" => query_call(alloc, registry, line, out),
        _ => Err(CaseFault::Words),
    }
}

// `register ADDRESS PAYLOAD`.
fn register_call(
    alloc: Global,
    registry: &mut Registry,
    line: &[u8],
    out: &mut Vec<u8>,
) -> Result<(), CaseFault>
    ensures grows { Grows out.old.items out.new.items }
{
    let asker = address(line, 2)?;
    let payload = hex(alloc, line, 3)?;
    register(registry, asker, payload.view(), out)
}

// `query LOW NAME HIGH NAME FABRIC-PORT-NAME PAYLOAD`.
fn query_call(
    alloc: Global,
    registry: &Registry,
    line: &[u8],
    out: &mut Vec<u8>,
) -> Result<(), CaseFault>
    ensures grows { Grows out.old.items out.new.items }
{
    let payload = hex(alloc, line, 7)?;
    query(alloc, registry, line, payload.view(), out)
}

// Who is notified before a registration, and then its outcome.
fn register(
    registry: &mut Registry,
    asker: FcId,
    payload: &[u8],
    out: &mut Vec<u8>,
) -> Result<(), CaseFault>
    ensures grows { Grows out.old.items out.new.items }
{
    let Ok(ask) = read_ask(payload) else {
        return Err(CaseFault::Words);
    };
    if !ask.is_registration() || registry.node_name(asker).is_none() {
        return Err(CaseFault::Refused);
    }
    said_refusal(out, registry.refusal(asker, &ask))?;
    said_notice(out, registry.is_noticed(asker, &ask))?;
    match registry.register(asker, &ask) {
        Ok(change) => {
            say(out, "done")?;
            end(out, if change.noticed { "noticed" } else { "quiet" })
        }
        Err(
            RegFault::Refused {
                reason,
                explanation,
            },
        ) => {
            say(out, "refused")?;
            end_hex(out, &[reason, explanation])
        }
    }
}

// The answer to the second of two N_Ports.
fn query(
    alloc: Global,
    registry: &Registry,
    line: &[u8],
    payload: &[u8],
    out: &mut Vec<u8>,
) -> Result<(), CaseFault>
    ensures grows { Grows out.old.items out.new.items }
{
    let Ok(ask) = read_ask(payload) else {
        return Err(CaseFault::Words);
    };
    if ask.is_registration() {
        return Err(CaseFault::Refused);
    }
    let two = two_of(line)?;
    if two.low.value() >= two.high.value()
        || registry.node_name(two.low).is_none()
        || registry.node_name(two.high).is_none()
    {
        return Err(CaseFault::Refused);
    }
    end_answer(alloc, &answer(alloc, registry, &two, &ask)?, out)
}

// Two N_Ports with their names, behind one port of the forwarder.
#[derive(Clone, Copy)]
struct Two {
    low: FcId,
    low_name: Wwn,
    high: FcId,
    high_name: Wwn,
    fabric_port: Wwn,
}

fn two_of(line: &[u8]) -> Result<Two, CaseFault> {
    Ok(Two {
        low: address(line, 2)?,
        low_name: name(line, 3)?,
        high: address(line, 4)?,
        high_name: name(line, 5)?,
        fabric_port: name(line, 6)?,
    })
}

// What the higher of two N_Ports is answered.
fn answer(
    alloc: Global,
    registry: &Registry,
    two: &Two,
    ask: &CtAsk<'_>,
) -> Result<CtTell, NoMemory>
    requires low { IsSome (entry_at two.now.low registry.now.entries) }
    requires high { IsSome (entry_at two.now.high registry.now.entries) }
    requires order { two.now.low < two.now.high }
    requires query { server.is_registration (view ask.now) ≡ false }
    ensures { IfOk result CanTell }
{
    let fabric_port = two.fabric_port;
    let mut seen = Seen::new(alloc)?;
    let low = SeenPort {
        address: two.low,
        name: two.low_name,
        fabric_port,
    };
    seen.push(alloc, low)?;
    let high = SeenPort {
        address: two.high,
        name: two.high_name,
        fabric_port,
    };
    seen.push(alloc, high)?;
    registry.answer(alloc, two.high, ask, &seen)
}

/// The bytes of an answer.
pub fn end_answer(alloc: Global, tell: &CtTell, out: &mut Vec<u8>) -> Result<(), CaseFault>
    requires { CanTell tell.now }
    ensures grows { Grows out.old.items out.new.items }
{
    let mut bytes = Vec::new(alloc);
    write_tell(alloc, tell, &mut bytes)?;
    end_hex(out, &bytes)
}

/// `allowed`, or the codes with which a registration is refused.
pub fn said_refusal(out: &mut Vec<u8>, refusal: Option<RegFault>) -> Result<(), CaseFault>
    ensures grows { Grows out.old.items out.new.items }
{
    match refusal {
        Some(
            RegFault::Refused {
                reason,
                explanation,
            },
        ) => {
            say(out, "refused")?;
            put_hex(out, &[reason, explanation])?;
            say(out, "")
        }
        None => say(out, "allowed"),
    }
}

// Whether watchers are notified of a registration.
fn said_notice(out: &mut Vec<u8>, noticed: bool) -> Result<(), CaseFault>
    ensures grows { Grows out.old.items out.new.items }
{
    say(out, if noticed { "noticed" } else { "quiet" })
}

// The registered types, word by word.
fn said_types(out: &mut Vec<u8>, types: Option<TypeMap>) -> Result<(), CaseFault>
    ensures grows { Grows out.old.items out.new.items }
{
    match types {
        Some(types) => {
            for index in 0..8 {
                put_hex(out, &types.0[index].to_be_bytes())?;
            }
            end(out, "")
        }
        None => end(out, "none"),
    }
}

/// `codes REASON EXPLANATION`: how a refused registration is rejected.
pub(crate) fn codes_call(alloc: Global, line: &[u8], out: &mut Vec<u8>) -> Result<(), CaseFault>
    ensures grows { Grows out.old.items out.new.items }
{
    let fault = RegFault::Refused {
        reason: code(line, 1)?,
        explanation: code(line, 2)?,
    };
    let text = format!(in alloc; "{fault}")?;
    put_line(out, text.as_bytes())?;
    Ok(())
}
