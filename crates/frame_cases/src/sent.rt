//! Messages that are sent, in the field's terms.
ghost use Rattle.case_lines.specs.Printing.{Grows};

use case_lines::put_hex;
use fab_policy::Asker;
use fab_sending::{Answer, Out, OutList, OutMessage};
use table_cases::say::{
    end, end_address, end_hex, end_number, say, say_address, say_mac, say_number, say_when,
};
use table_cases::words::CaseFault;

/// Each message, a line each; `nothing` where there is none.
pub(crate) fn said_outs(outs: &OutList, out: &mut Vec<u8>) -> Result<(), CaseFault>
    ensures grows { Grows out.old.items out.new.items }
{
    if outs.len() == 0 {
        return end(out, "nothing");
    }
    for index in 0..outs.len() {
        if let Some(sent) = outs.at(index) {
            said_out(sent, out)?;
        }
    }
    Ok(())
}

// The port and the moment of a message, and then its kind and its fields.
fn said_out(sent: &Out, out: &mut Vec<u8>) -> Result<(), CaseFault>
    ensures grows { Grows out.old.items out.new.items }
{
    say_when(out, sent.port, sent.moment)?;
    match &sent.message {
        OutMessage::Vlans { to, untagged } => {
            say(out, "vlans")?;
            say_mac(out, to)?;
            end(out, if *untagged { "untagged" } else { "tagged" })
        }
        OutMessage::Solicited { to, size } => {
            say(out, "solicited")?;
            say_mac(out, to)?;
            end_number(out, u64::from(*size))
        }
        OutMessage::Advertisement => end(out, "advertisement"),
        OutMessage::Clear { to, ports } => {
            say(out, "clear")?;
            say_mac(out, to)?;
            end_number(out, ports.view().len() as u64)
        }
        message => said_in_frame(message, out),
    }
}

// A message in a frame of Fibre Channel.
fn said_in_frame(message: &OutMessage, out: &mut Vec<u8>) -> Result<(), CaseFault>
    ensures grows { Grows out.old.items out.new.items }
{
    match message {
        OutMessage::LoginAccept { to, address, .. } => {
            say(out, "login-accept")?;
            say_asker(out, to)?;
            end_address(out, Some(*address))
        }
        OutMessage::LoginReply { to, answer, .. } => said_reply(out, "login-reply", to, answer),
        OutMessage::ServiceReply { to, answer } => said_reply(out, "service-reply", to, answer),
        OutMessage::Ct {
            count,
            last,
            payload,
            ..
        } => {
            say(out, "ct")?;
            say_number(out, u64::from(*count))?;
            say(out, if *last { "last" } else { "more" })?;
            end_number(out, payload.view().len() as u64)
        }
        OutMessage::Rscn {
            watcher,
            affected,
            ..
        } => {
            say(out, "rscn")?;
            say_address(out, *watcher)?;
            end_address(out, Some(*affected))
        }
        OutMessage::Forwarded { entry, to } => {
            say(out, "forwarded")?;
            say_number(out, *entry as u64)?;
            end_address(out, Some(*to))
        }
        _ => end(out, "in FIP"),
    }
}

fn said_reply(out: &mut Vec<u8>, kind: &str, to: &Asker, answer: &Answer) -> Result<(), CaseFault>
    ensures grows { Grows out.old.items out.new.items }
{
    say(out, kind)?;
    say_asker(out, to)?;
    end_answer(out, answer)
}

// The MAC, D_ID, S_ID and OX_ID of a reply.
fn say_asker(out: &mut Vec<u8>, to: &Asker) -> Result<(), CaseFault>
    ensures grows { Grows out.old.items out.new.items }
{
    say_mac(out, &to.mac)?;
    say_address(out, to.d_id)?;
    say_address(out, to.s_id)?;
    put_hex(out, &to.ox_id.to_be_bytes())?;
    say(out, "")
}

fn end_answer(out: &mut Vec<u8>, answer: &Answer) -> Result<(), CaseFault>
    ensures grows { Grows out.old.items out.new.items }
{
    match answer {
        Answer::Accept => end(out, "accept"),
        Answer::ServerLogin => end(out, "server-login"),
        Answer::Reject(reason, explanation) => {
            say(out, "reject")?;
            end_hex(out, &[*reason, *explanation])
        }
    }
}
