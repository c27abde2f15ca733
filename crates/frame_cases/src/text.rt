//! Lines of journals, read and written.
ghost use Rattle.case_lines.specs.Printing.{Grows};
ghost use Rattle.std.specs.Prelude.{ℕ};
ghost use Rattle.fab_policy.specs.Spelling.{IsRangedLine, IsClockOf, EndsAscend};
ghost use Rattle.fab_policy.specs.declared.line.Format.TheVariants.{One};

use case_lines::{put, put_line};
use fab_base::{Bytes, Caught, Moment, PortNo};
use fab_policy::{
    Event, Format, Line, LineError, Verdict, read_line, write_frame_line, write_head_line,
    write_line, write_line1, write_tick_line,
};
use std::alloc::Global;
use table_cases::say::say_number;
use table_cases::words::{CaseFault, moment};

/// `line 1|2 "TEXT"`: the line in the first format after it was read, with the clock in the second.
pub(crate) fn line_call(
    alloc: Global,
    format: Format,
    line: &[u8],
    out: &mut Vec<u8>,
) -> Result<(), CaseFault>
    ensures grows { Grows out.old.items out.new.items }
{
    let mut text = Vec::new(alloc);
    quoted(line, &mut text)?;
    match read_line(alloc, format, &text) {
        Ok(line) => said(alloc, &line, out),
        Err(fault) => said_fault(alloc, fault, out),
    }
}

/// `entry CLOCK "TEXT"`: a line of the first format as it is written in both.
pub(crate) fn entry_call(alloc: Global, line: &[u8], out: &mut Vec<u8>) -> Result<(), CaseFault>
    ensures grows { Grows out.old.items out.new.items }
{
    let mut text = Vec::new(alloc);
    quoted(line, &mut text)?;
    let clock = moment(line, 1)?;
    match read_line(alloc, Format::One, &text) {
        Ok(line) => clocked(alloc, clock, line, out),
        Err(fault) => said_fault(alloc, fault, out),
    }
}

/// `head`: the first line of a journal in the second format.
pub(crate) fn head_call(alloc: Global, out: &mut Vec<u8>) -> Result<(), CaseFault>
    ensures grows { Grows out.old.items out.new.items }
{
    write_head_line(alloc, out)?;
    Ok(())
}

// The text between the first quotation mark and the last byte, which is another; `\n` and `\r` in
// it are the bytes 0A and 0D.
fn quoted(line: &[u8], text: &mut Vec<u8>) -> Result<(), CaseFault> {
    let Some(begin) = line.iter().position(|byte| *byte == b'"') else {
        return Err(CaseFault::Words);
    };
    let mut escaped = false;
    for index in begin + 1..line.len() - 1 {
        if escaped {
            put(text, if line[index] == b'n' { b"\n" } else { b"\r" })?;
            escaped = false;
        } else if line[index] == b'\\' {
            escaped = true;
        } else {
            text.push(line[index])?;
        }
    }
    Ok(())
}

// A line that was read.
fn said(alloc: Global, line: &Line, out: &mut Vec<u8>) -> Result<(), CaseFault>
    ensures grows { Grows out.old.items out.new.items }
{
    match line {
        Line::Tick { moment, ended } => write_tick_line(alloc, *moment, ended, out)?,
        Line::Frame {
            port,
            index,
            verdict,
            clock,
        } => {
            said_clock(out, *clock)?;
            write_frame_line(alloc, *port, *index, verdict, out)?;
            said_verdict(alloc, verdict, out)?;
        }
    }
    Ok(())
}

// The verdict itself, beside its words.
fn said_verdict(alloc: Global, verdict: &Verdict, out: &mut Vec<u8>) -> Result<(), CaseFault>
    ensures grows { Grows out.old.items out.new.items }
{
    let text = format!(in alloc; "{verdict:?}")?;
    put_line(out, text.as_bytes())?;
    Ok(())
}

// The clock of a frame's line, where it stands there.
fn said_clock(out: &mut Vec<u8>, clock: Option<Moment>) -> Result<(), CaseFault>
    ensures grows { Grows out.old.items out.new.items }
{
    match clock {
        Some(clock) => {
            put(out, b"at ")?;
            say_number(out, clock.0)
        }
        None => Ok(()),
    }
}

fn said_fault(alloc: Global, fault: LineError, out: &mut Vec<u8>) -> Result<(), CaseFault>
    ensures grows { Grows out.old.items out.new.items }
{
    match fault {
        LineError::Fault => {
            let text = format!(in alloc; "{fault}")?;
            put_line(out, text.as_bytes())?;
            Ok(())
        }
        LineError::Memory => Err(CaseFault::Memory),
    }
}

// An entry of a line in both formats.
fn clocked(alloc: Global, clock: Moment, line: Line, out: &mut Vec<u8>) -> Result<(), CaseFault>
    requires { IsRangedLine One line }
    ensures grows { Grows out.old.items out.new.items }
{
    match line {
        Line::Tick { moment, ended } => {
            let event = Event::Tick { moment, ended };
            in_both(alloc, moment, &event, out)
        }
        Line::Frame {
            port,
            index,
            verdict,
            ..
        } => in_both(alloc, clock, &framed(alloc, port, index, verdict), out),
    }
}

fn in_both(alloc: Global, clock: Moment, event: &Event, out: &mut Vec<u8>) -> Result<(), CaseFault>
    requires clock { IsClockOf clock event.now }
    requires ascending { EndsAscend event.now }
    ensures grows { Grows out.old.items out.new.items }
{
    write_line1(alloc, event, out)?;
    write_line(alloc, clock, event, out)?;
    Ok(())
}

// The entry of a frame, which isn't written.
fn framed(alloc: Global, port: PortNo, index: u64, verdict: Verdict) -> Event
    ensures clock { (t : ℕ) → IsClockOf t result }
    ensures ascending { EndsAscend result }
{
    Event::Frame {
        port,
        index,
        caught: Caught {
            bytes: Bytes::from_vec(Vec::new(alloc)),
            whole: true,
        },
        verdict,
    }
}
