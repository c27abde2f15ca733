//! A journal of format 1, rewritten line by line in format 2.
ghost use Rattle.std.specs.Prelude.{◌≡◌, ◌≤◌, ◌<◌, length, take};
ghost use Rattle.fab_policy.specs.Spelling.{IsRangedLine};
ghost use Rattle.fab_migrate.specs.OldWords.{AddsLine, Admits, Rewrites, entry_of};
ghost use Rattle.fab_migrate.specs.OldWords.{old_fault_by};
ghost use Rattle.std.specs.Io.BufRead.{take_through};

use fab_base::{Bytes, Caught, Failed, Moment, NoMemory};
use fab_policy::{Event, Format, Line, LineError, read_line, write_head_line, write_line};
use std::alloc::{AllocError, Global};
use thiserror::Error;

/// Why a line can't stand at its place: the first test that fails.
#[derive(Clone, Copy, Debug, PartialEq, Eq, Error)]
pub enum OldWhy {
    /// It is no line of format 1.
    #[error("no line of format 1")]
    Text,
    /// The first line is no tick, or a tick's moment isn't above that of the tick before.
    #[error("the first line is no tick, or the tick isn't above the one before")]
    Tick,
}

/// Why a journal isn't migrated. Lines are counted from 1.
#[derive(Clone, Copy, Debug, PartialEq, Eq, Error)]
pub enum OldError {
    /// Its first fault.
    #[error("line {line}: {why}")]
    Fault { line: u64, why: OldWhy },
    /// It has more bytes than the limit.
    #[error("more bytes than the limit")]
    Bytes,
    #[error("the file could not be read")]
    Read(Failed),
    #[error("memory was refused")]
    Memory,
}

impl From<AllocError> for OldError {
    ghost use Rattle.std.specs.Prelude.{◌≡◌};
    ghost use Rattle.fab_migrate.specs.declared.old.OldError.TheVariants.{Memory};

    ghost from_gives = { λ _ e. e ≡ Memory };

    fn from(_refused: AllocError) -> OldError {
        OldError::Memory
    }
}

/// Why a journal wasn't migrated to another file.
#[derive(Clone, Copy, Debug, PartialEq, Eq, Error)]
pub enum MigrateError {
    /// The input isn't migrated, and the output is as it was.
    #[error("{0}")]
    Input(OldError),
    /// The output could not be written.
    #[error("the output could not be written")]
    Write(Failed),
}

impl From<OldError> for MigrateError {
    ghost use Rattle.std.specs.Prelude.{◌≡◌};
    ghost use Rattle.fab_migrate.specs.declared.old.MigrateError.TheVariants.{Input};

    ghost from_gives = { λ error e. e ≡ Input error };

    fn from(error: OldError) -> MigrateError {
        MigrateError::Input(error)
    }
}

// A journal in format 2, and how many entries it has.
#[derive(Debug, Drop)]
pub(crate) struct Rewritten {
    pub(crate) text: Vec<u8>,
    pub(crate) entries: u64,
}

// Why a line isn't added.
#[derive(Clone, Copy, Debug, PartialEq, Eq)]
pub(crate) enum Refused {
    Fault(OldWhy),
    Memory,
}

impl From<OldWhy> for Refused {
    ghost use Rattle.std.specs.Prelude.{◌≡◌};
    ghost use Rattle.fab_migrate.specs.declared.old.Refused.TheVariants.{Fault};

    ghost from_gives = { λ why e. e ≡ Fault why };

    fn from(why: OldWhy) -> Refused {
        Refused::Fault(why)
    }
}

impl From<LineError> for Refused {
    ghost use Rattle.std.specs.Prelude.{◌≡◌};
    ghost use Rattle.fab_migrate.specs.OldWords.{refusal_by};

    ghost from_gives = { λ error e. e ≡ refusal_by error };

    fn from(error: LineError) -> Refused {
        match error {
            LineError::Fault => Refused::Fault(OldWhy::Text),
            LineError::Memory => Refused::Memory,
        }
    }
}

impl From<NoMemory> for Refused {
    ghost use Rattle.std.specs.Prelude.{◌≡◌};
    ghost use Rattle.fab_migrate.specs.declared.old.Refused.TheVariants.{Memory};

    ghost from_gives = { λ _ e. e ≡ Memory };

    fn from(_refused: NoMemory) -> Refused {
        Refused::Memory
    }
}

// The journal of a text of format 1 in format 2, or the text's first fault.
pub(crate) fn in_format_two(alloc: Global, text: &[u8]) -> Result<Rewritten, OldError>
    ensures { Rewrites text.now result }
{
    let mut out = Vec::new(alloc);
    let Ok(()) = write_head_line(alloc, &mut out) else {
        return Err(OldError::Memory);
    };
    let mut rest = text;
    let mut clock = None;
    let mut entries = 0;
    while !rest.is_empty() {
        let (line, behind) = rest.split_at(line_end(rest));
        match add_line(alloc, clock, line, &mut out) {
            Ok(moment) => clock = Some(moment),
            Err(refusal) => return Err(old_fault_of(refusal, entries + 1)),
        }
        rest = behind;
        entries += 1;
    }
    let text = out;
    Ok(Rewritten { text, entries })
}

// What the refusal of a line ends the reading with.
fn old_fault_of(refusal: Refused, line: u64) -> OldError
    ensures { result ≡ old_fault_by refusal line }
{
    match refusal {
        Refused::Fault(why) => OldError::Fault { line, why },
        Refused::Memory => OldError::Memory,
    }
}

// Where the first line of a text ends.
fn line_end(text: &[u8]) -> usize
    ensures line { take result text.now ≡ take_through 10 text.now }
    ensures bound { result ≤ length text.now }
    ensures some { 0 < length text.now → 0 < result }
{
    for index in 0..text.len() {
        if text[index] == b'\n' {
            return index + 1;
        }
    }
    text.len()
}

// Appends a line of format 1 in format 2, and answers the clock behind it.
fn add_line(
    alloc: Global,
    clock: Option<Moment>,
    line: &[u8],
    out: &mut Vec<u8>,
) -> Result<Moment, Refused>
    ensures adds { AddsLine clock line.now out.old.items out.new.items result }
{
    let line = read_line(alloc, Format::One, line)?;
    let now = clock_at(clock, &line)?;
    write_line(alloc, now, &entry(alloc, line), out)?;
    Ok(now)
}

// The clock behind a line, where the line may come.
fn clock_at(clock: Option<Moment>, line: &Line) -> Result<Moment, OldWhy>
    ensures { Admits clock line.now result }
{
    match line {
        Line::Tick { moment, .. } => match clock {
            Some(before) => {
                if *moment > before {
                    Ok(*moment)
                } else {
                    Err(OldWhy::Tick)
                }
            }
            None => Ok(*moment),
        },
        Line::Frame { .. } => clock.ok_or(OldWhy::Tick),
    }
}

// The entry of a line. No line holds the frame, and no writer of lines looks at it.
fn entry(alloc: Global, line: Line) -> Event
    ensures { result ≡ entry_of line }
{
    match line {
        Line::Tick { moment, ended } => Event::Tick { moment, ended },
        Line::Frame {
            port,
            index,
            verdict,
            ..
        } => {
            let bytes = Bytes::from_vec(Vec::new(alloc));
            let caught = Caught { bytes, whole: true };
            Event::Frame {
                port,
                index,
                caught,
                verdict,
            }
        }
    }
}
