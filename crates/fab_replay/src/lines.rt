//! The lines of a journal's text, read in place.
ghost use Rattle.std.specs.Prelude.{◌≡◌, ◌+◌, ◌≤◌, length, take, drop, true, [], IfErr, IfOk};
ghost use Rattle.std.specs.Str.{bytes_eq};
ghost use Rattle.fab_policy.specs.Text.{head_line};
ghost use Rattle.fab_replay.specs.Lines.{IsBehind, IsInside, IsLineAt, IsOfLine, IsUnread};
ghost use Rattle.fab_replay.specs.Lines.{behind_line, first_line, number_behind, unread_by};

use crate::{CheckFault, LineWhy};
use fab_policy::{Format, Line, LineError, read_line};
use std::alloc::Global;

/// How long the line is that begins a journal of the second format.
const HEAD_LEN: usize = 10;

/// A place between two lines of a journal's text: its format, how many bytes are before it, and how
/// many entries.
#[derive(Clone, Copy, Debug, PartialEq, Eq)]
pub struct Place {
    pub format: Format,
    pub at: usize,
    pub entries: u64,
}

/// The place before the first entry of a journal.
pub fn first_place(journal: &[u8]) -> Place
    ensures behind { IsBehind journal.now result [] }
    ensures inside { IsInside journal.now result }
{
    if has_head(journal) {
        return Place {
            format: Format::Two,
            at: HEAD_LEN,
            entries: 0,
        };
    }
    Place {
        format: Format::One,
        at: 0,
        entries: 0,
    }
}

// Whether a text begins with the head line.
fn has_head(journal: &[u8]) -> bool
    ensures head { result ≡ bytes_eq head_line (take 10 journal.now) }
    ensures within { result ≡ true → 10 ≤ length journal.now }
{
    journal.starts_with(b"journal 2\n")
}

/// The number of the line at a place, counted from 1.
pub fn number_at(place: &Place) -> u64
    requires room { place.now.entries + place.now.entries ≤ place.now.at }
    ensures { result ≡ number_behind place.now.format place.now.entries }
{
    match place.format {
        Format::One => place.entries + 1,
        Format::Two => place.entries + 2,
    }
}

/// The line at a place, and goes on behind it. On Err the place stays.
pub fn next_line(alloc: Global, journal: &[u8], place: &mut Place) -> Result<Line, CheckFault>
    requires inside { IsInside journal.now place.old }
    ensures line { IfOk result (λ l. IsLineAt journal.now place.old place.new l) }
    ensures unread { IfErr result (λ e.
        IsUnread journal.now place.old e × (place.new ≡ place.old)) }
    ensures only { IfErr result IsOfLine }
{
    let rest = &journal[place.at..];
    if rest.is_empty() {
        return Err(fault_at(place, LineWhy::Rest));
    }
    let end = line_end(rest);
    match read_line(alloc, place.format, &rest[..end]) {
        Ok(line) => {
            place.at += end;
            place.entries += 1;
            Ok(line)
        }
        Err(error) => Err(unread(place, error)),
    }
}

// The fault of a line at a place that couldn't be read.
fn unread(place: &Place, error: LineError) -> CheckFault
    requires room { place.now.entries + place.now.entries ≤ place.now.at }
    ensures { result ≡ unread_by error place.now }
{
    match error {
        LineError::Fault => fault_at(place, LineWhy::Text),
        LineError::Memory => CheckFault::Memory,
    }
}

/// A fault of the line at a place.
pub(crate) fn fault_at(place: &Place, why: LineWhy) -> CheckFault
    requires room { place.now.entries + place.now.entries ≤ place.now.at }
    ensures { result ≡ CheckFault.Line (number_behind place.now.format place.now.entries) why }
{
    CheckFault::Line {
        line: number_at(place),
        why,
    }
}

// How long the first line of a text is, with its line feed where it has one.
fn line_end(text: &[u8]) -> usize
    ensures within { result ≤ length text.now }
    ensures line { take result text.now ≡ first_line text.now }
    ensures behind { drop result text.now ≡ behind_line text.now }
{
    let mut end = 0;
    'bytes: while end < text.len() {
        if text[end] == b'\n' {
            return end + 1;
        }
        end += 1;
    }
    end
}
