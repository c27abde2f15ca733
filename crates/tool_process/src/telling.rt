//! A line on standard error for whoever sits at a terminal, beside what a command prints: which
//! file or which word a status speaks of. No clause of std says what is written there.
ghost use Rattle.std.specs.Prelude.{◌≡◌, ◌<◌, length};
ghost use Rattle.std.specs.Str.{NoCharPasses};
ghost use Rattle.tool_process.specs.Line.{is_hidden, line_text};

use crate::edge::FileDepot;
use crate::line::Line;
use crate::same::Mix;
use crate::trouble::Trouble;
use fab_base::{MOST_PORTS, word_at};
use std::alloc::{AllocGlobal, Global};
use std::io::Eprint;
use std::rt::Files;
use strsim::levenshtein;

const NO_COMMAND: u8 = 2;

const READ_FAULT: u8 = 3;

/// The status of a fault of writing.
pub(crate) const WRITE_FAULT: u8 = 4;

const COMMANDS: [&str; 11] = [
    "run",
    "live",
    "show",
    "replay",
    "convert",
    "migrate",
    "make",
    "snoop",
    "enode",
    "--help",
    "--version",
];

/// Says more of a status than its line.
pub(crate) fn tell<R: Files + Eprint + AllocGlobal>(
    rt: &R,
    words: &[String],
    depot: &FileDepot<'_, R>,
    status: u8,
) {
    if status == NO_COMMAND {
        tell_words(rt, words);
        return;
    }
    let (mix, trouble) = (depot.mix(), depot.trouble());
    if let Some(Trouble { place, why }) = trouble_said(status, mix, trouble) {
        say(rt, &Line::Trouble(depot.name_of(place), why));
    }
    tell_mix(rt, words, mix_said(status, mix));
}

// The trouble that is said behind a status: what went wrong first, unless names that are mixed are
// why an output wasn't opened.
fn trouble_said(status: u8, mix: Mix, trouble: Option<Trouble>) -> Option<Trouble>
    ensures read { status ≡ 3 → result ≡ trouble }
    ensures write { status ≡ 4 → mix ≡ Mix.Apart → result ≡ trouble }
{
    match (status, mix) {
        (READ_FAULT, _) | (WRITE_FAULT, Mix::Apart) => trouble,
        _ => None,
    }
}

// Names that are mixed are said behind each status but that of a command that was done: also where
// a fault of what is read was found first, since no output would have been opened.
fn mix_said(status: u8, mix: Mix) -> Mix
    ensures said { 0 < status → result ≡ mix }
    ensures done { status ≡ 0 → result ≡ Mix.Apart }
{
    if status == 0 { Mix::Apart } else { mix }
}

// Says which names are one file, or the standard output.
fn tell_mix<R: Eprint>(rt: &R, words: &[String], mix: Mix) {
    match mix {
        Mix::Apart => {}
        Mix::Two(one, other) => say(rt, &Line::OneFile(at(words, one), at(words, other))),
        Mix::Printed(place) => say(rt, &Line::Printed(at(words, place))),
        Mix::Piped(place) => say(rt, &Line::Piped(at(words, place))),
    }
}

// Why words are no command.
fn tell_words<R: Eprint + AllocGlobal>(rt: &R, words: &[String]) {
    if words.is_empty() {
        say(rt, &Line::NoCommand);
        return;
    }
    let command = at(words, 0);
    if !COMMANDS.iter().any(|known| *known == command) {
        tell_command(rt, command);
    } else if let Some(place) = used_twice(words) {
        say(rt, &Line::Twice(at(words, place)));
    } else if let Some(ports) = ports_of(words) {
        say(rt, &Line::Ports(ports));
    } else {
        say(rt, &Line::OtherWords(command));
    }
}

fn tell_command<R: Eprint + AllocGlobal>(rt: &R, command: &str) {
    match nearest(rt.alloc(), command) {
        Some(known) => say(rt, &Line::Meant(command, known)),
        None => say(rt, &Line::Unknown(command)),
    }
}

// Says a line, which has nothing that a terminal obeys. Where it can't be written nothing changes.
fn say<R: Eprint>(rt: &R, line: &Line<'_>)
    ensures plain { NoCharPasses is_hidden (line_text line.now) }
{
    let _said = eprintln!(rt; "{line}");
}

// The command that a word is within two edits of.
fn nearest(alloc: Global, word: &str) -> Option<&'static str> {
    for edits in 1..3 {
        for known in COMMANDS {
            if levenshtein(alloc, known, word).is_ok_and(|away| away == edits) {
                return Some(known);
            }
        }
    }
    None
}

// The ports that words give beyond 64: a pair each, behind the command, its configuration and, but
// for a bridge, its journal; one name each where a journal is shown.
fn ports_of(words: &[String]) -> Option<usize> {
    let ports = match at(words, 0) {
        "run" | "replay" => words.len().saturating_sub(3).div_ceil(2),
        "live" => words.len().saturating_sub(4).div_ceil(2),
        "snoop" => words.len().saturating_sub(2).div_ceil(2),
        "show" => words.len().saturating_sub(3),
        _ => return None,
    };
    if ports > MOST_PORTS {
        Some(ports)
    } else {
        None
    }
}

// The first place at which a name stands again.
fn used_twice(words: &[String]) -> Option<usize> {
    for place in 1..words.len() {
        if stands_before(words, place) {
            return Some(place);
        }
    }
    None
}

fn stands_before(words: &[String], place: usize) -> bool
    requires { place < length words.now }
{
    let name = word_at(words, place);
    (1..place).any(|before| at(words, before) == name)
}

fn at(words: &[String], place: usize) -> &str {
    if place < words.len() {
        word_at(words, place)
    } else {
        ""
    }
}
