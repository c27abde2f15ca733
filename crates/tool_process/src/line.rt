//! A line on standard error, in which no name shows a sign that a terminal obeys.
ghost use Rattle.std.specs.Prelude.{◌≡◌, Some};
ghost use Rattle.std.specs.Fmt.{WritesOnOk};
ghost use Rattle.tool_process.specs.Line as spec;
ghost use Rattle.tool_process.specs.Line.{line_text};

use crate::trouble::Why;
use std::fmt;

/// A line, with words and names as they were given.
#[derive(Drop)]
pub(crate) enum Line<'a> {
    /// There are no words.
    NoCommand,
    /// The first word is no command, and none is like it.
    Unknown(&'a str),
    /// The first word is no command, and this one is like it.
    Meant(&'a str, &'a str),
    /// A name stands twice.
    Twice(&'a str),
    /// Too many ports.
    Ports(usize),
    /// The words behind this command are others.
    OtherWords(&'a str),
    /// Two names lead to one file.
    OneFile(&'a str, &'a str),
    /// The standard output is the file of this name.
    Printed(&'a str),
    /// The standard output is the pipe or the terminal of this name.
    Piped(&'a str),
    /// What went wrong with the file of this name.
    Trouble(&'a str, Why),
}

// A name, whose hidden signs stand by their numbers.
#[derive(Clone, Copy)]
struct Shown<'a>(&'a str);

impl fmt::Display for Line<'_> {
    ghost output = { λ line. Some (line_text line) };

    fn fmt<W: fmt::Write>(&self, f: &mut fmt::Formatter<W>) -> fmt::Result {
        match self {
            Line::NoCommand => write!(f, "fcoe_tool: no command; fcoe_tool --help lists them"),
            Line::Unknown(word) => {
                let word = Shown(word);
                write!(
                    f,
                    "fcoe_tool: {word}: no command; fcoe_tool --help lists them"
                )
            }
            Line::Meant(word, near) => {
                let (word, near) = (Shown(word), Shown(near));
                write!(f, "fcoe_tool: {word}: no command; {near}?")
            }
            Line::Twice(name) => write!(f, "fcoe_tool: {} is named twice", Shown(name)),
            Line::Ports(count) => write!(f, "fcoe_tool: {count} ports, 64 at most"),
            Line::OtherWords(word) => {
                let word = Shown(word);
                write!(
                    f,
                    "fcoe_tool: {word}: other words are wanted; see fcoe_tool --help"
                )
            }
            Line::OneFile(one, other) => {
                let (one, other) = (Shown(one), Shown(other));
                write!(f, "fcoe_tool: two names of one file: {one}, {other}")
            }
            Line::Printed(name) => {
                let name = Shown(name);
                write!(
                    f,
                    "fcoe_tool: {name}: the standard output leads to it; nothing was done"
                )
            }
            Line::Piped(name) => {
                let name = Shown(name);
                write!(
                    f,
                    "fcoe_tool: {name}: that is the standard output, where the line goes"
                )
            }
            Line::Trouble(name, why) => write!(f, "fcoe_tool: {}: {}", Shown(name), why.text()),
        }
    }
}

impl fmt::Display for Shown<'_> {
    ghost output = { λ name. Some (spec.shown name.0.now) };

    fn fmt<W: fmt::Write>(&self, f: &mut fmt::Formatter<W>) -> fmt::Result {
        write_name(f, self.0)
    }
}

fn write_name<W: fmt::Write>(f: &mut fmt::Formatter<W>, name: &str) -> fmt::Result
    ensures { WritesOnOk W.write_str_gives f.old result (spec.shown name.now) f.new }
{
    for sign in name.chars() {
        write_sign(f, sign)?;
    }
    Ok(())
}

fn write_sign<W: fmt::Write>(f: &mut fmt::Formatter<W>, sign: char) -> fmt::Result
    ensures { WritesOnOk W.write_str_gives f.old result (spec.sign_of sign) f.new }
{
    let code = sign as u32;
    if !is_hidden(code) {
        return write!(f, "{sign}");
    }
    if code < 256 {
        let (high, low) = (code / 16, code % 16);
        write!(f, "\\x{high:x}{low:x}")
    } else {
        write!(f, "\\u{{{code:x}}}")
    }
}

// Whether a terminal obeys a sign, or shows nothing of it.
fn is_hidden(code: u32) -> bool
    ensures { result ≡ spec.is_hidden code }
{
    code < 0x20
        || is_among(0x7f, 0x9f, code)
        || is_among(0xad, 0xad, code)
        || is_among(0x61c, 0x61c, code)
        || is_among(0x180e, 0x180e, code)
        || is_among(0x200b, 0x200f, code)
        || is_among(0x2028, 0x202e, code)
        || is_among(0x2060, 0x206f, code)
        || is_among(0xfeff, 0xfeff, code)
        || is_among(0xfff9, 0xfffb, code)
        || is_among(0xe0000, 0xe0fff, code)
}

fn is_among(low: u32, high: u32, code: u32) -> bool
    ensures { result ≡ spec.is_among low high code }
{
    low <= code && code <= high
}
