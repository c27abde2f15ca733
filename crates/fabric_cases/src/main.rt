//! Cases of the tables and the fabric: one call a line, each answered on the lines behind.
#![tactic(auto)]

mod cases;
mod fabric;
mod replay;
mod roster;

use case_lines::{next_line, read_input, write_output};
use cases::{Open, answer};
use forward_core::Fabric;
use roster::Roll;
use std::alloc::AllocGlobal;
use std::io;

fn main(rt: HostRuntime) -> io::Result<()> {
    run(&rt)
}

fn run<R: Input + Print + AllocGlobal>(rt: &R) -> io::Result<()> {
    let text = read_input(rt)?;
    answer_text(rt, &text)
}

// What is open is owned by three functions, one inside the other, since a function pays dearly for
// each exit at which much is dropped.
fn answer_text<R: Print + AllocGlobal>(rt: &R, text: &[u8]) -> io::Result<()> {
    let mut open = Open::new(rt.alloc());
    with_roll(rt, &mut open, text)
}

fn with_roll<R: Print + AllocGlobal>(rt: &R, open: &mut Open, text: &[u8]) -> io::Result<()> {
    let mut roll = None;
    with_fabric(rt, open, &mut roll, text)
}

fn with_fabric<R: Print + AllocGlobal>(
    rt: &R,
    open: &mut Open,
    roll: &mut Option<Roll>,
    text: &[u8],
) -> io::Result<()> {
    let mut fabric = None;
    answer_all(rt, open, roll, &mut fabric, text)
}

// Answers each line of a text.
fn answer_all<R: Print + AllocGlobal>(
    rt: &R,
    open: &mut Open,
    roll: &mut Option<Roll>,
    fabric: &mut Option<Fabric>,
    text: &[u8],
) -> io::Result<()> {
    let mut rest = text;
    'lines: while let Some((line, behind)) = next_line(rest) {
        answer_line(rt, open, roll, fabric, line)?;
        rest = behind;
    }
    Ok(())
}

fn answer_line<R: Print + AllocGlobal>(
    rt: &R,
    open: &mut Open,
    roll: &mut Option<Roll>,
    fabric: &mut Option<Fabric>,
    line: &[u8],
) -> io::Result<()> {
    let mut out = Vec::new(rt.alloc());
    answer(rt.alloc(), open, roll, fabric, line, &mut out)?;
    write_output(rt, &out)
}
