//! Commands of `fcoe_tool` over stores in memory, as tables: cases come in, answers go out.
#![tactic(auto)]

mod cases;
mod lines;
mod pieces;
mod printing;

use case_lines::{read_input, write_output};
use cases::Cases;
use lines::Fault;
use std::alloc::Global;
use std::io;
use std::sync::Wait;
use std::thread::Threads;

fn main(rt: HostRuntime) -> io::Result<()> {
    let text = read_input(&rt)?;
    match answers(&rt, rt.alloc(), &text) {
        Ok(answers) => write_output(&rt, &answers),
        Err(Fault::Line) => write_output(&rt, b"the cases are no text\n"),
        Err(Fault::Memory) => write_output(&rt, b"no memory\n"),
    }
}

// What is answered to the lines of a text.
fn answers<R: Threads + Wait + Sync>(rt: &R, alloc: Global, text: &[u8]) -> Result<Vec<u8>, Fault> {
    let Ok(text) = str::from_utf8(text) else {
        return Err(Fault::Line);
    };
    let mut cases = Cases::new(alloc)?;
    answer_all(rt, alloc, &mut cases, text)?;
    Ok(cases.into_answers())
}

fn answer_all<R: Threads + Wait + Sync>(
    rt: &R,
    alloc: Global,
    cases: &mut Cases,
    text: &str,
) -> Result<(), Fault> {
    for line in text.lines() {
        cases.answer(rt, alloc, line)?;
    }
    Ok(())
}
