//! Cases of the codecs, of the values and of the configuration: a line each, answered behind it.
#![tactic(auto)]

mod captures;
mod cases;
mod config;
mod ct;
mod els;
mod fip;
mod frames;
mod keys;
mod tell;
mod values;

use case_lines::{read_input, write_output};
use std::io;

fn main(rt: HostRuntime) -> io::Result<()> {
    let text = read_input(&rt)?;
    let mut out = Vec::new(rt.alloc());
    cases::answer_all(rt.alloc(), &text, &mut out)?;
    write_output(&rt, &out)
}
