//! Which subject a line is about.
ghost use Rattle.std.specs.Prelude.{◌≡◌, ◌⊎◌};
ghost use Rattle.case_lines.specs.Printing.{Grows};

use crate::frames::{Settings, reply_call, rule_call};
use crate::messages::message_call;
use crate::sending::send_call;
use crate::text::{entry_call, head_call, line_call};
use fab_policy::Format;
use std::alloc::Global;
use table_cases::words::{CaseFault, name_at};

/// Appends the answer of a call that needs a configuration at most. The text of the
/// configuration changes or what was read of it, never both, refused or not.
pub fn answer(
    alloc: Global,
    settings: &mut Settings,
    line: &[u8],
    out: &mut Vec<u8>,
) -> Result<(), CaseFault>
    ensures grows { Grows out.old.items out.new.items }
    ensures one { (settings.new.text ≡ settings.old.text)
        ⊎ (settings.new.config ≡ settings.old.config) }
{
    match name_at(line, 0) {
        "config" => settings.call(alloc, line, out),
        "rule" => rule_call(alloc, settings.config()?, line, out),
        "reply" => reply_call(alloc, settings.config()?, line, out),
        "message" => message_call(alloc, settings.config()?, line, out),
        "sends" => send_call(alloc, settings.config()?, line, out),
        _ => plain_call(alloc, line, out),
    }
}

// A call that is asked of nothing.
fn plain_call(alloc: Global, line: &[u8], out: &mut Vec<u8>) -> Result<(), CaseFault>
    ensures grows { Grows out.old.items out.new.items }
{
    match name_at(line, 0) {
        "line" => match name_at(line, 1) {
            "1" => line_call(alloc, Format::One, line, out),
            _ => line_call(alloc, Format::Two, line, out),
        },
        "entry" => entry_call(alloc, line, out),
        "head" => head_call(alloc, out),
        _ => Err(CaseFault::Words),
    }
}
