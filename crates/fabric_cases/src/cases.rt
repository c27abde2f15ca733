//! What is open, and which subject a line is about.
use crate::fabric::fabric_call;
use crate::replay::{compared_call, row_call};
use crate::roster::{Roll, roster_call};
use case_lines::{is_remark, put_line};
use forward_core::Fabric;
use frame_cases::Settings;
use std::alloc::{AllocError, Global};
use table_cases::Tables;
use table_cases::words::{CaseFault, name_at};

/// A configuration, and one table of each kind, where they were opened.
#[derive(Drop)]
pub(crate) struct Open {
    settings: Settings,
    tables: Tables,
}

impl Open {
    /// Nothing is open.
    pub(crate) fn new(alloc: Global) -> Open {
        Open {
            settings: Settings::new(alloc),
            tables: Tables::new(),
        }
    }

    fn call(&mut self, alloc: Global, line: &[u8], out: &mut Vec<u8>) -> Result<(), CaseFault> {
        match name_at(line, 0) {
            "pool" | "logins" | "voices" | "registry" | "codes" | "zones" | "watchers" => {
                table_cases::answer(alloc, &mut self.tables, line, out)
            }
            "compared" => compared_call(alloc, line, out),
            "row" => row_call(alloc, line, out),
            _ => frame_cases::answer(alloc, &mut self.settings, line, out),
        }
    }
}

/// Appends the answer of a line; of a remark itself.
pub(crate) fn answer(
    alloc: Global,
    open: &mut Open,
    roll: &mut Option<Roll>,
    fabric: &mut Option<Fabric>,
    line: &[u8],
    out: &mut Vec<u8>,
) -> Result<(), AllocError> {
    if is_remark(line) {
        return put_line(out, line);
    }
    let answered = match name_at(line, 0) {
        "roster" => roster_call(alloc, roll, &open.settings.text, line, out),
        "fabric" => fabric_call(alloc, fabric, &open.settings.text, line, out),
        _ => open.call(alloc, line, out),
    };
    match answered {
        Ok(()) => Ok(()),
        Err(fault) => put_line(out, text_of(fault)),
    }
}

fn text_of(fault: CaseFault) -> &'static [u8] {
    match fault {
        CaseFault::Words => b"no such call",
        CaseFault::Closed => b"nothing is open",
        CaseFault::Refused => b"refused",
        CaseFault::Memory => b"no memory",
    }
}
