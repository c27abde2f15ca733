//! The check of a journal: outputs that differ, and rows as they are shown.
use case_lines::OpenFiles;
use ct_messages::TypeMap;
use fab_base::Failed;
use fab_base::fields::u32_at;
use fab_replay::{Compared, Row, write_row};
use std::alloc::Global;
use table_cases::say::{end, end_number};
use table_cases::words::{CaseFault, address, enode, hex, moment, name, octet, short};

/// `compared FOUND FIRST SECOND`: the first byte of an output that differs from two pieces.
pub(crate) fn compared_call(
    alloc: Global,
    line: &[u8],
    out: &mut Vec<u8>,
) -> Result<(), CaseFault> {
    let found = hex(alloc, line, 1)?;
    let first = hex(alloc, line, 2)?;
    let second = hex(alloc, line, 3)?;
    match first_difference(found.view(), first.view(), second.view()) {
        Ok(Some(at)) => end_number(out, at),
        Ok(None) => end(out, "same"),
        Err(Failed) => Err(CaseFault::Refused),
    }
}

fn first_difference(found: &[u8], first: &[u8], second: &[u8]) -> Result<Option<u64>, Failed> {
    let mut depot = OpenFiles::one(found, 3);
    let mut output = Compared::new();
    output.feed(&mut depot, 0, first)?;
    output.feed(&mut depot, 0, second)?;
    output.finish(&mut depot, 0)
}

/// `row ADDRESS NAME NODE PORT MAC NODE-HEARD PORT-HEARD SIZE FUNCTION TYPES`.
pub(crate) fn row_call(alloc: Global, line: &[u8], out: &mut Vec<u8>) -> Result<(), CaseFault> {
    let types = hex(alloc, line, 10)?;
    let row = Row {
        address: address(line, 1)?,
        name: name(line, 2)?,
        node_name: name(line, 3)?,
        enode: enode(line, 4)?,
        node_heard: moment(line, 6)?,
        port_heard: moment(line, 7)?,
        size: short(line, 8)?,
        watch: octet(line, 9)?,
        types: type_map(types.view()),
    };
    write_row(alloc, &row, out)?;
    Ok(())
}

// The map of so many bytes as there are.
fn type_map(bytes: &[u8]) -> TypeMap {
    let mut words = [0; 8];
    for index in 0..8 {
        if 4 * index + 4 <= bytes.len() {
            words[index] = u32_at(bytes, 4 * index);
        }
    }
    TypeMap(words)
}
