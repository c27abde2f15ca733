//! What is printed of a fabric: its entries, its clock and its live N_Ports.
ghost use Rattle.std.specs.Prelude.{◌≡◌, ◌++◌, ◌≤◌, nat_le, find, option_map, Some};
ghost use Rattle.std.specs.Prelude.{IfOk, IfSome, OnErr, OnOk};
ghost use Rattle.fab_policy.specs.Journal.{Journal};
ghost use Rattle.fab_policy.specs.Standing.{Stands};
ghost use Rattle.fab_policy.specs.State.{tables_of};
ghost use Rattle.forward_core.specs.Fabric.{live_at};
ghost use Rattle.fab_replay.specs.Showing.{clock_line, entries_line, ports_lines, row_of, shown_by};
ghost use Rattle.fab_replay.specs.Showing.{AreInOrder};

use crate::Row;
use crate::rows::write_row;
use fab_base::{FcId, Moment, NoMemory, append_made};
use fab_policy::legal_journals;
use forward_core::Fabric;
use itoa::Buffer;
use std::alloc::{AllocError, Global};

/// Appends what `show` prints of a fabric after so many entries: `entries 2`, then `clock 1000` or
/// `clock none`, then a line or two for each live N_Port in ascending order of addresses. Where
/// memory is refused, `out` stays as it was.
pub fn write_shown(
    alloc: Global,
    fabric: &Fabric,
    entries: u64,
    out: &mut Vec<u8>,
) -> Result<(), NoMemory>
    ensures ok { OnOk result ((J : Journal) → Stands fabric.now J → out.new.items
        ≡ out.old.items ++ shown_by entries (tables_of fabric.now.settings J)) }
    ensures state { AreInOrder fabric.now.state.tables.ports → OnOk result
        (out.new.items ≡ out.old.items ++ shown_by entries fabric.now.state.tables) }
    ensures err { OnErr result (out.new.items ≡ out.old.items) }
{
    // Law: in the tables of a legal journal the N_Ports ascend, as the lines want them.
    legal_journals();
    append_made(alloc, lines_of(alloc, fabric, entries), out)
}

fn lines_of(alloc: Global, fabric: &Fabric, entries: u64) -> Result<Vec<u8>, AllocError>
    ensures { AreInOrder fabric.now.state.tables.ports →
        IfOk result (λ v. v.items ≡ shown_by entries fabric.now.state.tables) }
{
    let mut text = Vec::new(alloc);
    write_entries(entries, &mut text)?;
    write_clock(fabric.clock(), &mut text)?;
    match write_rows(alloc, fabric, &mut text) {
        Ok(()) => Ok(text),
        Err(NoMemory) => Err(AllocError),
    }
}

fn write_entries(entries: u64, text: &mut Vec<u8>) -> Result<(), AllocError>
    ensures { OnOk result (text.new.items ≡ text.old.items ++ entries_line entries) }
{
    text.extend_from_slice(b"entries ")?;
    text.extend_from_slice(Buffer::new().format(entries).as_bytes())?;
    text.extend_from_slice(b"\n")
}

fn write_clock(clock: Option<Moment>, text: &mut Vec<u8>) -> Result<(), AllocError>
    ensures { OnOk result (text.new.items ≡ text.old.items ++ clock_line clock) }
{
    match clock {
        Some(moment) => write_moment(moment, text),
        None => text.extend_from_slice(b"clock none\n"),
    }
}

fn write_moment(moment: Moment, text: &mut Vec<u8>) -> Result<(), AllocError>
    ensures { OnOk result (text.new.items ≡ text.old.items ++ clock_line (Some moment)) }
{
    text.extend_from_slice(b"clock ")?;
    text.extend_from_slice(Buffer::new().format(moment.0).as_bytes())?;
    text.extend_from_slice(b"\n")
}

// The lines of each live N_Port.
fn write_rows(alloc: Global, fabric: &Fabric, text: &mut Vec<u8>) -> Result<(), NoMemory>
    ensures { AreInOrder fabric.now.state.tables.ports → OnOk result
        (text.new.items ≡ text.old.items ++ ports_lines fabric.now.state.tables.ports) }
{
    let mut from = 0;
    while let Some(row) = next_row(fabric, from) {
        write_row(alloc, &row, text)?;
        from = row.address.value() + 1;
    }
    Ok(())
}

// The live N_Port of the least address that isn't below this one.
fn next_row(fabric: &Fabric, from: u32) -> Option<Row>
    ensures row { AreInOrder fabric.now.state.tables.ports → result
        ≡ option_map row_of (find (λ p. nat_le from p.address) fabric.now.state.tables.ports) }
    ensures least { IfSome result (λ r. from ≤ r.address) }
{
    row_at(fabric, fabric.next_login(from)?)
}

// The live N_Port of an address.
fn row_at(fabric: &Fabric, address: FcId) -> Option<Row>
    ensures row { result ≡ option_map row_of (live_at address fabric.now) }
    ensures address { IfSome result (λ r. r.address ≡ address) }
{
    let login = fabric.login(address)?;
    let (node_heard, port_heard) = fabric.heard_at(address)?;
    Some(Row {
        address,
        name: login.name,
        node_name: fabric.node_name(address)?,
        enode: login.enode,
        node_heard,
        port_heard,
        size: login.server_size.unwrap_or(0),
        watch: fabric.watch(address),
        types: fabric.types(address)?,
    })
}
