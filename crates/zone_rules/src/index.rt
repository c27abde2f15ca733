//! For each name a row with the bits of the zones that list it.
ghost use Rattle.std.specs.Prelude.{◌≡◌, ◌==◌, ◌&&◌, ◌||◌, ℕ, IfOk, OnOk};
ghost use Rattle.sorted_lists.specs.Row.{has};
ghost use Rattle.zone_rules.specs.Joined as spec;
ghost use Rattle.zone_rules.specs.Index.{of_name, IsIndex};

use fab_base::NoMemory;
use fab_config::{NameList, ZoneList};
use sorted_lists::{Row, set_bit};
use std::alloc::Global;
use std::collections::HashMap;

pub(crate) type NameRows = HashMap<u64, Row>;

/// The index of these zones.
pub(crate) fn index_of(alloc: Global, zones: &ZoneList) -> Result<NameRows, NoMemory>
    ensures { IfOk result (λ m. IsIndex m zones.now) }
{
    let mut rows = HashMap::new(alloc);
    for index in 0..zones.len() {
        add_zone(alloc, &mut rows, &zones.at(index).unwrap().members, index)?;
    }
    Ok(rows)
}

// Sets the bit of a zone's place for each of its members.
fn add_zone(
    alloc: Global,
    rows: &mut NameRows,
    members: &NameList,
    place: usize,
) -> Result<(), NoMemory>
    ensures { OnOk result ((x q : ℕ) → has (of_name rows.new x) q
        ≡ ((place == q && spec.contains x members.now) || has (of_name rows.old x) q)) }
{
    for index in 0..members.len() {
        add(alloc, rows, members.at(index).unwrap().0, place)?;
    }
    Ok(())
}

// Sets the bit of a place for a name.
fn add(alloc: Global, rows: &mut NameRows, name: u64, place: usize) -> Result<(), NoMemory>
    ensures { OnOk result ((x q : ℕ) → has (of_name rows.new x) q
        ≡ ((place == q && name == x) || has (of_name rows.old x) q)) }
{
    let row = rows.entry(name)?.or_insert(Vec::new(alloc));
    set_bit(alloc, row, place)
}

/// The row of a name.
pub(crate) fn row_of_name(rows: &NameRows, name: u64) -> &[u64]
    ensures { result.now ≡ of_name rows.now name }
{
    match rows.get(&name) {
        Some(row) => row.as_slice(),
        None => &[],
    }
}
