//! For each zone set a row with the bits of the zones that it lists.
ghost use Rattle.std.specs.Prelude.{◌≡◌, ◌<◌, ℕ, IfOk};
ghost use Rattle.sorted_lists.specs.Row.{has};
ghost use Rattle.zone_rules.specs.Joined as spec;
ghost use Rattle.zone_rules.specs.Index.{of_set, AreRows};

use fab_base::{NoMemory, OwnedList};
use fab_config::{PlaceList, SetList};
use sorted_lists::{Row, set_bit};
use std::alloc::Global;

pub(crate) type SetRows = OwnedList<Row>;

/// The rows of these sets, each at its set's own place, for so many zones.
pub(crate) fn rows_of_sets(alloc: Global, sets: &SetList, zones: usize) -> Result<SetRows, NoMemory>
    ensures { IfOk result (λ rows. AreRows zones rows sets.now) }
{
    let mut rows = SetRows::new(alloc)?;
    for index in 0..sets.len() {
        rows.push(
            alloc,
            row_of_places(alloc, &sets.at(index).unwrap().places, zones)?,
        )?;
    }
    Ok(rows)
}

// The row of these places, as far as there are zones.
fn row_of_places(alloc: Global, places: &PlaceList, zones: usize) -> Result<Row, NoMemory>
    ensures { IfOk result (λ row. (q : ℕ) → q < zones
        → has row.items q ≡ spec.contains q places.now) }
{
    let mut row = Vec::new(alloc);
    for index in 0..places.len() {
        let place = *places.at(index).unwrap() as usize;
        if place < zones {
            set_bit(alloc, &mut row, place)?;
        }
    }
    Ok(row)
}

/// The row of the zone set at a place, where there is one.
pub(crate) fn row_of_set(rows: &SetRows, set: u32) -> &[u64]
    ensures { result.now ≡ of_set rows.now set }
{
    match rows.at(set as usize) {
        Some(row) => row.as_slice(),
        None => &[],
    }
}
