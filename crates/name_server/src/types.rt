//! For each FC-4 type a row of bits with the places of the entries that have it.
ghost use Rattle.std.specs.Prelude.{◌≡◌, ◌==◌, ◌<◌, ◌≤◌, ◌^◌, ◌/◌, ◌+◌, ℕ, if◌then◌else◌, false, length, IfOk};
ghost use Rattle.sorted_lists.specs.Row.{has, IsNextBit};
ghost use Rattle.ct_messages.specs.Answer.{has_type};
ghost use Rattle.name_server.specs.Places.{row_of, AreWide};

use ct_messages::TypeMap;
use fab_base::NoMemory;
use sorted_lists::{Row, clear_bit, empty_row, next_bit, put_bit};
use std::alloc::Global;

pub(crate) type TypeRows = Vec<Row>;

// How many types there are.
const TYPES: usize = 256;

/// Rows for this many places, none of which has a type.
pub(crate) fn no_types(alloc: Global, places: usize) -> Result<TypeRows, NoMemory>
    ensures bits { IfOk result (λ rows. (kind q : ℕ) → has (row_of rows.items kind) q ≡ false) }
    ensures wide { IfOk result (λ rows. AreWide (places / 64 + 1) rows.items) }
{
    let mut rows = Vec::with_capacity(alloc, TYPES)?;
    for _ in 0..TYPES {
        rows.push(empty_row(alloc, places)?)?;
    }
    Ok(rows)
}

// Whether a place has the type.
fn put_type(row: &mut Row, place: usize, value: bool)
    requires { place / 64 < length row.old.items }
    ensures bits { (q : ℕ) → has row.new.items q
        ≡ (if place == q then value else has row.old.items q) }
    ensures words { length row.new.items ≡ length row.old.items }
{
    if value {
        put_bit(row, place);
    } else {
        clear_bit(row, place);
    }
}

/// The place has these types and no others.
pub(crate) fn put_types(rows: &mut [Row], place: usize, types: TypeMap)
    requires wide { (words : ℕ) × AreWide words rows.old × (place / 64 < words) }
    ensures bits { (kind q : ℕ) → kind < 256 → has (row_of rows.new kind) q
        ≡ (if place == q then has_type types kind else has (row_of rows.old kind) q) }
    ensures wide { (words : ℕ) → AreWide words rows.old → AreWide words rows.new }
{
    for kind in 0..TYPES {
        put_type(&mut rows[kind], place, types.has_type(kind as u8));
    }
}

/// The least place from this one on that has the type.
pub(crate) fn next_of_type(rows: &[Row], kind: u8, from: usize) -> Option<usize>
    requires { (words : ℕ) × AreWide words rows.now × (words ≤ 2 ^ 58) }
    ensures { IsNextBit (row_of rows.now kind) from result }
{
    next_bit(&rows[kind as usize], from)
}
