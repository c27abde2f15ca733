//! Rows of bits, one for each place of a list, in words of 64.
ghost use Rattle.std.specs.Prelude.{◌≡◌, ◌==◌, ◌&&◌, ◌||◌, ◌<◌, ◌≤◌, ◌^◌, ◌/◌, not, ℕ, ◌+◌, true, false, length, OnOk, OnErr, IfOk};
ghost use Rattle.std.specs.Bool.{OnTrue, OnFalse};
ghost use Rattle.sorted_lists.specs.Row.{has, IsCommon, HasNone, IsNextBit};

use fab_base::NoMemory;
use std::alloc::Global;

pub type Row = Vec<u64>;

/// Sets the bit of a place. Where memory is refused the row stays.
pub fn set_bit(_alloc: Global, row: &mut Row, place: usize) -> Result<(), NoMemory>
    ensures ok { OnOk result ((q : ℕ) → has row.new.items q ≡ (place == q || has row.old.items q)) }
    ensures err { OnErr result (row.new.items ≡ row.old.items) }
{
    let word = place / 64;
    if row.len() <= word {
        row.resize(word + 1, 0)?;
    }
    row[word] |= 1 << (place % 64);
    Ok(())
}

/// Whether three rows have a place in common.
pub fn share_a_place(xs: &[u64], ys: &[u64], zs: &[u64]) -> bool
    ensures common { OnTrue result (IsCommon xs.now ys.now zs.now) }
    ensures none { OnFalse result (HasNone xs.now ys.now zs.now) }
{
    let words = xs.len().min(ys.len()).min(zs.len());
    for word in 0..words {
        if xs[word] & ys[word] & zs[word] != 0 {
            return true;
        }
    }
    false
}

/// Clears the bit of a place that stands in the row.
pub fn clear_bit(row: &mut Row, place: usize)
    requires { place / 64 < length row.old.items }
    ensures bits { (q : ℕ) → has row.new.items q ≡ (not (place == q) && has row.old.items q) }
    ensures words { length row.new.items ≡ length row.old.items }
{
    row[place / 64] &= !(1 << (place % 64));
}

/// Sets the bit of a place that stands in the row.
pub fn put_bit(row: &mut Row, place: usize)
    requires { place / 64 < length row.old.items }
    ensures bits { (q : ℕ) → has row.new.items q ≡ (place == q || has row.old.items q) }
    ensures words { length row.new.items ≡ length row.old.items }
{
    row[place / 64] |= 1 << (place % 64);
}

/// A row for this many places, whose bits are all set.
pub fn full_row(alloc: Global, places: u32) -> Result<Row, NoMemory>
    ensures bits { IfOk result (λ row. (q : ℕ) → q < places → has row.items q ≡ true) }
    ensures words { IfOk result (λ row. length row.items ≡ places / 64 + 1) }
{
    let row = vec![in alloc; u64::MAX; places as usize / 64 + 1]?;
    Ok(row)
}

/// A row for this many places, of which none is set.
pub fn empty_row(alloc: Global, places: usize) -> Result<Row, NoMemory>
    ensures bits { IfOk result (λ row. (q : ℕ) → has row.items q ≡ false) }
    ensures words { IfOk result (λ row. length row.items ≡ places / 64 + 1) }
{
    let row = vec![in alloc; 0; places / 64 + 1]?;
    Ok(row)
}

/// The least place from this one on whose bit is set.
pub fn next_bit(row: &[u64], from: usize) -> Option<usize>
    requires { length row.now ≤ 2 ^ 58 }
    ensures { IsNextBit row.now from result }
{
    let word = from / 64;
    if word >= row.len() {
        return None;
    }
    let rest = row[word] & (u64::MAX << (from % 64));
    if rest != 0 {
        return Some(64 * word + rest.trailing_zeros() as usize);
    }
    for next in word + 1..row.len() {
        if row[next] != 0 {
            return Some(64 * next + row[next].trailing_zeros() as usize);
        }
    }
    None
}
