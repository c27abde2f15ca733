//! What pages had, so that a refusal leaves them that.
ghost use Rattle.std.specs.Prelude.{◌≡◌, ◌≢◌, ℕ, ◌<◌, List, length, map, take, IfOk};
ghost use Rattle.fab_pages.specs.Pages.{GoOn, items_in, piece_at};

use fab_base::NoMemory;
use std::alloc::Global;

// The length of each page.
pub(crate) fn lengths_of(alloc: Global, pages: &[Vec<u8>]) -> Result<Vec<usize>, NoMemory>
    ensures { IfOk result (λ v. v.items ≡ map (λ page. length page) (items_in pages.now)) }
{
    let mut lengths = Vec::new(alloc);
    for place in 0..pages.len() {
        lengths.push(pages[place].len())?;
    }
    Ok(lengths)
}

// Cuts each page to its length of before, so that they have what they had.
pub(crate) fn cut_all(lengths: &[usize], pages: &mut [Vec<u8>])
    requires { length lengths.now ≡ length pages.old }
    ensures count { length pages.new ≡ length pages.old }
    ensures back { (old : List (List ℕ)) → lengths.now ≡ map (λ page. length page) old
        → GoOn old (items_in pages.old) → items_in pages.new ≡ old }
{
    for place in 0..pages.len() {
        cut(pages, place, lengths[place]);
    }
}

// Cuts the page at a place.
fn cut(pages: &mut [Vec<u8>], place: usize, len: usize)
    requires { place < length pages.old }
    ensures count { length pages.new ≡ length pages.old }
    ensures own { piece_at (items_in pages.new) place
        ≡ take len (piece_at (items_in pages.old) place) }
    ensures others { (q : ℕ) → q ≢ place → piece_at (items_in pages.new) q
        ≡ piece_at (items_in pages.old) q }
{
    pages[place].truncate(len);
}
