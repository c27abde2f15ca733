//! Reading the text of a seam.
ghost use Rattle.std.specs.Prelude.{◌≡◌, ◌++◌, ◌∷◌, ◌+◌, ◌*◌, ◌<◌, ◌≤◌, ◌^◌, [], true, false, ℕ, List, Option, Some, IfOk, IfSome, flat_map, length, map, slice_get, codes, drop};
ghost use Rattle.fab_base.specs.Counting.{counting};
ghost use Rattle.fab_base.specs.Fabric as fabric;
ghost use Rattle.fab_policy.specs.State as state;
ghost use Rattle.fab_policy.specs.Text.{address_word};
ghost use Rattle.fab_pieces.specs.Seam as spec;
ghost use Rattle.fab_state.specs.Words.{AreLines, IsLine};
ghost use Rattle.fab_state.specs.Readable.{AreReadPorts, IsOther, NoAddress, NoKind, NoLogin};

use crate::lines::{behind_lines, login_of, may_moment_of};
use crate::words::{address_of, cut_line, name_of, number_of, word_at};
use crate::{NextList, Past, PastList, PortList};
use fab_base::{FcId, Moment, NoMemory};
use std::alloc::Global;

// The line at a place, counted from 0.
fn line_at(text: &[u8], place: usize) -> &[u8]
    ensures { (rows : List (List (List ℕ))) (ws : List (List ℕ)) (more : List ℕ) → AreLines rows
        → slice_get rows place ≡ Some ws → text.now ≡ flat_map spec.row_text rows ++ more
        → result.now ≡ spec.row_text ws }
{
    cut_line(behind_lines(text, place)).0
}

// ---- the first five lines

pub(crate) fn clock_in(text: &[u8]) -> Option<Moment>
    ensures { (s : spec.Seam) (more : List ℕ) → spec.IsRangedSeam s
        → text.now ≡ flat_map spec.row_text (spec.rows_of s) ++ more
        → result ≡ s.state.tables.clock }
{
    may_moment_of(word_at(line_at(text, 1), 1))
}

pub(crate) fn advertised_in(text: &[u8]) -> Option<Moment>
    ensures { (s : spec.Seam) (more : List ℕ) → spec.IsRangedSeam s
        → text.now ≡ flat_map spec.row_text (spec.rows_of s) ++ more
        → result ≡ s.state.advertised }
{
    may_moment_of(word_at(line_at(text, 2), 1))
}

pub(crate) fn changes_in(text: &[u8]) -> u64
    ensures { (s : spec.Seam) (more : List ℕ) → spec.IsRangedSeam s
        → text.now ≡ flat_map spec.row_text (spec.rows_of s) ++ more → result ≡ s.state.rscns }
{
    number_of(word_at(line_at(text, 3), 1))
}

pub(crate) fn greatest_in(text: &[u8]) -> Moment
    ensures { (s : spec.Seam) (more : List ℕ) → spec.IsRangedSeam s
        → text.now ≡ flat_map spec.row_text (spec.rows_of s) ++ more → result ≡ s.greatest }
{
    Moment(number_of(word_at(line_at(text, 4), 1)))
}

// ---- ports

// The next index of the port at a place.
fn next_in(text: &[u8], place: usize) -> u64
    requires { place < 2 ^ 32 }
    ensures { (s : spec.Seam) (more : List ℕ) (n : ℕ) → spec.IsRangedSeam s
        → text.now ≡ flat_map spec.row_text (spec.rows_of s) ++ more
        → slice_get s.nexts place ≡ Some n → result ≡ n }
{
    number_of(word_at(line_at(text, place + 5), 2))
}

pub(crate) fn nexts_of(alloc: Global, count: u32, text: &[u8]) -> Result<NextList, NoMemory>
    ensures { IfOk result (λ ns. (s : spec.Seam) (more : List ℕ) → spec.IsRangedSeam s
        → text.now ≡ flat_map spec.row_text (spec.rows_of s) ++ more → length s.nexts ≡ count
        → ns ≡ s.nexts) }
{
    let mut nexts = Vec::new(alloc);
    for place in 0..count as usize {
        nexts.push(next_in(text, place))?;
    }
    Ok(NextList::from_vec(nexts))
}

// ---- addresses

// The addresses of a pool, of which those that anybody had have lines.
pub(crate) fn pasts_of(
    alloc: Global,
    first: u32,
    count: u32,
    text: &[u8],
) -> Result<PastList, NoMemory>
    requires { first + count ≤ 2 ^ 24 }
    ensures { IfOk result (λ qs. (past : List fabric.Past) (more : List ℕ)
        → map (λ q. q.address) past ≡ counting first count → spec.ArePast past → NoAddress more
        → text.now ≡ flat_map spec.row_text (spec.past_rows past) ++ more → qs ≡ past) }
{
    let mut pasts = Vec::new(alloc);
    let mut rest = text;
    for place in 0..count {
        let (past, behind) = next_past(rest, address_at(first, place));
        pasts.push(past)?;
        rest = behind;
    }
    Ok(PastList::from_vec(pasts))
}

// The address at a place of a pool.
fn address_at(first: u32, place: u32) -> FcId
    requires { first + place < 2 ^ 24 }
    ensures { result ≡ first + place }
{
    FcId::new(first + place).unwrap()
}

// The past of an address, by the line at the beginning of a text if that is its own.
fn next_past(text: &[u8], address: FcId) -> (Past, &[u8])
    ensures { (q : fabric.Past) (tail : List fabric.Past) (n : ℕ) (more : List ℕ)
        → q.address ≡ address → map (λ x. x.address) tail ≡ counting (address + 1) n
        → spec.ArePast (q ∷ tail) → NoAddress more
        → text.now ≡ flat_map spec.row_text (spec.past_rows (q ∷ tail)) ++ more
        → (result.0 ≡ q)
        × (result.1.now ≡ flat_map spec.row_text (spec.past_rows tail) ++ more) }
{
    if is_of(text, address) {
        let (line, behind) = cut_line(text);
        (past_in(line, address), behind)
    } else {
        (unused(address), text)
    }
}

// Whether a text begins with the line of this address.
fn is_of(text: &[u8], address: FcId) -> bool
    ensures own { (ws : List (List ℕ)) (more : List ℕ)
        → IsLine (codes "address" ∷ address_word address ∷ ws) → text.now
        ≡ spec.row_text (codes "address" ∷ address_word address ∷ ws) ++ more → result ≡ true }
    ensures other { IsOther address text.now → result ≡ false }
{
    if begins(text, b"address") {
        named_in(text).value() == address.value()
    } else {
        false
    }
}

// Whether a text begins with a line whose first word is this one.
fn begins(text: &[u8], word: &[u8]) -> bool
    ensures some { result ≡ true → 0 < length text.now }
    ensures own { (ws : List (List ℕ)) (more : List ℕ) → IsLine (word.now ∷ ws)
        → text.now ≡ spec.row_text (word.now ∷ ws) ++ more → result ≡ true }
    ensures other { NoKind word.now text.now → result ≡ false }
{
    if text.is_empty() {
        false
    } else {
        first_word(text) == word
    }
}

fn first_word(text: &[u8]) -> &[u8]
    ensures { (w : List ℕ) (ws : List (List ℕ)) (more : List ℕ) → IsLine (w ∷ ws)
        → text.now ≡ spec.row_text (w ∷ ws) ++ more → result.now ≡ w }
{
    word_at(cut_line(text).0, 0)
}

// The address of the line at the beginning of a text.
fn named_in(text: &[u8]) -> FcId
    ensures { (a : ℕ) (ws : List (List ℕ)) (more : List ℕ) → a < 2 ^ 24
        → IsLine (codes "address" ∷ address_word a ∷ ws)
        → text.now ≡ spec.row_text (codes "address" ∷ address_word a ∷ ws) ++ more → result ≡ a }
{
    address_of(word_at(cut_line(text).0, 1))
}

fn past_in(line: &[u8], address: FcId) -> Past
    ensures { (q : fabric.Past) (name : ℕ) → spec.IsRangedPast q → q.address ≡ address
        → q.name ≡ Some name → line.now ≡ spec.row_text (spec.past_row q name) → result ≡ q }
{
    Past {
        address,
        name: Some(name_of(word_at(line, 2))),
        ended: may_moment_of(word_at(line, 3)),
    }
}

fn unused(address: FcId) -> Past
    ensures { (q : fabric.Past) → spec.IsRangedPast q → q.address ≡ address → q.name ≡ None
        → result ≡ q }
{
    Past {
        address,
        name: None,
        ended: None,
    }
}

// ---- logins

pub(crate) fn ports_of(alloc: Global, text: &[u8]) -> Result<PortList, NoMemory>
    ensures { IfOk result (λ ps. (ports : List state.LivePort) (more : List ℕ)
        → AreReadPorts ports → NoLogin more
        → text.now ≡ flat_map spec.row_text (map spec.login_row ports) ++ more → ps ≡ ports) }
{
    let mut ports = Vec::new(alloc);
    let mut rest = text;
    'logins: while begins(rest, b"login") {
        let (line, behind) = cut_line(rest);
        ports.push(login_of(alloc, line)?)?;
        rest = behind;
    }
    Ok(PortList::from_vec(ports))
}
