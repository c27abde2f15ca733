//! The lines of a seam, read as generously.
ghost use Rattle.std.specs.Prelude.{◌≡◌, ◌++◌, ◌∷◌, ◌+◌, ◌*◌, ◌<◌, ◌≤◌, ◌^◌, [], ℕ, List, Option, IfOk, IfSome, flat_map, length, decimal, slice_get, slice_index};
ghost use Rattle.std.specs.Int.{from_be_bytes, w32};
ghost use Rattle.ct_messages.specs.Server.{NO_FEATURES};
ghost use Rattle.ct_messages.specs.declared.TypeMap as types;
ghost use Rattle.fab_policy.specs.State as state;
ghost use Rattle.fab_pieces.specs.Seam as spec;
ghost use Rattle.fab_state.specs.Words.{AreLines, first_of};
ghost use Rattle.fab_state.specs.Readable.{IsReadPort};

use crate::words::{
    address_of, bytes_of, cut_line, mac_of, may_number_of, name_of, number_of, port_of,
    read_digits, word_at,
};
use crate::{LivePort, Values};
use ct_messages::TypeMap;
use fab_base::{Bytes, Enode, FcId, Moment, NoMemory, Wwn};
use std::alloc::Global;

// ---- values

/// The moment of a word that may be missing.
pub(crate) fn may_moment_of(word: &[u8]) -> Option<Moment>
    ensures { (o : Option ℕ) → IfSome o spec.IsLong → word.now ≡ first_of (spec.may_word o)
        → result ≡ o }
{
    match may_number_of(word) {
        Some(number) => Some(Moment(number)),
        None => None,
    }
}

// A receive size that may be missing.
fn size_of(word: &[u8]) -> Option<u16>
    ensures { (o : Option ℕ) → IfSome o (λ n. n < 2 ^ 16) → word.now ≡ first_of (spec.may_word o)
        → result ≡ o }
{
    match may_number_of(word) {
        Some(number) => Some((number % 65536) as u16),
        None => None,
    }
}

// A number below 256.
fn small_of(word: &[u8]) -> u8
    ensures { (n : ℕ) → n < 256 → word.now ≡ decimal n → result ≡ n }
{
    (number_of(word) % 256) as u8
}

fn types_of(word: &[u8]) -> TypeMap
    ensures { (t : types.TypeMap) → length t.0 ≡ 8 → spec.AreBelow (2 ^ 32) t.0
        → word.now ≡ spec.types_word t → result ≡ t }
{
    let mut bytes = [0; 32];
    read_digits(word, &mut bytes);
    TypeMap([
        long_at(&bytes, 0),
        long_at(&bytes, 4),
        long_at(&bytes, 8),
        long_at(&bytes, 12),
        long_at(&bytes, 16),
        long_at(&bytes, 20),
        long_at(&bytes, 24),
        long_at(&bytes, 28),
    ])
}

// The number of four bytes.
fn long_at(bytes: &[u8], at: usize) -> u32
    requires { at + 4 ≤ length bytes.now }
    ensures { result ≡ from_be_bytes w32 (slice_index bytes.now at ∷ slice_index bytes.now (at + 1)
        ∷ slice_index bytes.now (at + 2) ∷ slice_index bytes.now (at + 3) ∷ []) }
{
    u32::from_be_bytes([bytes[at], bytes[at + 1], bytes[at + 2], bytes[at + 3]])
}

// The features of all types.
fn features_of(alloc: Global, word: &[u8]) -> Result<Bytes, NoMemory>
    ensures { IfOk result (λ b. (fs : List ℕ) → length fs ≡ 256 → spec.AreBelow 256 fs
        → word.now ≡ spec.features_word fs → b ≡ fs) }
{
    let bytes = bytes_of(alloc, word)?;
    if bytes.view().is_empty() {
        no_features(alloc)
    } else {
        Ok(bytes)
    }
}

#[tactic(auto, unfolding(ct_messages::specs::Server::NO_FEATURES))]
fn no_features(alloc: Global) -> Result<Bytes, NoMemory>
    ensures { IfOk result (λ b. b ≡ NO_FEATURES) }
{
    Bytes::copy(alloc, &[0; 256])
}

// ---- the line of a login

/// The N_Port of a line.
pub(crate) fn login_of(alloc: Global, line: &[u8]) -> Result<LivePort, NoMemory>
    ensures { IfOk result (λ x. (p : state.LivePort) → IsReadPort p
        → line.now ≡ spec.row_text (spec.login_row p) → x ≡ p) }
{
    let values = values_in(alloc, line)?;
    Ok(LivePort {
        address: address_in(line),
        name: name_in(line),
        node: node_in(line),
        enode: enode_in(line),
        server: size_in(line),
        node_heard: node_heard_in(line),
        port_heard: port_heard_in(line),
        watch: watch_in(line),
        values,
    })
}

fn address_in(line: &[u8]) -> FcId
    ensures { (p : state.LivePort) → IsReadPort p
        → line.now ≡ spec.row_text (spec.login_row p) → result ≡ p.address }
{
    address_of(word_at(line, 1))
}

fn name_in(line: &[u8]) -> Wwn
    ensures { (p : state.LivePort) → IsReadPort p
        → line.now ≡ spec.row_text (spec.login_row p) → result ≡ p.name }
{
    name_of(word_at(line, 2))
}

fn node_in(line: &[u8]) -> Wwn
    ensures { (p : state.LivePort) → IsReadPort p
        → line.now ≡ spec.row_text (spec.login_row p) → result ≡ p.node }
{
    name_of(word_at(line, 3))
}

fn enode_in(line: &[u8]) -> Enode
    ensures { (p : state.LivePort) → IsReadPort p
        → line.now ≡ spec.row_text (spec.login_row p) → result ≡ p.enode }
{
    Enode {
        port: port_of(word_at(line, 4)),
        mac: mac_of(word_at(line, 5)),
    }
}

fn node_heard_in(line: &[u8]) -> Moment
    ensures { (p : state.LivePort) → IsReadPort p
        → line.now ≡ spec.row_text (spec.login_row p) → result ≡ p.node_heard }
{
    Moment(number_of(word_at(line, 6)))
}

fn port_heard_in(line: &[u8]) -> Moment
    ensures { (p : state.LivePort) → IsReadPort p
        → line.now ≡ spec.row_text (spec.login_row p) → result ≡ p.port_heard }
{
    Moment(number_of(word_at(line, 7)))
}

fn watch_in(line: &[u8]) -> u8
    ensures { (p : state.LivePort) → IsReadPort p
        → line.now ≡ spec.row_text (spec.login_row p) → result ≡ p.watch }
{
    small_of(word_at(line, 8))
}

fn values_in(alloc: Global, line: &[u8]) -> Result<Values, NoMemory>
    ensures { IfOk result (λ v. (p : state.LivePort) → IsReadPort p
        → line.now ≡ spec.row_text (spec.login_row p) → v ≡ p.values) }
{
    let features = features_of(alloc, word_at(line, 11))?;
    let symbol = bytes_of(alloc, word_at(line, 12))?;
    let node_symbol = bytes_of(alloc, word_at(line, 13))?;
    Ok(Values {
        node_name: name_of(word_at(line, 9)),
        types: types_of(word_at(line, 10)),
        features,
        symbol,
        node_symbol,
    })
}

fn size_in(line: &[u8]) -> Option<u16>
    ensures { (p : state.LivePort) → IsReadPort p
        → line.now ≡ spec.row_text (spec.login_row p) → result ≡ p.server }
{
    size_of(word_at(line, 14))
}

// ---- lines of a text

/// The text behind so many lines.
pub(crate) fn behind_lines(text: &[u8], count: usize) -> &[u8]
    ensures { (rows : List (List (List ℕ))) (more : List ℕ) → AreLines rows → length rows ≡ count
        → text.now ≡ flat_map spec.row_text rows ++ more → result.now ≡ more }
{
    let mut rest = text;
    for index in 0..count {
        rest = cut_line(rest).1;
    }
    rest
}
