//! Descriptors: the table of their types, and the walk over a list of them (FC-BB-5, "FIP
//! descriptors").
ghost use Rattle.std.specs.Prelude.{◌≡◌, ◌<◌, ◌≤◌, ◌+◌, ◌*◌, ◌%◌, ◌∷◌, [], if◌then◌else◌};
ghost use Rattle.std.specs.Prelude.{ℕ, true, Some, None, length, take, drop, slice_get, IfSome};
ghost use Rattle.std.specs.Prelude.{IsNone};
ghost use Rattle.std.specs.Option.{option_map};
ghost use Rattle.fip_codec.specs.Fip.{HEADER, in_table, words_fit, family, vx_port, vlan_number};
ghost use Rattle.fip_codec.specs.Walk.{listed, broken, of_type, has_type, said, are_sound, room};
ghost use Rattle.fip_codec.specs.Table.{seen, parts, code_parts};

use crate::message::VxPort;
use fab_base::fields::{address_at, mac_at, name_at, u16_at};

pub(crate) const PRIORITY: u8 = 1;

pub(crate) const MAC: u8 = 2;

pub(crate) const NAME: u8 = 4;

pub(crate) const FABRIC: u8 = 5;

pub(crate) const SIZE: u8 = 6;

pub(crate) const FLOGI: u8 = 7;

pub(crate) const FDISC: u8 = 8;

pub(crate) const LOGO: u8 = 9;

pub(crate) const VX_PORT: u8 = 11;

pub(crate) const ADVERTISING: u8 = 12;

pub(crate) const VLAN: u8 = 14;

/// Types from here on are skipped by whoever doesn't know them.
pub(crate) const FIRST_SKIPPED: u8 = 128;

/// A descriptor, whose content is what stands after type and length.
#[derive(Clone, Copy, Debug)]
pub(crate) struct Descriptor<'a> {
    pub(crate) kind: u8,
    pub(crate) words: u8,
    pub(crate) content: &'a [u8],
}

/// Whether a type is in the table.
pub(crate) fn in_table(kind: u8) -> bool
    ensures { result ≡ in_table kind }
{
    matches!(
        kind,
        PRIORITY | MAC | NAME | FABRIC | SIZE | FLOGI | FDISC | LOGO | VX_PORT | ADVERTISING | VLAN
    )
}

/// Whether a type of the table may have this length in words.
pub(crate) fn words_fit(kind: u8, words: u8) -> bool
    ensures { result ≡ words_fit kind words }
{
    match kind {
        PRIORITY => words == 1,
        MAC => words == 2,
        NAME => words == 3,
        FABRIC => words == 4,
        SIZE => words == 1,
        FLOGI | FDISC | LOGO => words >= 7,
        VX_PORT => words == 5,
        ADVERTISING => words == 2,
        VLAN => words == 1,
        _ => false,
    }
}

/// The type that this one counts as: the three encapsulated frames count as one.
pub(crate) fn family(kind: u8) -> u8
    ensures { result ≡ family kind }
{
    match kind {
        FDISC | LOGO => FLOGI,
        _ => kind,
    }
}

/// Cuts the first descriptor off a list. There is none at the end, and where it isn't whole.
pub(crate) fn cut(list: &[u8]) -> Option<(Descriptor<'_>, &[u8])>
    ensures whole { IfSome result (λ x. (at : ℕ)
        → listed at list.now ≡ seen at x.0 ∷ listed (at + 4 * x.0.words) x.1.now) }
    ensures front { IfSome result (λ x. (at : ℕ)
        → listed at (take (4 * x.0.words) list.now) ≡ seen at x.0 ∷ []) }
    ensures rest { IfSome result (λ x. (x.1.now ≡ drop (4 * x.0.words) list.now)
        × (4 * x.0.words ≤ length list.now)) }
    ensures size { IfSome result (λ x. (length x.0.content.now + 2 ≡ 4 * x.0.words)
        × (0 < x.0.words)) }
    ensures broken { IsNone result → 0 < length list.now → (at : ℕ)
        → listed at list.now ≡ broken at list.now ∷ [] }
    ensures end { IsNone result → length list.now ≡ 0 → (at : ℕ) → listed at list.now ≡ [] }
{
    let [kind, words, rest @ ..] = list else {
        return None;
    };
    let size = 4 * *words as usize;
    if size == 0 || list.len() < size {
        return None;
    }
    let (content, more) = rest.split_at(size - 2);
    let first = Descriptor {
        kind: *kind,
        words: *words,
        content,
    };
    Some((first, more))
}

/// A descriptor of a type, counted from 0.
pub(crate) fn nth_of(list: &[u8], kind: u8, index: usize) -> Option<Descriptor<'_>>
    ensures found { option_map code_parts result ≡ option_map parts
        (slice_get (of_type kind HEADER list.now) index) }
    ensures room { are_sound list.now ≡ true → IfSome result
        (λ d. room kind ≤ length d.content.now) }
{
    let mut rest = list;
    let mut left = index;
    while let Some((first, more)) = cut(rest) {
        if family(first.kind) == kind {
            if left == 0 {
                return Some(first);
            }
            left -= 1;
        }
        rest = more;
    }
    None
}

/// How many descriptors of a type there are.
pub(crate) fn count_of(list: &[u8], kind: u8) -> usize
    ensures { result ≡ length (of_type kind HEADER list.now) }
{
    let mut rest = list;
    let mut count = 0;
    while let Some((first, more)) = cut(rest) {
        if family(first.kind) == kind {
            count += 1;
        }
        rest = more;
    }
    count
}

/// The content of the first descriptor of a type, where there is one.
pub(crate) fn find(list: &[u8], kind: u8) -> Option<&[u8]>
    requires { are_sound list.now ≡ true }
    ensures found { option_map (λ c. c.now) result
        ≡ (if has_type kind list.now then Some (said kind list.now) else None) }
    ensures room { IfSome result (λ c. room kind ≤ length c.now) }
{
    match nth_of(list, kind, 0) {
        Some(first) => Some(first.content),
        None => None,
    }
}

/// Whether a type is there.
pub(crate) fn has(list: &[u8], kind: u8) -> bool
    requires { are_sound list.now ≡ true }
    ensures { result ≡ has_type kind list.now }
{
    find(list, kind).is_some()
}

/// The content of the first descriptor of a type that is there.
pub(crate) fn content_of(list: &[u8], kind: u8) -> &[u8]
    requires sound { are_sound list.now ≡ true }
    requires there { has_type kind list.now ≡ true }
    ensures content { result.now ≡ said kind list.now }
    ensures room { room kind ≤ length result.now }
{
    match find(list, kind) {
        Some(content) => content,
        None => unreachable!(),
    }
}

/// The Vx_Port of a descriptor's content.
pub(crate) fn vx_port(content: &[u8]) -> VxPort
    requires { 18 ≤ length content.now }
    ensures { result ≡ vx_port content.now }
{
    VxPort {
        mac: mac_at(content, 0),
        address: address_at(content, 7),
        name: name_at(content, 10),
    }
}

/// The VLAN number of a descriptor's content, in the low 12 bits.
pub(crate) fn vlan_number(content: &[u8]) -> u16
    requires { 2 ≤ length content.now }
    ensures { result ≡ vlan_number content.now }
{
    u16_at(content, 0) % 4096
}
