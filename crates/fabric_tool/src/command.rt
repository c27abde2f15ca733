//! The words of the command line.
ghost use Rattle.std.specs.Prelude.{◌≡◌, ◌+◌, ◌*◌, ◌<◌, ◌≤◌, length, drop, true};
ghost use Rattle.std.specs.Str.{bytes_eq};
ghost use Rattle.std.specs.List.{list_any};
ghost use Rattle.fab_base.specs.Places.{name_at};
ghost use Rattle.side_runs.specs.Sides.{AreDifferent};
ghost use Rattle.fabric_tool.specs.Command as spec;

use crate::number::{number_of, start_of};
use enode_core::Identity;
use fab_base::{MOST_PORTS, Moment, word_at};
use fab_config::{read_mac, read_name};

/// The forms of a command line.
#[derive(Clone, Copy, Debug, PartialEq, Eq)]
pub(crate) enum Form {
    /// `run CONFIG JOURNAL IN OUT [IN OUT ..]` with 1 to 64 pairs. No name is empty or used twice.
    Run,
    /// `replay CONFIG JOURNAL IN OUT [IN OUT ..]`, the same.
    Replay,
    /// `show CONFIG JOURNAL IN [IN ..]` with 1 to 64 inputs.
    Show,
    /// `convert IN OUT`. No name is empty, and they differ.
    Convert,
    /// `migrate OLD NEW`. No name is empty, and they differ.
    Migrate,
    /// `make NUMBER CONFIG IN1 .. IN8`. No name is empty or used twice.
    Make { number: u64 },
    /// `snoop CONFIG IN OUT IN OUT [IN OUT ..]` with 2 to 64 pairs. No name is empty or used twice.
    Snoop,
    /// `enode START MAC PORTNAME NODENAME IN OUT`. No file name is empty, and they differ.
    Enode { start: Moment, own: Identity },
    /// `live CONFIG JOURNAL STREAM IN OUT [IN OUT ..]` with 1 to 64 pairs. No name is empty or used
    /// twice.
    Live,
    /// `--help`
    Help,
    /// `--version`
    Version,
}

/// How many names a port has: that of its input, or that of its output behind it.
#[derive(Clone, Copy, Debug, PartialEq, Eq)]
pub(crate) enum Width {
    One,
    Two,
}

/// The form that words have, or none.
pub(crate) fn form_of(words: &[String]) -> Option<Form>
    ensures { result ≡ spec.form_of words.now }
{
    if is_over(words, "run") {
        Some(Form::Run)
    } else if is_over(words, "replay") {
        Some(Form::Replay)
    } else if is_over_singles(words, "show") {
        Some(Form::Show)
    } else if is_pair(words, "convert") {
        Some(Form::Convert)
    } else if is_pair(words, "migrate") {
        Some(Form::Migrate)
    } else if is_make(words) {
        make_form(words)
    } else if is_snoop(words) {
        Some(Form::Snoop)
    } else if is_enode(words) {
        enode_form(words)
    } else if is_live(words) {
        Some(Form::Live)
    } else if is_word(words, "--help") {
        Some(Form::Help)
    } else if is_word(words, "--version") {
        Some(Form::Version)
    } else {
        None
    }
}

// Whether these are this word, two names, and 1 to 64 pairs of names.
fn is_over(words: &[String], word: &str) -> bool
    ensures { result ≡ spec.is_over word.now words.now }
{
    are_pairs(words) && word_at(words, 0) == word
}

fn are_pairs(words: &[String]) -> bool
    ensures pairs { result ≡ spec.are_pairs words.now }
    ensures some { result ≡ true → 0 < length words.now }
{
    has_pairs(words) && are_names(words, 1)
}

// Whether these are this word and two names.
fn is_pair(words: &[String], word: &str) -> bool
    ensures { result ≡ spec.is_pair word.now words.now }
{
    words.len() == 3 && word_at(words, 0) == word && are_names(words, 1)
}

// Whether these are `make`, a word, and nine names.
fn is_make(words: &[String]) -> bool
    ensures { result ≡ spec.is_make words.now }
{
    words.len() == 11 && word_at(words, 0) == "make" && are_names(words, 2)
}

// The form of `make`, whose first word is a number.
fn make_form(words: &[String]) -> Option<Form>
    requires { spec.is_make words.now ≡ true }
    ensures { result ≡ spec.make_form words.now }
{
    let number = number_of(word_at(words, 1))?;
    Some(Form::Make { number })
}

// Whether these are `snoop`, a name, and 2 to 64 pairs of names.
fn is_snoop(words: &[String]) -> bool
    ensures { result ≡ spec.is_snoop words.now }
{
    has_sides(words) && are_names(words, 1) && word_at(words, 0) == "snoop"
}

fn has_sides(words: &[String]) -> bool
    ensures sides { result ≡ spec.has_sides words.now }
    ensures some { result ≡ true → 0 < length words.now }
{
    words.len() >= 6 && words.len() <= 2 + 2 * MOST_PORTS && words.len() % 2 == 0
}

// Whether these are `enode`, four words, and the names of two files.
fn is_enode(words: &[String]) -> bool
    ensures { result ≡ spec.is_enode words.now }
{
    words.len() == 7 && word_at(words, 0) == "enode" && are_names(words, 5)
}

// The form of `enode`, whose first words are a moment, a MAC, and the names of a port and of a
// node.
fn enode_form(words: &[String]) -> Option<Form>
    requires { spec.is_enode words.now ≡ true }
    ensures { result ≡ spec.enode_form words.now }
{
    let start = start_of(word_at(words, 1))?;
    let own = own_of(words)?;
    Some(Form::Enode { start, own })
}

fn own_of(words: &[String]) -> Option<Identity>
    requires { spec.is_enode words.now ≡ true }
    ensures { result ≡ spec.own_of words.now }
{
    let mac = read_mac(word_at(words, 2).as_bytes())?;
    let name = read_name(word_at(words, 3).as_bytes())?;
    let node = read_name(word_at(words, 4).as_bytes())?;
    Some(Identity { mac, name, node })
}

// Whether these are `live`, three names, and 1 to 64 pairs of names.
fn is_live(words: &[String]) -> bool
    ensures { result ≡ spec.is_live words.now }
{
    has_both(words) && are_names(words, 1) && word_at(words, 0) == "live"
}

fn has_both(words: &[String]) -> bool
    ensures both { result ≡ spec.has_both words.now }
    ensures some { result ≡ true → 0 < length words.now }
{
    words.len() >= 6 && words.len() <= 4 + 2 * MOST_PORTS && words.len() % 2 == 0
}

// Whether this is the only word.
fn is_word(words: &[String], word: &str) -> bool
    ensures { result ≡ spec.is_word word.now words.now }
{
    words.len() == 1 && word_at(words, 0) == word
}

// Whether these are this word, two names, and 1 to 64 names.
fn is_over_singles(words: &[String], word: &str) -> bool
    ensures { result ≡ spec.is_over_singles word.now words.now }
{
    are_singles(words) && word_at(words, 0) == word
}

fn are_singles(words: &[String]) -> bool
    ensures singles { result ≡ spec.are_singles words.now }
    ensures some { result ≡ true → 0 < length words.now }
{
    words.len() >= 4 && words.len() <= 3 + MOST_PORTS && are_names(words, 1)
}

fn has_pairs(words: &[String]) -> bool
    ensures pairs { result ≡ spec.has_pairs words.now }
    ensures some { result ≡ true → 0 < length words.now }
{
    words.len() >= 5 && words.len() <= 3 + 2 * MOST_PORTS && words.len() % 2 == 1
}

// Whether from this place on no name is empty and none is used twice.
#[tactic(auto, using(crate::proofs::CommandLemmas::names_from_there))]
fn are_names(words: &[String], first: usize) -> bool
    ensures { result ≡ spec.are_names (spec.names_from first words.now) }
{
    for index in first..words.len() {
        if word_at(words, index).is_empty() || is_used_after(words, index) {
            return false;
        }
    }
    true
}

// Whether the name at a place is used once more behind it.
#[tactic(auto, using(crate::proofs::CommandLemmas::names_from_there))]
fn is_used_after(words: &[String], place: usize) -> bool
    requires { place < length words.now }
    ensures { result ≡ list_any (λ m. bytes_eq (name_at words.now place) m)
        (spec.names_from (place + 1) words.now) }
{
    for index in place + 1..words.len() {
        if word_at(words, place) == word_at(words, index) {
            return true;
        }
    }
    false
}

/// The name of a file of a load, which is counted from 0.
pub(crate) fn file_at(words: &[String], place: usize) -> &str
    requires { place + 2 < length words.now }
    ensures { result.now ≡ spec.file_at words.now place }
{
    word_at(words, place + 2)
}

/// The names of a bridge's ports: an input and an output for each.
pub(crate) fn sides_of(words: &[String]) -> &[String]
    requires { spec.is_snoop words.now ≡ true }
    ensures value { result.now ≡ drop 2 words.now }
    ensures few { length result.now ≤ 128 }
    ensures different { AreDifferent result.now }
{
    &words[2..]
}

/// How many ports the command has.
pub(crate) fn port_count(words: &[String]) -> usize
    requires { spec.are_pairs words.now ≡ true }
    ensures value { result ≡ spec.port_count words.now }
    ensures range { (1 ≤ result) × (result ≤ 64) }
    ensures words { 2 * result + 3 ≡ length words.now }
{
    (words.len() - 3) / 2
}

/// How many ports words of this width have.
pub(crate) fn count_of(words: &[String], width: Width) -> usize
    requires { spec.are_ports width words.now ≡ true }
    ensures value { result ≡ spec.count_of width words.now }
    ensures range { (1 ≤ result) × (result ≤ 64) }
    ensures words { spec.place_of width result ≡ length words.now }
{
    match width {
        Width::One => words.len() - 3,
        Width::Two => port_count(words),
    }
}

/// The input of a port, which is counted from 0.
pub(crate) fn input_of(words: &[String], width: Width, port: usize) -> &str
    requires { spec.place_of width port < length words.now }
    ensures { result.now ≡ spec.input_of width words.now port }
{
    match width {
        Width::One => word_at(words, port + 3),
        Width::Two => word_at(words, 2 * port + 3),
    }
}

/// The output of a port, which is counted from 0.
pub(crate) fn output_at(words: &[String], port: usize) -> &str
    requires { 2 * port + 4 < length words.now }
    ensures { result.now ≡ spec.output_at words.now port }
{
    word_at(words, 2 * port + 4)
}

/// How many ports a forwarder that runs has.
pub(crate) fn live_count(words: &[String]) -> usize
    requires { spec.has_both words.now ≡ true }
    ensures value { result ≡ spec.live_count words.now }
    ensures range { (1 ≤ result) × (result ≤ 64) }
    ensures words { 2 * result + 4 ≡ length words.now }
{
    (words.len() - 4) / 2
}

/// The capture of what comes on a port, which is counted from 0.
pub(crate) fn came_at(words: &[String], port: usize) -> &str
    requires { 2 * port + 4 < length words.now }
    ensures { result.now ≡ spec.came_at words.now port }
{
    word_at(words, 2 * port + 4)
}

/// The capture of what is sent on a port, which is counted from 0.
pub(crate) fn sent_at(words: &[String], port: usize) -> &str
    requires { 2 * port + 5 < length words.now }
    ensures { result.now ≡ spec.sent_at words.now port }
{
    word_at(words, 2 * port + 5)
}
