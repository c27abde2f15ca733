//! How a command ends.
ghost use Rattle.std.specs.Prelude.{◌≡◌, IfOk, IfErr, codes};
ghost use Rattle.std.specs.String.{string_bytes};
ghost use Rattle.enode_core.specs.declared.node.Phase.TheVariants.{Up};
ghost use Rattle.fabric_tool.specs.Outcome as spec;
ghost use Rattle.fabric_tool.specs.Ends.{Puts, Reports};

use crate::help::{help, version};
use crate::limits::{MOST_BYTES, MOST_FRAMES};
use arrayvec::ArrayVec;
use enode_core::Phase;
use fab_base::{Bytes, FcId, Mac, PortNo, Sink, address_text, mac_text, put, say_all};
use fab_config::{ConfigFault, ConfigWhy};
use fab_migrate::OldWhy;
use fab_replay::LineWhy;
use pcap_file::{CapWhy, LimitKind, MOST_SPAN};
use pcapng_file::NgWhy;
use std::alloc::{AllocError, Global};

/// The bytes of the line of a node that is up.
const UP_LINE: usize = 23;

/// How a command ended. The status and the printed line are two tables over it.
#[derive(Debug, Drop)]
pub enum Outcome {
    /// All was done.
    Ran { frames: u64, entries: u64 },
    /// A pcapng file was converted, with so many records.
    Converted { records: u64 },
    /// A journal was migrated, with so many entries.
    Migrated { entries: u64 },
    /// A journal of so many entries and the outputs are those of a run.
    Legal { entries: u64 },
    /// A load was made, with so many frames.
    Made { frames: u64 },
    /// A bridge handled all frames: so many passed, and so many were dropped.
    Bridged { passed: u64, dropped: u64 },
    /// A node ran over its capture, and stood so in the end.
    Stood { phase: Phase },
    /// `--help`
    Help,
    /// `--version`
    Version,
    /// The words are no command.
    Words,
    /// The configuration text has this first fault.
    Config { fault: ConfigFault },
    /// The capture of a port can't be taken from this place of its file on.
    Capture { port: PortNo, at: u64, why: CapWhy },
    /// The pcapng file has this first fault, at a block.
    BadBlock { at: u64, why: NgWhy },
    /// The stream has this first fault, at a block.
    BadStream { at: u64, why: NgWhy },
    /// A packet of the stream is of an interface that is no port: its number, from 0.
    NoPort { face: u32 },
    /// The journal to migrate has this first fault, at a line.
    BadLine { line: u64, why: OldWhy },
    /// A journal is that of a run, of which this is printed.
    Shown { text: Bytes },
    /// A line of the journal that is checked is the first that is wrong.
    WrongLine { line: u64, why: LineWhy },
    /// An output isn't what the journal sends, from this byte on.
    WrongOutput { port: PortNo, at: u64 },
    /// The inputs pass this limit.
    Limit { kind: LimitKind },
    /// An input couldn't be read.
    ReadFault,
    /// An output couldn't be written.
    WriteFault,
    /// Memory was refused.
    Memory,
}

/// Prints what an outcome says, mostly a line, and answers its status; 4 where that can't be
/// printed. Where memory for a line is refused, the outcome is want of memory.
pub fn report<K: Sink>(alloc: Global, outcome: Outcome, say: &mut K) -> u8
    ensures reports { Reports outcome (K.sunk say.old) (K.sunk say.new) result }
{
    match outcome {
        Outcome::Ran { frames, entries } => put_made(say, run_line(alloc, frames, entries), 0),
        Outcome::Config { fault } => put_made(say, config_line(alloc, fault), 1),
        Outcome::Capture { port, at, why } => {
            put_made(say, capture_line(alloc, port, at, why), 1)
        }
        Outcome::Converted { records } => put_made(say, converted_line(alloc, records), 0),
        Outcome::BadBlock { at, why } => put_made(say, block_line(alloc, at, why), 1),
        Outcome::BadStream { at, why } => put_made(say, stream_line(alloc, at, why), 1),
        Outcome::NoPort { face } => put_made(say, port_line(alloc, face), 1),
        Outcome::Migrated { entries } => put_made(say, migrated_line(alloc, entries), 0),
        Outcome::Legal { entries } => put_made(say, legal_line(alloc, entries), 0),
        Outcome::WrongLine { line, why } => put_made(say, wrong_line(alloc, line, why), 1),
        Outcome::WrongOutput { port, at } => put_made(say, output_line(alloc, port, at), 1),
        Outcome::Made { frames } => put_made(say, made_line(alloc, frames), 0),
        Outcome::Bridged { passed, dropped } => {
            put_made(say, bridged_line(alloc, passed, dropped), 0)
        }
        Outcome::Stood { phase } => put_phase(say, &phase),
        Outcome::BadLine { line, why } => put_made(say, journal_line(alloc, line, why), 1),
        Outcome::Limit { kind } => put_made(say, limit_line(alloc, kind), 6),
        Outcome::Shown { text } => put_line(say, text.view(), 0),
        Outcome::Help => put_line(say, help().as_bytes(), 0),
        Outcome::Version => put_line(say, version().as_bytes(), 0),
        Outcome::Words => put_line(say, b"words\n", 2),
        Outcome::ReadFault => put_line(say, b"read fault\n", 3),
        Outcome::WriteFault => put_line(say, b"write fault\n", 4),
        Outcome::Memory => put_line(say, b"no memory\n", 5),
    }
}

// Puts a line that was made, or that memory for it was refused.
fn put_made<K: Sink>(say: &mut K, made: Result<String, AllocError>, status: u8) -> u8
    ensures ok { IfOk made (λ s. Puts (string_bytes s) status (K.sunk say.old)
        (K.sunk say.new) result) }
    ensures err { IfErr made (λ e. Puts (codes "no memory\n") 5 (K.sunk say.old)
        (K.sunk say.new) result) }
{
    match made {
        Ok(line) => put_line(say, line.as_bytes(), status),
        Err(_) => put_line(say, b"no memory\n", 5),
    }
}

fn run_line(alloc: Global, frames: u64, entries: u64) -> Result<String, AllocError>
    ensures { IfOk result (λ s. string_bytes s ≡ spec.run_text frames entries) }
{
    let line = format!(in alloc; "frames {frames} entries {entries}\n")?;
    Ok(line)
}

fn capture_line(alloc: Global, port: PortNo, at: u64, why: CapWhy) -> Result<String, AllocError>
    ensures { IfOk result (λ s. string_bytes s ≡ spec.capture_text port at why) }
{
    let port = port.value();
    let word = cap_word(why);
    format!(in alloc; "capture {port} {at} {word}\n")
}

// The word of a reason.
fn cap_word(why: CapWhy) -> &'static str
    ensures { result.now ≡ spec.cap_word why }
{
    match why {
        CapWhy::Short => "short",
        CapWhy::Magic => "magic",
        CapWhy::Version => "version",
        CapWhy::Link => "link",
        CapWhy::Cut => "cut",
        CapWhy::Long => "long",
    }
}

fn config_line(alloc: Global, fault: ConfigFault) -> Result<String, AllocError>
    ensures { IfOk result (λ s. string_bytes s ≡ spec.config_text fault) }
{
    let line = fault.line;
    let why = why_word(fault.why);
    format!(in alloc; "config {line} {why}\n")
}

// The word of a reason.
fn why_word(why: ConfigWhy) -> &'static str
    ensures { result.now ≡ spec.why_word why }
{
    match why {
        ConfigWhy::Long => "long",
        ConfigWhy::Ascii => "ascii",
        ConfigWhy::Key => "key",
        ConfigWhy::Twice => "twice",
        ConfigWhy::Value => "value",
        ConfigWhy::Limit => "limit",
        ConfigWhy::Missing => "missing",
    }
}

fn converted_line(alloc: Global, records: u64) -> Result<String, AllocError>
    ensures { IfOk result (λ s. string_bytes s ≡ spec.converted_text records) }
{
    format!(in alloc; "records {records}\n")
}

fn block_line(alloc: Global, at: u64, why: NgWhy) -> Result<String, AllocError>
    ensures { IfOk result (λ s. string_bytes s ≡ spec.block_text at why) }
{
    let word = fault_word(why);
    format!(in alloc; "capture 1 {at} {word}\n")
}

fn stream_line(alloc: Global, at: u64, why: NgWhy) -> Result<String, AllocError>
    ensures { IfOk result (λ s. string_bytes s ≡ spec.stream_text at why) }
{
    let word = fault_word(why);
    format!(in alloc; "stream {at} {word}\n")
}

fn port_line(alloc: Global, face: u32) -> Result<String, AllocError>
    ensures { IfOk result (λ s. string_bytes s ≡ spec.no_port_text face) }
{
    let port = face as u64 + 1;
    format!(in alloc; "stream port {port}\n")
}

fn migrated_line(alloc: Global, entries: u64) -> Result<String, AllocError>
    ensures { IfOk result (λ s. string_bytes s ≡ spec.migrated_text entries) }
{
    format!(in alloc; "migrated {entries}\n")
}

fn legal_line(alloc: Global, entries: u64) -> Result<String, AllocError>
    ensures { IfOk result (λ s. string_bytes s ≡ spec.legal_text entries) }
{
    format!(in alloc; "legal {entries}\n")
}

fn wrong_line(alloc: Global, line: u64, why: LineWhy) -> Result<String, AllocError>
    ensures { IfOk result (λ s. string_bytes s ≡ spec.wrong_text line why) }
{
    let word = line_word(&why);
    format!(in alloc; "journal {line} {word}\n")
}

// The word of what is wrong with a line.
fn line_word(why: &LineWhy) -> &'static str
    ensures { result.now ≡ spec.line_word why.now }
{
    match why {
        LineWhy::Text => "text",
        LineWhy::Tick => "tick",
        LineWhy::Frame => "frame",
        LineWhy::Verdict { .. } => "verdict",
        LineWhy::Rest => "rest",
    }
}

fn output_line(alloc: Global, port: PortNo, at: u64) -> Result<String, AllocError>
    ensures { IfOk result (λ s. string_bytes s ≡ spec.output_text port at) }
{
    let port = port.value();
    format!(in alloc; "output {port} {at}\n")
}

fn made_line(alloc: Global, frames: u64) -> Result<String, AllocError>
    ensures { IfOk result (λ s. string_bytes s ≡ spec.made_text frames) }
{
    format!(in alloc; "made {frames}\n")
}

fn bridged_line(alloc: Global, passed: u64, dropped: u64) -> Result<String, AllocError>
    ensures { IfOk result (λ s. string_bytes s ≡ spec.bridged_text passed dropped) }
{
    format!(in alloc; "passed {passed} dropped {dropped}\n")
}

// Puts the line of a node's last phase.
fn put_phase<K: Sink>(say: &mut K, phase: &Phase) -> u8
    ensures { Puts (spec.phase_text phase.now) 0 (K.sunk say.old) (K.sunk say.new) result }
{
    match phase {
        Phase::Asking => put_line(say, b"asking\n", 0),
        Phase::Looking => put_line(say, b"looking\n", 0),
        Phase::Logging { .. } => put_line(say, b"logging\n", 0),
        Phase::Up { address, mac } => put_line(say, up_line(address, mac).as_slice(), 0),
    }
}

// The line of a node that is up.
fn up_line(address: &FcId, mac: &Mac) -> ArrayVec<u8, UP_LINE>
    ensures { result.items ≡ spec.phase_text (Up address.now mac.now) }
{
    let mut line = ArrayVec::new();
    put(&mut line, b"up ");
    put(&mut line, &address_text(address));
    put(&mut line, b" ");
    put(&mut line, &mac_text(mac));
    put(&mut line, b"\n");
    line
}

fn journal_line(alloc: Global, line: u64, why: OldWhy) -> Result<String, AllocError>
    ensures { IfOk result (λ s. string_bytes s ≡ spec.journal_text line why) }
{
    let word = old_word(why);
    format!(in alloc; "journal {line} {word}\n")
}

// The word of a fault at a line.
fn old_word(why: OldWhy) -> &'static str
    ensures { result.now ≡ spec.old_word why }
{
    match why {
        OldWhy::Text => "text",
        OldWhy::Tick => "tick",
    }
}

fn limit_line(alloc: Global, kind: LimitKind) -> Result<String, AllocError>
    ensures { IfOk result (λ s. string_bytes s ≡ spec.limit_text kind) }
{
    match kind {
        LimitKind::Bytes => format!(in alloc; "limit bytes {MOST_BYTES}\n"),
        LimitKind::Frames => format!(in alloc; "limit frames {MOST_FRAMES}\n"),
        LimitKind::Span => format!(in alloc; "limit span {MOST_SPAN}\n"),
    }
}

// The word of a fault at a block.
fn fault_word(why: NgWhy) -> &'static str
    ensures { result.now ≡ spec.fault_word why }
{
    match why {
        NgWhy::Cut => "cut",
        NgWhy::Section => "section",
        NgWhy::Order => "order",
        NgWhy::Length => "length",
        NgWhy::Version => "version",
        NgWhy::Simple => "simple",
        NgWhy::Options => "options",
        NgWhy::Interface => "interface",
        NgWhy::Link => "link",
        NgWhy::Resolution => "resolution",
        NgWhy::Offset => "offset",
        NgWhy::Time => "time",
        NgWhy::Long => "long",
    }
}

// Puts a line, and answers its status; 4 where it can't be put.
fn put_line<K: Sink>(say: &mut K, line: &[u8], status: u8) -> u8
    ensures { Puts line.now status (K.sunk say.old) (K.sunk say.new) result }
{
    match say_all(say, line) {
        Ok(()) => status,
        Err(_) => 4,
    }
}
