//! The one seam that a text spells.
ghost use Rattle.std.specs.Prelude.{◌≡◌, ◌+◌, ◌<◌, ◌≤◌, ◌^◌, [], ◌∷◌, ℕ, IfOk, IfErr, length};
ghost use Rattle.fab_pieces.specs.Seam as spec;
ghost use Rattle.fab_state.specs.Readable.{IsReadable};
ghost use Rattle.fab_state.specs.Reading.{Refuses, other_line, line_feeds};

use crate::lines::behind_lines;
use crate::pasts::named_count;
use crate::reading::{
    advertised_in, changes_in, clock_in, greatest_in, nexts_of, pasts_of, ports_of,
};
use crate::{Seam, State, Tables, write_seam};
use fab_base::NoMemory;
use std::alloc::Global;
use thiserror::Error;

/// Why a text is that of no seam. The variants stand in the order of the tests.
#[derive(Clone, Copy, Debug, PartialEq, Eq, Error)]
pub enum SeamWhy {
    /// The text has more than 16,777,216 bytes.
    #[error("the text has more than 16777216 bytes")]
    Long,
    /// The line is another one in the text of the state that these lines seem to say.
    #[error("the line is none of the state that the text seems to say")]
    Spelling,
}

/// The first fault of a text. Lines count from 1; `Long` is at line 0.
#[derive(Clone, Copy, Debug, PartialEq, Eq, Error)]
#[error("line {line}: {why}")]
pub struct SeamFault {
    pub line: usize,
    pub why: SeamWhy,
}

/// Why no seam was read.
#[derive(Clone, Copy, Debug, PartialEq, Eq, Error)]
pub enum SeamError {
    /// The text is that of no seam, and this is its first fault.
    #[error(transparent)]
    Fault(SeamFault),
    /// Memory was refused.
    #[error("memory was refused")]
    Memory,
}

/// The most bytes of a text.
const MOST_TEXT: usize = 16777216;

/// The seam of a text, for a pool of `count` addresses from `first` on and for so many ports. What
/// is read is written again, and compared: so whatever is accepted is the text of that seam.
pub fn read_seam(
    alloc: Global,
    first: u32,
    count: u32,
    ports: u32,
    text: &[u8],
) -> Result<Seam, SeamError>
    requires pool { first + count ≤ 2 ^ 24 }
    requires few { ports ≤ 64 }
    ensures ok { IfOk result (λ x. text.now ≡ spec.seam_text x) }
    ensures only { IfOk result (λ x. (s : spec.Seam) → IsReadable first count ports s
        → text.now ≡ spec.seam_text s → x ≡ s) }
    ensures refused { IfErr result (Refuses first count ports text.now) }
{
    if text.len() > MOST_TEXT {
        return Err(SeamError::Fault(SeamFault {
            line: 0,
            why: SeamWhy::Long,
        }));
    }
    match seam_of(alloc, first, count, ports, text) {
        Ok(seam) => compared(alloc, first, count, ports, seam, text),
        Err(_) => Err(SeamError::Memory),
    }
}

// The seam that a text seems to say, where that is its text.
fn compared(
    alloc: Global,
    _first: u32,
    _count: u32,
    _ports: u32,
    seam: Seam,
    text: &[u8],
) -> Result<Seam, SeamError>
    requires short { length text.now ≤ 16777216 }
    requires said { (s : spec.Seam) → IsReadable _first _count _ports s
        → text.now ≡ spec.seam_text s → seam ≡ s }
    ensures ok { IfOk result (λ x. (x ≡ seam) × (text.now ≡ spec.seam_text x)) }
    ensures refused { IfErr result (Refuses _first _count _ports text.now) }
{
    let mut written = Vec::new(alloc);
    match write_seam(alloc, &seam, &mut written) {
        Ok(()) => {}
        Err(_) => return Err(SeamError::Memory),
    }
    let bytes = written.as_slice();
    if bytes == text {
        Ok(seam)
    } else {
        Err(SeamError::Fault(SeamFault {
            line: other_line(bytes, text),
            why: SeamWhy::Spelling,
        }))
    }
}

// The first line in which two texts differ.
fn other_line(written: &[u8], text: &[u8]) -> usize
    requires { length text.now ≤ 16777216 }
    ensures { result ≡ other_line written.now text.now }
{
    let most = written.len().min(text.len());
    let mut line = 1;
    for place in 0..most {
        if written[place] != text[place] {
            return line;
        }
        line += feeds_of(text[place]);
    }
    line
}

fn feeds_of(byte: u8) -> usize
    ensures value { result ≡ line_feeds byte }
    ensures few { result ≤ 1 }
{
    if byte == b'\n' { 1 } else { 0 }
}

// What a text seems to say.
fn seam_of(alloc: Global, first: u32, count: u32, ports: u32, text: &[u8]) -> Result<Seam, NoMemory>
    requires pool { first + count ≤ 2 ^ 24 }
    requires few { ports ≤ 64 }
    ensures { IfOk result (λ x. (s : spec.Seam) → IsReadable first count ports s
        → text.now ≡ spec.seam_text s → x ≡ s) }
{
    let nexts = nexts_of(alloc, ports, text)?;
    let behind_ports = behind_lines(text, ports as usize + 5);
    let past = pasts_of(alloc, first, count, behind_ports)?;
    let logins = ports_of(alloc, behind_lines(behind_ports, named_count(&past)))?;
    Ok(Seam {
        state: State {
            tables: Tables {
                clock: clock_in(text),
                ports: logins,
                past,
            },
            advertised: advertised_in(text),
            rscns: changes_in(text),
        },
        nexts,
        greatest: greatest_in(text),
    })
}
