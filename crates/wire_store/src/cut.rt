//! Cutting a capture that comes in pieces into its frames.
ghost use Rattle.std.specs.Prelude.{◌≡◌, ◌≢◌, ◌≤◌, ◌+◌, [], length, Some, None, MatchOption, OnOk, OnErr, IsTrue, ◌↔◌};
ghost use Rattle.wire_store.specs.Cut.{cutting, with_piece, first_frame, behind_first, stored};

use fab_base::NoMemory;
use pcap_file::{RECORD_HEAD, number_at};
use std::alloc::Global;
use std::marker::Model;

// The head of a capture.
const HEAD: usize = 24;

/// What came of a capture and wasn't given: bytes, of which the first `at` are done with. Where
/// `at` is above their number, so many of those to come are done with too.
#[derive(Debug, Drop)]
pub struct Splitter {
    bytes: Vec<u8>,
    at: usize,
}

impl Model for Splitter {
    ghost use Rattle.std.specs.Prelude.{◌-◌, length, drop};
    ghost use Rattle.wire_store.specs.Cut.{Cutting, cutting};

    ghost Value = { Cutting };

    ghost view = { λ s. cutting (s.at - length s.bytes.items) (drop s.at s.bytes.items) };
}

impl Splitter {
    /// A capture of which nothing came.
    pub fn new(alloc: Global) -> Splitter
        ensures { result ≡ cutting 24 [] }
    {
        Splitter {
            bytes: Vec::new(alloc),
            at: HEAD,
        }
    }

    /// Takes the next piece of the capture. Where memory is refused it stays as it was.
    pub fn take_in(&mut self, _alloc: Global, piece: &[u8]) -> Result<(), NoMemory>
        ensures ok { OnOk result (self.new ≡ with_piece self.old piece.now) }
        ensures err { OnErr result (self.new ≡ self.old) }
    {
        if self.at >= self.bytes.len() {
            self.at -= self.bytes.len();
            self.bytes.clear();
        }
        self.bytes.extend_from_slice(piece)?;
        Ok(())
    }

    /// The frame of the next whole record, if there is one.
    pub fn frame(&self) -> Option<&[u8]>
        ensures { MatchOption result (first_frame self.now.held ≡ None)
            (λ f. first_frame self.now.held ≡ Some f.now) }
    {
        if self.at >= self.bytes.len() {
            return None;
        }
        frame_in(&self.bytes[self.at..])
    }

    /// Gives it up.
    pub fn pass(&mut self)
        requires { first_frame self.old.held ≢ None }
        ensures { self.new ≡ cutting self.old.lacks (behind_first self.old.held) }
    {
        self.at += RECORD_HEAD + stored(&self.bytes[self.at..]);
    }
}

fn frame_in(rest: &[u8]) -> Option<&[u8]>
    ensures { MatchOption result (first_frame rest.now ≡ None)
        (λ f. first_frame rest.now ≡ Some f.now) }
{
    if rest.len() < RECORD_HEAD {
        return None;
    }
    let size = stored(rest);
    if rest.len() - RECORD_HEAD < size {
        return None;
    }
    Some(&rest[RECORD_HEAD..RECORD_HEAD + size])
}

fn stored(rest: &[u8]) -> usize
    requires { 16 ≤ length rest.now }
    ensures { result ≡ stored rest.now }
{
    number_at(false, rest, 8) as usize
}
