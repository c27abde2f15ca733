//! A depot for tests: two files as bytes, of which a fetch gives a few.
ghost use Rattle.std.specs.Prelude.{◌≡◌, [], ◌∷◌, false, true, None, ◌^◌, ◌-◌};

use fab_base::{Depot, Failed};

/// More fetches than any test makes.
const AMPLE: u64 = 1_000_000_000;

/// A depot whose every slot is open, whose contents aren't known, and whose counts stand at their
/// end. Slot 0 reads the first file and every other slot the second one, at most `step` bytes a
/// fetch. A fetch fails once `fetches` more were made; opens and puts fail always.
#[derive(Drop)]
pub struct OpenFiles<'a> {
    pub first: &'a [u8],
    pub second: &'a [u8],
    pub step: usize,
    pub fetches: u64,
}

impl<'a> OpenFiles<'a> {
    /// One file, the other one being empty, and more fetches than any test makes.
    pub fn one(file: &'a [u8], step: usize) -> OpenFiles<'a>
        ensures first { result.first.now ≡ file.now }
        ensures second { result.second.now ≡ [] }
        ensures rest { (result.step ≡ step) × (result.fetches ≡ 1000000000) }
    {
        OpenFiles {
            first: file,
            second: &[],
            step,
            fetches: AMPLE,
        }
    }

    /// How many fetches were made, where the depot is one of `one`.
    pub fn made(&self) -> u64
        ensures { result ≡ 1000000000 - self.now.fetches }
    {
        AMPLE.saturating_sub(self.fetches)
    }
}

impl<'a> Depot for OpenFiles<'a> {
    ghost seen = { λ _. record {
      told = false;
      knows = λ _. true;
      input = λ _. true;
      output = λ _. true;
      name = λ s. s ∷ [];
      file = λ _. None;
      left = λ _. [];
      read_faults = λ _. 2 ^ 64 - 1;
      write_faults = λ _. 2 ^ 64 - 1;
    } };

    fn open_in(&mut self, _name: &str) -> Result<u32, Failed> {
        Err(Failed)
    }

    fn open_out(&mut self, _name: &str) -> Result<u32, Failed> {
        Err(Failed)
    }

    fn fetch(&mut self, slot: u32, into: &mut [u8]) -> Result<usize, Failed> {
        if self.fetches == 0 {
            return Err(Failed);
        }
        self.fetches -= 1;
        let bytes = if slot == 0 { self.first } else { self.second };
        let count = into.len().min(self.step).min(bytes.len());
        into[..count].copy_from_slice(&bytes[..count]);
        if slot == 0 {
            self.first = &bytes[count..];
        } else {
            self.second = &bytes[count..];
        }
        Ok(count)
    }

    fn put(&mut self, _slot: u32, _from: &[u8]) -> Result<usize, Failed> {
        Err(Failed)
    }
}
