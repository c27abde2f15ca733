//! What stands of one port while its capture is taken.
use fab_base::NoMemory;
use pcap_file::{Reader, Record};
use std::mem;

/// A capture whose head was read, and its slot in the depot.
#[derive(Debug, Drop)]
pub struct Input {
    pub slot: u32,
    pub reader: Reader,
}

/// The records of a window of one port, the one that was looked at behind them, or none at the end
/// of the capture, and how many records were found so far.
#[derive(Debug, Drop)]
pub struct Shelf {
    pub batch: Vec<Record>,
    pub next: Option<Record>,
    pub count: u64,
}

impl Shelf {
    ghost use Rattle.window_records.specs.Reads as spec;
    ghost use Rattle.std.specs.Prelude.{◌≡◌, ◌≢◌, ◌+◌, ◌^◌, ◌<◌, ◌++◌, None, OnOk, OnErr, option_to_list, length};

    /// The number of the first record in the batch, among all of its port.
    pub fn first_index(&self) -> u64
        ensures value { result ≡ spec.first_index self.now }
        ensures room { result + length self.now.batch.items < 2 ^ 64 }
    {
        let ahead = u64::from(self.next.is_some());
        let found = self.count.saturating_sub(ahead);
        found.saturating_sub(self.batch.len() as u64)
    }

    // Puts the record that was looked at into the batch, and the next one, or none, into its place.
    // Where memory is refused it is lost.
    pub(crate) fn push_record(&mut self, next: Option<Record>) -> Result<(), NoMemory>
        requires { self.old.count + length (option_to_list next) < 2 ^ 64 }
        ensures batch { OnOk result
            (self.new.batch.items ≡ self.old.batch.items ++ option_to_list self.old.next) }
        ensures kept { OnErr result (self.new.batch.items ≡ self.old.batch.items) }
        ensures lost { OnErr result (self.old.next ≢ None) }
        ensures next { self.new.next ≡ next }
        ensures count { self.new.count ≡ self.old.count + length (option_to_list next) }
    {
        if next.is_some() {
            self.count += 1;
        }
        match mem::replace(&mut self.next, next) {
            Some(record) => match self.batch.push(record) {
                Ok(()) => Ok(()),
                Err(_) => Err(NoMemory),
            },
            None => Ok(()),
        }
    }
}
