//! How large a window is.
ghost use Rattle.std.specs.Prelude.{◌≡◌, ◌-◌};
ghost use Rattle.fab_shared.specs.Sizes.{bytes_in, bytes_on};

use pcap_file::Record;
use window_records::Shelf;

/// How many bytes the frames of a window lack to so many.
pub(crate) fn lacking(shelves: &[Shelf], bytes: u64) -> u64
    ensures { result ≡ bytes - bytes_on shelves.now }
{
    let mut left = bytes;
    for shelf in shelves {
        left = lacking_behind(&shelf.batch, left);
    }
    left
}

// How many bytes the frames of records lack to so many.
fn lacking_behind(records: &[Record], bytes: u64) -> u64
    ensures { result ≡ bytes - bytes_in records.now }
{
    let mut left = bytes;
    for record in records {
        left = left.saturating_sub(record.caught.bytes.view().len() as u64);
    }
    left
}
