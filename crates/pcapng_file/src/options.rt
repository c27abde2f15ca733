//! The options of an interface: code, length, value padded to a multiple of 4.
ghost use Rattle.std.specs.Prelude.{◌≡◌, ◌≤◌, ◌<◌, ◌+◌, ◌^◌, length};
ghost use Rattle.pcapng_file.specs.Block.{padded, told_in, told_with};

use pcap_file::half_at;

// What options said so far: the unit of time, and whether times are offset.
#[derive(Clone, Copy, Debug)]
pub(crate) struct Told {
    pub(crate) resolution: Option<u8>,
    pub(crate) offset: bool,
}

const TIME_UNIT: u16 = 9;

const TIME_OFFSET: u16 = 14;

// What the options in these bytes say, or none where one passes the bytes.
pub(crate) fn read_options(big: bool, area: &[u8]) -> Option<Told>
    ensures { result ≡ told_in big area.now }
{
    let mut told = Told {
        resolution: None,
        offset: false,
    };
    let mut at = 0;
    while at < area.len() {
        if area.len() - at < 4 {
            return None;
        }
        let code = half_at(big, area, at);
        if code == 0 {
            return Some(told);
        }
        let len = half_at(big, area, at + 2) as usize;
        if area.len() - at - 4 < padded(len) {
            return None;
        }
        told = told.with(code, &area[at + 4..at + 4 + len]);
        at += 4 + padded(len);
    }
    Some(told)
}

impl Told {
    // With one option more: the first that gives a unit counts.
    fn with(self, code: u16, value: &[u8]) -> Told
        ensures { result ≡ told_with self code value.now }
    {
        if code == TIME_OFFSET {
            return Told {
                resolution: self.resolution,
                offset: true,
            };
        }
        if code == TIME_UNIT && self.resolution.is_none() && !value.is_empty() {
            return Told {
                resolution: Some(value[0]),
                offset: self.offset,
            };
        }
        self
    }
}

// The least multiple of 4 that isn't below.
pub(crate) fn padded(len: usize) -> usize
    requires { len < 2 ^ 32 }
    ensures value { result ≡ padded len }
    ensures bounds { len ≤ result }
{
    (len + 3) / 4 * 4
}
