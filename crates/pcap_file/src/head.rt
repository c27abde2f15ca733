//! The head of a capture, and the numbers of its byte order.
ghost use Rattle.std.specs.Prelude.{◌≡◌, ◌≤◌, ◌<◌, ◌+◌, ◌^◌, length};
ghost use Rattle.pcap_file.specs.Capture.{at_place, magic_of, head_decoded, milliseconds};

use crate::{CapFault, CaptureHead};

pub(crate) const HEAD: usize = 24;

const MICRO: u32 = 0xa1b2_c3d4;

const NANO: u32 = 0xa1b2_3c4d;

/// The link type of Ethernet.
pub const ETHERNET: u32 = 1;

/// What a record has before its bytes.
pub const RECORD_HEAD: usize = 16;

/// The most bytes of a record.
pub const MOST_STORED: u32 = 65535;

/// The last second that a record can have. A later moment has the rest in its fraction.
pub const LAST_SECOND: u64 = 4_294_967_295;

impl CaptureHead {
    /// The head that these bytes begin with, or the first fault in the order of `CapFault`.
    #[tactic(auto, unfolding(crate::specs::Capture::head_decoded))]
    pub fn read(bytes: &[u8]) -> Result<CaptureHead, CapFault>
        ensures exact { result ≡ head_decoded bytes.now }
    {
        if bytes.len() < HEAD {
            return Err(CapFault::Short);
        }
        let Some(head) = of_magic(bytes) else {
            return Err(CapFault::BadMagic);
        };
        if half_at(head.big, bytes, 4) != 2 {
            return Err(CapFault::BadVersion);
        }
        if half_at(head.big, bytes, 6) != 4 {
            return Err(CapFault::BadVersion);
        }
        if number_at(head.big, bytes, 20) != ETHERNET {
            return Err(CapFault::NotEthernet);
        }
        Ok(head)
    }

    // The moment of a record head in milliseconds.
    pub(crate) fn moment_in(&self, bytes: &[u8]) -> u64
        requires { 8 ≤ length bytes.now }
        ensures value { result ≡ milliseconds self.now bytes.now }
        ensures range { result < 2 ^ 43 }
    {
        let seconds = number_at(self.big, bytes, 0) as u64;
        let fraction = number_at(self.big, bytes, 4) as u64;
        if self.nano {
            return seconds * 1000 + fraction / 1_000_000;
        }
        seconds * 1000 + fraction / 1000
    }
}

// The byte order and the unit that the magic gives.
fn of_magic(bytes: &[u8]) -> Option<CaptureHead>
    requires { 4 ≤ length bytes.now }
    ensures { result ≡ magic_of bytes.now }
{
    let low = number_at(false, bytes, 0);
    if low == MICRO {
        return Some(CaptureHead {
            big: false,
            nano: false,
        });
    }
    if low == NANO {
        return Some(CaptureHead {
            big: false,
            nano: true,
        });
    }
    let high = number_at(true, bytes, 0);
    if high == MICRO {
        return Some(CaptureHead {
            big: true,
            nano: false,
        });
    }
    if high == NANO {
        return Some(CaptureHead {
            big: true,
            nano: true,
        });
    }
    None
}

/// The number in four bytes from a place on.
pub fn number_at(big: bool, bytes: &[u8], at: usize) -> u32
    requires { at + 4 ≤ length bytes.now }
    ensures { result ≡ at_place big bytes.now at 4 }
{
    match bytes[at..].split_first_chunk::<4>() {
        Some((front, _)) => {
            if big {
                return u32::from_be_bytes(*front);
            }
            u32::from_le_bytes(*front)
        }
        None => unreachable!(),
    }
}

/// The number in two bytes from a place on.
pub fn half_at(big: bool, bytes: &[u8], at: usize) -> u16
    requires { at + 2 ≤ length bytes.now }
    ensures { result ≡ at_place big bytes.now at 2 }
{
    match bytes[at..].split_first_chunk::<2>() {
        Some((front, _)) => {
            if big {
                return u16::from_be_bytes(*front);
            }
            u16::from_le_bytes(*front)
        }
        None => unreachable!(),
    }
}
