//! Why a file is not read.
ghost use Rattle.std.specs.Prelude.{◌≡◌};

use fab_base::Failed;
use std::alloc::AllocError;
use thiserror::Error;

/// Why a block is none that is read, in the order of the tests.
#[derive(Clone, Copy, Debug, PartialEq, Eq, Error)]
pub enum NgWhy {
    /// The bytes end inside the block, or there are none at all.
    #[error("the bytes end inside the block")]
    Cut,
    /// The first block is no section header.
    #[error("the first block is no section header")]
    Section,
    /// The magic of a section header is that of no byte order.
    #[error("the magic of the section header names no byte order")]
    Order,
    /// A length that no such block has, a second length that differs, or a packet past its block.
    #[error("a length that no such block has")]
    Length,
    /// The major version of a section isn't 1.
    #[error("the major version is not 1")]
    Version,
    /// A simple packet, which has no time.
    #[error("a simple packet has no time")]
    Simple,
    /// An option of an interface passes its block.
    #[error("an option of the interface passes its block")]
    Options,
    /// The section has no such interface.
    #[error("the section has no such interface")]
    Interface,
    /// The link type of the packet's interface isn't 1.
    #[error("the interface is no Ethernet")]
    Link,
    /// The packet's interface counts time in units below 10^-9 seconds, or in powers of 2.
    #[error("the interface counts time in other units than are read")]
    Resolution,
    /// The packet's interface has a time offset.
    #[error("the interface has a time offset")]
    Offset,
    /// The packet lies 2^32 seconds or more after 1970.
    #[error("the time has 2^32 seconds or more")]
    Time,
    /// More than 65,535 bytes are stored.
    #[error("more than 65535 bytes are stored")]
    Long,
}

/// Which limit a file passes.
#[derive(Clone, Copy, Debug, PartialEq, Eq, Error)]
pub enum NgLimit {
    /// A block is longer than the bytes that are left.
    #[error("more bytes than the limit")]
    Bytes,
    /// A packet stands where no frame is left.
    #[error("more frames than the limit")]
    Frames,
}

/// Why a file was not read. `at` is the place of the block's first byte.
#[derive(Clone, Copy, Debug, PartialEq, Eq, Error)]
pub enum NgError {
    #[error("byte {at}: {why}")]
    Fault { at: u64, why: NgWhy },
    #[error("{0}")]
    Limit(NgLimit),
    #[error("the file could not be read")]
    Read(Failed),
    #[error("memory was refused")]
    Memory,
}

impl From<AllocError> for NgError {
    ghost use Rattle.std.specs.Prelude.{◌≡◌};
    ghost use Rattle.pcapng_file.specs.declared.fault.NgError.TheVariants.{Memory};

    ghost from_gives = { λ _ e. e ≡ Memory };

    fn from(_refused: AllocError) -> NgError {
        NgError::Memory
    }
}

// The fault of the block at a place.
pub(crate) fn fault(at: u64, why: NgWhy) -> NgError
    ensures { result ≡ NgError.Fault at why }
{
    NgError::Fault { at, why }
}

/// Why a file was not converted.
#[derive(Clone, Copy, Debug, PartialEq, Eq, Error)]
pub enum ConvertError {
    /// The input is not read, and the output is as it was.
    #[error("{0}")]
    Input(NgError),
    /// The output could not be written.
    #[error("the output could not be written")]
    Write(Failed),
}
