//! Why a captured frame can't be read.

use fip_codec::FipFault;

/// The first fault of a captured frame; the variants stand in the order of the tests.
#[derive(Clone, Copy, Debug, PartialEq, Eq)]
pub enum Unreadable {
    /// The record isn't whole.
    Truncated,
    /// Too short for Ethernet.
    EthShort,
    /// Neither FIP nor FCoE.
    Ethertype,
    /// A body of FIP with this fault.
    Fip(FipFault),
}
