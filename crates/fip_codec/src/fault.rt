//! Why a body is no FIP message.

use thiserror::Error;

/// The first fault of a body; `at` is the place of a descriptor's first byte in the body. The
/// variants stand in the order of the tests.
#[derive(Clone, Copy, Debug, PartialEq, Eq, Error)]
pub enum FipFault {
    /// The body has fewer bytes than the header.
    #[error("the body is shorter than the FIP header")]
    Short,
    /// The version isn't 1.
    #[error("the FIP version isn't 1")]
    Version,
    /// Operation and subcode stand in no row of the table of messages.
    #[error("the operation and subcode are those of no FIP message")]
    Operation,
    /// The descriptor list passes the end of the body.
    #[error("the descriptor list passes the end of the body")]
    ListLength,
    /// A descriptor's length is 0, passes the list, or isn't that of its type.
    #[error("the descriptor at byte {at} has a wrong length")]
    DescLength { at: u32 },
    /// A type below 128 isn't in the table of descriptors.
    #[error("the descriptor at byte {at} has the unknown type {kind}")]
    Critical { at: u32, kind: u8 },
    /// A type that the message has at most once stands a second time.
    #[error("the descriptor at byte {at} stands a second time")]
    Double { at: u32 },
    /// A type that the message must have is absent; 7 is any of 7, 8 and 9.
    #[error("a descriptor of type {kind} is missing")]
    Missing { kind: u8 },
}
