//! The limits on the inputs of a command.

/// The bytes of all captures together.
pub(crate) const MOST_BYTES: u64 = 1 << 30;

/// The frames of all captures together.
pub(crate) const MOST_FRAMES: u64 = 4_000_000;
