//! Port types (FC-GS-6, "Port Type").

/// An N_Port.
pub const N_PORT: u8 = 0x01;

/// Any Nx_Port, in a query.
pub const NX_PORT: u8 = 0x7f;
