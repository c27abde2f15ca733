//! Functions of SCR (FC-LS-2, "SCR").

/// Fabric Detected registration: for changes that the fabric detects.
pub const FABRIC_DETECTED: u8 = 1;

/// Nx_Port Detected registration: for changes that an N_Port detects.
pub const NX_PORT_DETECTED: u8 = 2;

/// Full registration: for changes that the fabric or an N_Port detects.
pub const FULL: u8 = 3;

/// Clear registration: for nothing any more.
pub const CLEAR: u8 = 255;
