//! Reasons and explanations of LS_RJT (FC-LS-2, "LS_RJT reason codes" and "LS_RJT reason code
//! explanations").

/// The reason: a logical error.
pub const LOGICAL_ERROR: u8 = 0x03;

/// The reason: unable to perform the command request.
pub const UNABLE_TO_PERFORM: u8 = 0x09;

/// The reason: the command isn't supported.
pub const COMMAND_NOT_SUPPORTED: u8 = 0x0b;

/// No additional explanation.
pub const NO_EXPLANATION: u8 = 0x00;

/// The explanation: insufficient resources to support the login.
pub const INSUFFICIENT_RESOURCES: u8 = 0x29;

/// The explanation: the request isn't supported.
pub const REQUEST_NOT_SUPPORTED: u8 = 0x2c;
