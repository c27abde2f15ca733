//! Reasons and explanations of a reject of the name server (FC-GS-6, "Reject reason codes" and
//! "Name Server reject CT_IU reason code explanations").

/// The reason: the information unit has a wrong size.
pub const INVALID_SIZE: u8 = 0x04;

/// The reason: unable to perform the command request.
pub const UNABLE_TO_PERFORM: u8 = 0x09;

/// The reason: the command isn't supported.
pub const COMMAND_NOT_SUPPORTED: u8 = 0x0b;

/// No additional explanation.
pub const NO_EXPLANATION: u8 = 0x00;

/// The explanation: the port identifier isn't registered.
pub const PORT_ID_NOT_REGISTERED: u8 = 0x01;

/// The explanation: the port name isn't registered.
pub const PORT_NAME_NOT_REGISTERED: u8 = 0x02;

/// The explanation: the node name isn't registered.
pub const NODE_NAME_NOT_REGISTERED: u8 = 0x03;

/// The explanation: the FC-4 types aren't registered.
pub const TYPES_NOT_REGISTERED: u8 = 0x07;

/// The explanation: access is denied.
pub const ACCESS_DENIED: u8 = 0x10;
