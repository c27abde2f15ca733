//! Addresses and values of a header that FC-FS-3 assigns.

/// The address of the fabric port, F_Port Controller ("Well-known addresses").
pub const FABRIC_PORT: u32 = 0xff_fffe;

/// The address of the Fabric Controller.
pub const CONTROLLER: u32 = 0xff_fffd;

/// The address of the name server, Directory Service.
pub const NAME_SERVER: u32 = 0xff_fffc;

/// The least address that isn't one of an N_Port: those from here on are of services.
pub const SERVICES: u32 = 0xff_0000;

/// F_CTL of a request that is one frame: the originator's first and last sequence, with the
/// initiative handed over ("F_CTL").
pub const F_CTL_REQUEST: u32 = 0x29_0000;

/// F_CTL of the responder's last frame.
pub const F_CTL_LAST: u32 = 0x98_0000;

/// F_CTL of an earlier frame of the responder.
pub const F_CTL_EARLIER: u32 = 0x90_0000;

/// An OX_ID or RX_ID that isn't assigned.
pub const UNASSIGNED: u16 = 0xffff;

/// The most bytes of payload in a frame.
pub const MOST_PAYLOAD: u16 = 2112;
