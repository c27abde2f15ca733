//! Ethertypes and group addresses that are assigned to FCoE (FC-BB-5, "FCoE frame format" and
//! "FIP").
use fab_base::Mac;

/// The Ethertype of FIP.
pub const FIP: u16 = 0x8914;

/// The Ethertype of FCoE.
pub const FCOE: u16 = 0x8906;

/// All-FCF-MACs, the group of all forwarders.
pub const ALL_FCFS: Mac = Mac([0x01, 0x10, 0x18, 0x01, 0x00, 0x02]);

/// All-ENode-MACs, the group of all nodes.
pub const ALL_ENODES: Mac = Mac([0x01, 0x10, 0x18, 0x01, 0x00, 0x01]);
