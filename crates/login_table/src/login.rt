//! One login.
use fab_base::{Enode, FcId, Wwn};

/// A live login: the N_Port_ID that was granted, the names of the N_Port and its node, and the
/// ENode behind which it is.
#[derive(Clone, Copy, Debug, PartialEq, Eq)]
pub struct Login {
    pub address: FcId,
    pub name: Wwn,
    pub node: Wwn,
    pub enode: Enode,
    /// The receive size at the name server, in bytes; none while there is no login to it.
    pub server_size: Option<u16>,
}
