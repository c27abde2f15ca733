//! The live logins of a fabric (FC-LS-2, "FLOGI" and "FDISC"), found by address, by port name and
//! by ENode.
#![tactic(auto)]

mod login;
mod orders;
mod table;

pub use login::Login;
pub use table::LoginTable;
