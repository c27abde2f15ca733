//! Payloads of extended link services (FC-LS-2): logins, accepts, rejects and state changes.
#![tactic(auto)]

mod laws;
mod parms;
mod reading;
pub mod reject;
pub mod scr;
mod table;
mod writing;

use fab_base::{FcId, Wwn};
pub use laws::{els_is_written, els_reads_back, els_stands_once};
pub use parms::{CLASS_3, Feature};
pub use reading::read_els;
pub use table::{FDISC, FLOGI, LOGO};
use thiserror::Error;
pub use writing::{els_bytes, write_els};

/// The parameters of a login or its accept. What they leave out is written as 0.
#[derive(Clone, Copy, Debug, PartialEq, Eq)]
pub struct LoginParms {
    /// The common features.
    pub features: u16,
    /// The receive size in bytes, 12 bits: a greater one is never read and can't be written.
    pub size: u16,
    /// R_A_TOV in milliseconds. In a PLOGI this word has the concurrent sequences and the relative
    /// offset.
    pub ra_tov: u32,
    /// E_D_TOV in milliseconds.
    pub ed_tov: u32,
    pub port_name: Wwn,
    pub node_name: Wwn,
    pub class3: [u8; 16],
}

/// A payload.
#[derive(Clone, Copy, Debug)]
pub enum Els<'a> {
    /// FLOGI, 04: the login to the fabric.
    Flogi(LoginParms),
    /// FDISC, 51: a further address is asked for.
    Fdisc(LoginParms),
    /// PLOGI, 03: the login to a port or a service.
    Plogi(LoginParms),
    /// LOGO, 05: the end of a login.
    Logo { address: FcId, name: Wwn },
    /// SCR, 62: of which state changes it is to be notified.
    Scr { function: u8 },
    /// RSCN, 61: what has changed, in pages of four bytes, the format of an address and the
    /// address.
    Rscn { pages: &'a [u8] },
    /// LS_ACC, 02, of a login.
    LoginAccept(LoginParms),
    /// LS_ACC, 02, with fewer bytes than a login has.
    Accept,
    /// LS_RJT, 01.
    Reject { reason: u8, explanation: u8 },
    /// A command that isn't in the table.
    Other { command: u8 },
}

/// Why bytes are no payload, in the order of the tests.
#[derive(Clone, Copy, Debug, PartialEq, Eq, Error)]
pub enum ElsFault {
    /// Fewer bytes than the command needs, or than the four of any payload.
    #[error("the payload is shorter than its command needs")]
    Short,
    /// An RSCN whose pages aren't four bytes each, at least one, and all of them there.
    #[error("the state change doesn't have its pages whole")]
    Page,
}
