//! A load that anybody can repeat: a configuration and the captures of eight ports, 20,000 frames
//! in all, drawn from a number.
#![tactic(auto)]

mod drawing;
mod fcoe;
mod files;
mod fip;
mod frame;
mod laws;
mod making;
mod names;
mod parts;
mod plan;
mod records;
mod settings;

pub use laws::each_capture_has_2500_frames;
pub use making::make_load;
use thiserror::Error;

/// Why a load isn't made.
#[derive(Clone, Copy, Debug, PartialEq, Eq, Error)]
pub enum MakeFault {
    /// A file couldn't be written.
    #[error("a file of the load can't be written")]
    Write,
    /// Memory was refused.
    #[error("there is not enough memory")]
    Memory,
}

/// How many files a load has.
const FILES: usize = 9;

/// How many logins a port has.
const LOGINS: u8 = 30;
