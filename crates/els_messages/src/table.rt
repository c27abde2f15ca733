//! The table of link services (FC-LS-2, "Extended Link Services").
ghost use Rattle.std.specs.Prelude.{◌≡◌};
ghost use Rattle.els_messages.specs.Els as spec;

/// The command of FLOGI.
pub const FLOGI: u8 = 0x04;

/// The command of FDISC.
pub const FDISC: u8 = 0x51;

pub(crate) const PLOGI: u8 = 0x03;

pub(crate) const LS_ACC: u8 = 0x02;

pub(crate) const LS_RJT: u8 = 0x01;

/// The command of LOGO.
pub const LOGO: u8 = 0x05;

pub(crate) const SCR: u8 = 0x62;

pub(crate) const RSCN: u8 = 0x61;

/// The bytes of a payload with login parameters.
pub(crate) const LOGIN_BYTES: usize = 116;

/// The bytes that a payload of this command has at least.
pub(crate) fn bytes_needed(command: u8) -> usize
    ensures { result ≡ spec.bytes_needed command }
{
    match command {
        FLOGI | FDISC | PLOGI => LOGIN_BYTES,
        LS_ACC => 4,
        LS_RJT => 8,
        LOGO => 16,
        SCR | RSCN => 8,
        _ => 4,
    }
}
