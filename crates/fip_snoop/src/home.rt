//! On which port an ENode is.
use fab_base::{Mac, PortNo};
use sorted_lists::{HasRank, mac_number};

/// An ENode's MAC, and its port.
#[derive(Clone, Copy, Debug, PartialEq, Eq)]
pub struct Home {
    pub mac: Mac,
    pub port: PortNo,
}

impl HasRank for Home {
    ghost use Rattle.std.specs.Prelude.{◌≡◌, ◌<◌, ◌^◌};
    ghost use Rattle.fip_snoop.specs.Maps.{home_number, IsWholeHome};

    ghost rank_of = { λ h. home_number h };

    fn rank(&self) -> u128
        ensures value { result ≡ home_number self.now }
        ensures range { result < 2 ^ 48 }
        ensures whole { IsWholeHome self.now }
    {
        mac_number(&self.mac) as u128
    }
}
