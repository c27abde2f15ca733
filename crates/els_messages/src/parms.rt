//! What login parameters say (FC-LS-2, "FLOGI" and "PLOGI").
ghost use Rattle.std.specs.Prelude.{◌≡◌, ◌%◌, ◌≤◌};
ghost use Rattle.els_messages.specs.Els as spec;

use crate::LoginParms;
use fc_frames::MOST_PAYLOAD;

/// A bit of the common features.
#[derive(Clone, Copy, Debug, PartialEq, Eq)]
pub enum Feature {
    /// A node asks for several addresses.
    MultipleNPortIds,
    /// The fabric grants them.
    MultipleNPortIdsGranted,
    /// The port is one of the fabric.
    FPort,
}

impl Feature {
    /// The value of the bit.
    pub fn bit(self) -> u16
        ensures { result ≡ spec.bit_of self }
    {
        match self {
            Feature::MultipleNPortIds => 0x8000,
            Feature::MultipleNPortIdsGranted => 0x2000,
            Feature::FPort => 0x1000,
        }
    }
}

/// The first byte of class 3 parameters that say that the class is valid, and nothing else.
pub const CLASS_3: u8 = 0x80;

impl LoginParms {
    /// Whether class 3 is offered.
    pub fn offers_class3(&self) -> bool
        ensures { result ≡ spec.offers_class3 self.now }
    {
        self.class3[0] >= CLASS_3
    }

    /// Whether this feature is set.
    pub fn has_feature(&self, feature: Feature) -> bool
        ensures { result ≡ spec.has_feature (spec.bit_of feature) self.now }
    {
        self.features / feature.bit() % 2 == 1
    }

    /// The payload in bytes that a service may send to who logged in so.
    pub fn receive_size(&self) -> u16
        ensures value { result ≡ spec.receive_size self.now }
        ensures words { result % 4 ≡ 0 }
        ensures most { result ≤ 2112 }
        ensures least { 256 ≤ self.now.size → 256 ≤ result }
    {
        let size = self.size.min(MOST_PAYLOAD);
        size - size % 4
    }
}
