//! Looking into the maps of FC-4 types and features.
ghost use Rattle.std.specs.Prelude.{◌≡◌, ◌<◌};
ghost use Rattle.ct_messages.specs.Answer as answer;

use crate::{FeatureMap, TypeMap};

impl TypeMap {
    /// Whether a type is in the map.
    pub fn has_type(&self, kind: u8) -> bool
        ensures { result ≡ answer.has_type self.now kind }
    {
        self.0[kind as usize / 32] >> (kind % 32) & 1 == 1
    }

    /// Whether no type is.
    pub fn is_zero(&self) -> bool
        ensures { result ≡ answer.has_no_type self.now }
    {
        self.0.iter().all(|word| *word == 0)
    }
}

impl FeatureMap {
    /// The feature of a type, a number of four bits.
    pub fn feature_of(&self, kind: u8) -> u8
        ensures value { result ≡ answer.feature_of self.now kind }
        ensures range { result < 16 }
    {
        (self.0[kind as usize / 8] >> (4 * (kind % 8)) & 0xf) as u8
    }
}
