//! Items that have an address.
use crate::FcId;

/// What has an address, by which a list may ascend.
pub trait HasAddress {
    ghost use Rattle.std.specs.Prelude.{◌≡◌, ℕ};

    /// Its address, as a number.
    ghost address_of: { Self → ℕ };

    fn address(&self) -> FcId
        ensures { result ≡ address_of self.now };
}
