//! Which address a login gets.
ghost use Rattle.std.specs.Prelude.{◌≡◌, ℕ, Some, IfOk, OnErr, IsTrue, false};
ghost use Rattle.fab_policy.specs.Free.{is_free};

use crate::Fabric;
use fab_base::FcId;
use fab_roster::Request;

/// The wished address isn't free.
#[derive(Clone, Copy, Debug)]
pub(crate) struct WishTaken;

impl Fabric {
    // The address that a login gets for which this one is free: the wished one, or else this one.
    // It takes no memory, so a wished one that isn't free is answered as such.
    pub(crate) fn address_for(
        &self,
        request: &Request,
        free: FcId,
        wish: Option<FcId>,
    ) -> Result<FcId, WishTaken>
        requires { IsTrue (is_free self.now.state.tables request.now free) }
        ensures free { IfOk result (λ a. IsTrue (is_free self.now.state.tables request.now a)) }
        ensures wished { IfOk result (λ a. (b : ℕ) → wish ≡ Some b → a ≡ b) }
        ensures taken { OnErr result ((a : ℕ) × (wish ≡ Some a)
            × (is_free self.now.state.tables request.now a ≡ false)) }
    {
        let Some(address) = wish else {
            return Ok(free);
        };
        if self.roster.is_free(request, address) {
            Ok(address)
        } else {
            Err(WishTaken)
        }
    }
}
