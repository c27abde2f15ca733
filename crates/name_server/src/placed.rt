//! Where the entry of an address stands.
ghost use Rattle.std.specs.Prelude.{◌≡◌, ◌+◌, ◌<◌, ◌^◌, option_map, vec_capacity};
ghost use Rattle.fab_base.specs.Keyed.{AscendFrom, item_at, without};
ghost use Rattle.name_server.specs.Places.{placed_address};

use fab_base::FcId;
use sorted_lists::{HasRank, rank_find, rank_take};

/// An address and the place of its entry.
#[derive(Clone, Copy, Debug, PartialEq, Eq)]
pub(crate) struct Placed {
    pub(crate) address: FcId,
    pub(crate) place: usize,
}

impl Placed {
    pub(crate) fn new(address: FcId, place: usize) -> Placed
        ensures value { result ≡ record { address = address; place = place } }
        ensures range { placed_address result + 1 < 2 ^ 128 }
    {
        Placed { address, place }
    }
}

impl HasRank for Placed {
    ghost use Rattle.name_server.specs.Places.{placed_address};

    ghost rank_of = { placed_address };

    fn rank(&self) -> u128 {
        self.address.value() as u128
    }
}

/// The place of an address.
pub(crate) fn place_of(index: &[Placed], address: FcId) -> Option<usize>
    requires { AscendFrom placed_address 0 index.now }
    ensures { result ≡ option_map (λ d. d.place) (item_at placed_address address index.now) }
{
    match rank_find(index, address.value() as u128) {
        Some(placed) => Some(placed.place),
        None => None,
    }
}

/// Takes the place of an address out, and keeps its room.
pub(crate) fn take_place(index: &mut Vec<Placed>, address: FcId) -> Option<usize>
    requires { AscendFrom placed_address 0 index.old.items }
    ensures place { result ≡ option_map (λ d. d.place)
        (item_at placed_address address index.old.items) }
    ensures items { index.new.items ≡ without placed_address address index.old.items }
    ensures capacity { vec_capacity index.new ≡ vec_capacity index.old }
{
    match rank_take(index, address.value() as u128) {
        Some(placed) => Some(placed.place),
        None => None,
    }
}
