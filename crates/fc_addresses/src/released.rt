//! The addresses whose login ended, by the name that had them and by the end.
ghost use Rattle.std.specs.Prelude.{◌≡◌, ◌*◌, ◌^◌, find, nat_le};
ghost use Rattle.fab_base.specs.Keyed.{AscendFrom};
ghost use Rattle.fc_addresses.specs.Holders.{owner_number, end_number, owned_by, over_at};

use fab_base::{Moment, Wwn};
use sorted_lists::{HasRank, rank_next};

// How long an address is kept from other names, in milliseconds.
pub(crate) const QUARANTINE: u64 = 10_000;

/// The name that had a place last.
#[derive(Clone, Copy, Debug, PartialEq, Eq)]
pub(crate) struct Owner {
    pub(crate) name: Wwn,
    pub(crate) place: u32,
}

impl Owner {
    ghost use Rattle.std.specs.Prelude.{◌≡◌, ◌+◌, ◌<◌, ◌^◌};
    ghost use Rattle.fc_addresses.specs.Holders.{owner_number};

    pub(crate) fn new(name: Wwn, place: u32) -> Owner
        ensures value { result ≡ record { name = name; place = place } }
        ensures range { owner_number result + 1 < 2 ^ 128 }
    {
        let Wwn(number) = name;
        Owner {
            name: Wwn(number),
            place,
        }
    }
}

impl HasRank for Owner {
    ghost use Rattle.fc_addresses.specs.Holders.{owner_number};

    ghost rank_of = { owner_number };

    fn rank(&self) -> u128 {
        self.name.0 as u128 * (1 << 32) + self.place as u128
    }
}

/// The end of the last login at a place.
#[derive(Clone, Copy, Debug, PartialEq, Eq)]
pub(crate) struct Release {
    pub(crate) end: Moment,
    pub(crate) place: u32,
}

impl HasRank for Release {
    ghost use Rattle.fc_addresses.specs.Holders.{end_number};

    ghost rank_of = { end_number };

    fn rank(&self) -> u128 {
        self.end.0 as u128 * (1 << 32) + self.place as u128
    }
}

// The first place that this name had last.
pub(crate) fn owned_place(owners: &[Owner], name: Wwn) -> Option<u32>
    requires { AscendFrom owner_number 0 owners.now }
    ensures { result
        ≡ owned_by name (find (λ o. nat_le (name * 2 ^ 32) (owner_number o)) owners.now) }
{
    match rank_next(owners, name.0 as u128 * (1 << 32)) {
        Some(owner) => {
            if owner.name == name {
                Some(owner.place)
            } else {
                None
            }
        }
        None => None,
    }
}

// The place whose login ended first, where its quarantine is over.
pub(crate) fn over_place(line: &[Release], now: Moment) -> Option<u32>
    ensures { result ≡ over_at now line.now }
{
    match line.first() {
        Some(first) => {
            if now.0.saturating_sub(first.end.0) > QUARANTINE {
                Some(first.place)
            } else {
                None
            }
        }
        None => None,
    }
}
