//! The past of an address.
use fab_base::{FcId, Moment, Wwn};
use std::marker::Model;

/// An address of the pool, the port name that had it last, and when that login ended. One that
/// nobody had yet has no name, and one that a login holds has no end.
#[derive(Clone, Copy, Debug, PartialEq, Eq)]
pub struct Past {
    pub address: FcId,
    pub name: Option<Wwn>,
    pub ended: Option<Moment>,
}

impl Model for Past {
    ghost use Rattle.fab_base.specs.Fabric as fabric;

    ghost Value = { fabric.Past };

    ghost view = { λ p. record { address = p.address; name = p.name; ended = p.ended } };

    ghost inverse = { λ p. record { address = p.address; name = p.name; ended = p.ended } };
}
