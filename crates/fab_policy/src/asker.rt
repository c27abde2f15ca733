//! Whom a reply answers.
use fab_base::{FcId, Mac};
use std::marker::Model;

/// Whom a reply answers: the sender's MAC, and of the frame that it sent the addresses and the
/// exchange.
#[derive(Clone, Copy, Debug, PartialEq, Eq)]
pub struct Asker {
    pub mac: Mac,
    pub d_id: FcId,
    pub s_id: FcId,
    pub ox_id: u16,
}

impl Model for Asker {
    ghost use Rattle.fab_policy.specs.Replies as spec;

    ghost Value = { spec.Asker };

    ghost view = { λ a. record { mac = a.mac; d_id = a.d_id; s_id = a.s_id; ox_id = a.ox_id } };

    ghost inverse = { λ a. record { mac = a.mac; d_id = a.d_id; s_id = a.s_id; ox_id = a.ox_id } };
}
