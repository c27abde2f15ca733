//! What a fabric hands out.
ghost use Rattle.fab_sending.specs.Message.{AreSendable};

use fab_sending::{EventList, OutList};

/// What happened and was sent since the last time, in order.
#[derive(Debug, Drop)]
pub struct Drained {
    pub events: EventList,
    pub outs: OutList,
    ghost sendable: { AreSendable events outs },
}
