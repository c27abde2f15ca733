//! The two orders of what a clock keeps: by voice, and by the moment at which a voice is silent.
ghost use Rattle.std.specs.Prelude.{◌≡◌, ◌<◌, ◌^◌, length, Some, None, IsSome, vec_capacity};
ghost use Rattle.slab.specs.Slab.{get, slab_len, Updates};
ghost use Rattle.fab_base.specs.Keyed.{item_at};
ghost use Rattle.sorted_lists.specs.Orders.{seen, IsOrder, IsOrderBut};
ghost use Rattle.keepalive_clock.specs.Order.{deadline_number, heard_again, CanHear};
ghost use Rattle.keepalive_clock.specs.declared.voice.LastHeard.{LastHeard};

use crate::{LastHeard, Voice};
use fab_base::Moment;
use slab::Slab;
use sorted_lists::{Order, order_put, order_take};

/// By the numbers of the voices.
pub(crate) struct ByVoice;

/// By deadlines, the latest in front, so that the first one stands last.
#[derive(Clone, Copy, Debug)]
pub(crate) struct ByDue {
    pub(crate) node_period: u32,
    pub(crate) port_period: u32,
}

impl Order<LastHeard> for ByVoice {
    ghost use Rattle.keepalive_clock.specs.Order.{voice_number};

    ghost number_of = { λ order heard. voice_number heard };

    fn number(&self, heard: &LastHeard) -> u128 {
        heard.voice.number() as u128
    }
}

impl Order<LastHeard> for ByDue {
    ghost use Rattle.keepalive_clock.specs.Order.{deadline_number};

    ghost number_of = { λ order heard. deadline_number order.node_period order.port_period heard };

    fn number(&self, heard: &LastHeard) -> u128 {
        ((1 << 65) - self.due(heard)) * (1 << 56) + heard.voice.number() as u128
    }
}

impl ByDue {
    ghost use Rattle.keepalive_clock.specs.Order.{due_of};

    /// The first moment at which the voice is silent too long.
    pub(crate) fn due(&self, heard: &LastHeard) -> u128
        ensures moment { result ≡ due_of self.now.node_period self.now.port_period heard.now }
        ensures range { result < 2 ^ 65 }
    {
        let period = match heard.voice {
            Voice::Node(_) => self.node_period,
            Voice::Port(_) => self.port_period,
        };
        heard.last.0 as u128 + 5 * period as u128 / 2 + 1
    }
}

/// The voice at this place was heard again. Only its place among the deadlines moves, to where its
/// new deadline, which no other voice has, belongs.
pub(crate) fn hear_again(
    order: &ByDue,
    records: &mut Slab<LastHeard>,
    by_due: &mut Vec<usize>,
    place: usize,
    now: Moment,
)
    requires { CanHear order.now.node_period order.now.port_period place now records.old
        by_due.old.items }
    ensures order { IsOrder (deadline_number order.now.node_period order.now.port_period)
        records.new by_due.new.items }
    ensures updates { (x : LastHeard) → get records.old place ≡ Some x
        → Updates records.old records.new place (Some (heard_again now x)) }
    ensures len { slab_len records.new ≡ slab_len records.old }
    ensures room { records.new.capacity ≡ records.old.capacity }
    ensures capacity { vec_capacity by_due.new ≡ vec_capacity by_due.old }
{
    take_out(order, records, by_due, place, now);
    order_put(order, records, by_due, place);
}

/// The voice at this place has its new moment, and its place is taken out of the deadlines.
fn take_out(
    order: &ByDue,
    records: &mut Slab<LastHeard>,
    by_due: &mut Vec<usize>,
    place: usize,
    now: Moment,
)
    requires { CanHear order.now.node_period order.now.port_period place now records.old
        by_due.old.items }
    ensures but { IsOrderBut (deadline_number order.now.node_period order.now.port_period) place
        records.new by_due.new.items }
    ensures absent { (x : LastHeard) → get records.new place ≡ Some x
        → item_at (deadline_number order.now.node_period order.now.port_period)
        (deadline_number order.now.node_period order.now.port_period x)
        (seen records.new by_due.new.items) ≡ None }
    ensures updates { (x : LastHeard) → get records.old place ≡ Some x
        → Updates records.old records.new place (Some (heard_again now x)) }
    ensures len { slab_len records.new ≡ slab_len records.old }
    ensures room { records.new.capacity ≡ records.old.capacity }
    ensures capacity { vec_capacity by_due.new ≡ vec_capacity by_due.old }
    ensures free { length by_due.new.items < vec_capacity by_due.new }
{
    order_take(order, records, by_due, place);
    set_last(records, place, now);
}

fn set_last(records: &mut Slab<LastHeard>, place: usize, now: Moment)
    requires there { IsSome (get records.old place) }
    ensures updates { (x : LastHeard) → get records.old place ≡ Some x
        → Updates records.old records.new place (Some (heard_again now x)) }
    ensures len { slab_len records.new ≡ slab_len records.old }
    ensures capacity { records.new.capacity ≡ records.old.capacity }
{
    match records.get_mut(place) {
        Some(heard) => heard.last = now,
        None => unreachable!(),
    }
}
